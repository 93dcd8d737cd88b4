//! The law of the services (the divide error, INT 20h and the functions of INT 21h), as the contract of a function that
//! does nothing.
ghost use Rattle.dm_services.specs.Laws.{ServicesHaveOneAnswer};

/// The state before a service determines its stop and the state after it, unless an allocation fails.
pub fn services_have_one_answer()
    ensures { ServicesHaveOneAnswer }
{}
