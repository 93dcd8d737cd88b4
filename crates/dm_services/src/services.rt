//! The services that the machine has in place of interrupt handlers.
ghost use Rattle.dm_services.specs.state.State.{HasProgram};
ghost use Rattle.dm_services.specs.Services.{Serves};
ghost use Rattle.dm_services.specs.Wanting.{OrWants};

use crate::functions::dos_call;
use crate::processes::terminate;
use crate::state::{Parts, Stop};
use dm_space::entry_points::Service;

/// Performs a service: for a divide error ends the present process with code FFh, for INT 20h with code 0; for INT 21h
/// performs the function in AH. Returns None if the machine goes on, and `Exited` if the first program has ended, both
/// with the step counted; any other stop changes nothing. A program must be loaded, and stays loaded.
pub fn serve(parts: &mut Parts, service: Service) -> Option<Stop>
    requires { HasProgram parts.old }
    ensures answer { OrWants parts.old (Serves parts.old service) result parts.new }
    ensures program { HasProgram parts.new }
{
    match service {
        Service::DivideError => terminate(parts, 0xFF),
        Service::Terminate => terminate(parts, 0),
        Service::Dos => dos_call(parts),
    }
}
