//! Laws of the drivers (INT 67h, INT 2Fh and the extended memory driver): each is the contract of a function that does
//! nothing.
ghost use Rattle.dm_drivers.specs.Laws.{DriversKeep, PagesCome, BlockComes};

/// No driver stops the machine, or changes anything but the registers, memory, the tables of expanded and extended
/// memory and the count of steps. Each keeps the tables consistent with memory: no block of the pool belongs to both
/// drivers, and none to neither.
pub fn drivers_keep()
    ensures { DriversKeep }
{}

/// A successful call of INT 67h function 43h or 51h leaves the handle with exactly as many pages as were asked for,
/// each a block of the pool of its own, if the tables are consistent with memory, as in every machine. First are the
/// pages that the handle had, as many of them as it keeps; the pages after them are new blocks of zeros.
pub fn pages_come()
    ensures { PagesCome }
{}

/// Function 09h of the extended memory driver gives each block that a gap of the pool holds, with a handle that was not
/// in use, if the tables are consistent with memory, as in every machine: it returns A1h only where each handle is in
/// use, and A0h only where each gap is smaller. The block is new, and has zeros alone.
pub fn block_comes()
    ensures { BlockComes }
{}
