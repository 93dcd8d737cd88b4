//! What each driver does, and how it returns.
ghost use Rattle.std.specs.Prelude.{◌≡◌};
ghost use Rattle.dm_services.specs.state.State.{AreConsistent};
ghost use Rattle.dm_drivers.specs.Drivers.{driven, acted, returned_to_caller};

use crate::expanded::expanded_memory_call;
use crate::extended::extended_memory_call;
use crate::multiplex::multiplex_call;
use dm_services::state::Parts;
use dm_space::entry_points::Driver;

/// Performs the call of the driver, before the return to the program: INT 67h changes registers, memory and the tables
/// of expanded memory, the extended memory driver registers, memory and its own tables, INT 2Fh registers alone. The
/// count of steps stays.
fn call_driver(parts: &mut Parts, driver: Driver)
    requires { AreConsistent parts.old }
    ensures { parts.new ≡ acted parts.old driver }
{
    match driver {
        Driver::ExpandedMemory => {
            expanded_memory_call(&mut parts.cpu, &mut parts.ems, &mut parts.space);
        }
        Driver::Multiplex => multiplex_call(&mut parts.cpu),
        Driver::ExtendedMemory => {
            extended_memory_call(
                &mut parts.cpu,
                &mut parts.xms,
                &mut parts.space,
                parts.upper,
            );
        }
    }
}

/// Returns from the driver: from INT 67h and INT 2Fh by popping IP, CS and FLAGS, from the extended memory driver by
/// popping IP and CS. Memory, the tables and the count of steps stay.
fn return_to_caller(parts: &mut Parts, driver: Driver)
    ensures { parts.new ≡ returned_to_caller parts.old driver }
{
    match driver {
        Driver::ExpandedMemory => parts.return_from_interrupt(),
        Driver::Multiplex => parts.return_from_interrupt(),
        Driver::ExtendedMemory => parts.return_far(),
    }
}

/// Performs a driver's call, returns to the program through the stack as the driver has left it, and counts the step. A
/// driver never stops the machine. The tables of expanded and extended memory must be consistent with memory, and stay
/// so.
pub fn drive(parts: &mut Parts, driver: Driver)
    requires { AreConsistent parts.old }
    ensures answer { parts.new ≡ (driven parts.old driver).state }
    ensures consistent { AreConsistent parts.new }
{
    call_driver(parts, driver);
    return_to_caller(parts, driver);
    parts.count();
}
