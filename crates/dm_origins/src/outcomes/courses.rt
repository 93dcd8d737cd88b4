//! Which calls start and end processes (MS-DOS Programmer's Reference, functions 00h, 31h, 4Bh and 4Ch, interrupts 20h
//! and 0).

ghost use Rattle.std.specs.Prelude.{◌≡◌};
ghost use Rattle.dm_origins.specs.outcomes.Courses.{ends_process, has_started};

use crate::outcomes::calls::{is_ending, is_starting};
use dm_cpu::Cpu;
use dm_findings::Call;
use dm_services::function_of;

/// Whether a call started a process, by the registers before and after it.
pub fn has_started(before: &Cpu, after: &Cpu, call: Option<Call>) -> bool
    ensures { result ≡ has_started before.now after.now call }
{
    match call {
        Some(Call::Dos(number)) => is_starting(before, function_of(number)) && !after.flags.carry,
        _ => false,
    }
}

/// Whether a call is one that ends a process.
pub fn ends_process(call: Option<Call>) -> bool
    ensures { result ≡ ends_process call }
{
    match call {
        Some(Call::DivideError) => true,
        Some(Call::Terminate) => true,
        Some(Call::Dos(number)) => is_ending(function_of(number)),
        _ => false,
    }
}
