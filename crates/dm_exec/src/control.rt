//! CLC, STC, CMC, CLD, STD, CLI and STI.
ghost use Rattle.std.specs.Prelude.{◌≡◌};
ghost use Rattle.dm_exec.specs.Control.{flags_changed};

use crate::operation::FlagOperation;
use dm_cpu::Registers;

/// Does CLC, STC, CMC, CLD, STD, CLI or STI: changes one flag. The registers stay.
#[inline(never)]
#[tactic(auto, unfolding(crate::specs::Control::flags_changed))]
pub fn change_flag(cpu: &mut Registers, operation: FlagOperation)
    ensures { cpu.new ≡ record cpu.old { flags = flags_changed operation cpu.old.flags } }
{
    match operation {
        FlagOperation::ClearCarry => cpu.set_carry(0),
        FlagOperation::SetCarry => cpu.set_carry(0x8000_0000),
        FlagOperation::ComplementCarry => {
            let set = cpu.carry() >= 0x8000_0000;
            cpu.set_carry(if set { 0 } else { 0x8000_0000 });
        }
        FlagOperation::ClearDirection => cpu.set_direction(false),
        FlagOperation::SetDirection => cpu.set_direction(true),
        FlagOperation::ClearInterrupt => cpu.set_interrupt(false),
        FlagOperation::SetInterrupt => cpu.set_interrupt(true),
    }
}
