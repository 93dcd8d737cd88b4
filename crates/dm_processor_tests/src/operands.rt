//! Operands for rows.
ghost use Rattle.std.specs.Prelude.{◌≡◌};

use dm_ins::{Address, Base, Operand, Width};

/// The memory operand of this width with a base and a displacement.
pub(crate) fn memory(width: Width, base: Base, displacement: u16) -> Operand
    ensures { result ≡ Operand.Memory width (record { base = base; displacement = displacement }) }
{
    Operand::Memory(width, Address { base, displacement })
}
