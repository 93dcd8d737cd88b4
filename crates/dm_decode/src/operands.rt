//! The mod r/m byte and the operands (Intel 8086 Family User's Manual, section 4, "Machine
//! Instruction Encoding and Decoding").

ghost use Rattle.std.specs.Prelude.{◌≡◌, ◌<◌, IfSome};
ghost use Rattle.dm_ins.specs.Spelling.{at_place, based, direct, register};
ghost use Rattle.dm_decode.specs.inner.Reading.{fields_at, memory_at, operand_at, seen};

use crate::reading::{byte_of, word_of};
use dm_ins::fields::Fields;
use dm_ins::operand::extend;
use dm_ins::table::OperandKind;
use dm_ins::{Address, Base, ByteRegister, Operand, Width, WordRegister};

/// The register with a number, 0 to 7, of the width.
fn named(width: Width, number: u8) -> Operand
    requires { number < 8 }
    ensures { result ≡ register width number }
{
    match width {
        Width::Byte => Operand::ByteRegister(ByteRegister::from_number(number)),
        Width::Word => Operand::WordRegister(WordRegister::from_number(number)),
    }
}

/// The address at the base registers that an r/m field, 0 to 7, names, plus a displacement; for field 6 the base is BP.
fn on_base(rm: u8, displacement: u16) -> Address
    requires { rm < 8 }
    ensures { result ≡ based rm displacement }
{
    Address {
        base: Base::from_number(rm),
        displacement,
    }
}

/// The address at a displacement alone: a direct address.
fn on_nothing(displacement: u16) -> Address
    ensures { result ≡ direct displacement }
{
    Address {
        base: Base::Direct,
        displacement,
    }
}

/// The memory operand that the mod and r/m fields name, if they name one, and the bytes after its displacement; `bytes`
/// begins after the mod r/m byte. None where bytes of the displacement are missing.
#[tactic(auto, unfolding(crate::specs::inner::Reading::memory_at))]
fn memory_of(mode: u8, rm: u8, bytes: &[u8]) -> Option<(Option<Address>, &[u8])>
    requires { rm < 8 }
    ensures { seen result ≡ memory_at mode rm bytes.now }
{
    if mode == 0 {
        if rm == 6 {
            let (n, rest) = word_of(bytes)?;
            Some((Some(on_nothing(n)), rest))
        } else {
            Some((Some(on_base(rm, 0)), bytes))
        }
    } else if mode == 1 {
        let (n, rest) = byte_of(bytes)?;
        Some((Some(on_base(rm, extend(n))), rest))
    } else if mode == 2 {
        let (n, rest) = word_of(bytes)?;
        Some((Some(on_base(rm, n)), rest))
    } else {
        Some((None, bytes))
    }
}

/// The fields of the mod r/m byte that `bytes` begins with, with the displacement, and the bytes after both. None where
/// bytes are missing.
#[tactic(auto, unfolding(crate::specs::inner::Reading::fields_at))]
pub fn fields_of(bytes: &[u8]) -> Option<(Fields, &[u8])>
    ensures reads { seen result ≡ fields_at bytes.now }
    ensures fits { IfSome result (λ x. (x.0.register < 8) × (x.0.rm < 8)) }
{
    let (b, rest) = byte_of(bytes)?;
    let (memory, rest) = memory_of(b / 64, b % 8, rest)?;
    Some((
        Fields {
            register: b / 8 % 8,
            rm: b % 8,
            memory,
        },
        rest,
    ))
}

/// What the mod and r/m fields name: the memory operand, if there is one, else the register.
fn place(width: Width, fields: Fields) -> Operand
    requires { fields.rm < 8 }
    ensures { result ≡ at_place width fields.rm fields.memory }
{
    match fields.memory {
        None => named(width, fields.rm),
        Some(address) => Operand::Memory(width, address),
    }
}

/// The operand of the kind, where the mod r/m byte has these fields, and the bytes after it; `bytes` begins where the
/// operand's own bytes would. None where bytes are missing, or where the kind is memory and the fields name a register.
#[tactic(auto, unfolding(crate::specs::inner::Reading::operand_at))]
pub fn operand_of(kind: OperandKind, fields: Fields, bytes: &[u8]) -> Option<(Operand, &[u8])>
    requires register { fields.register < 8 }
    requires rm { fields.rm < 8 }
    ensures { seen result ≡ operand_at kind fields bytes.now }
{
    match kind {
        OperandKind::Nothing => Some((Operand::Nothing, bytes)),
        OperandKind::RegisterOrMemory(width) => Some((place(width, fields), bytes)),
        OperandKind::Register(width) => Some((named(width, fields.register), bytes)),
        OperandKind::Memory => {
            let address = fields.memory?;
            Some((Operand::Memory(Width::Word, address), bytes))
        }
        OperandKind::ByteValue => {
            let (n, rest) = byte_of(bytes)?;
            Some((Operand::ByteValue(n), rest))
        }
        OperandKind::WordValue => {
            let (n, rest) = word_of(bytes)?;
            Some((Operand::WordValue(n), rest))
        }
        OperandKind::SignedValue => {
            let (n, rest) = byte_of(bytes)?;
            Some((Operand::WordValue(extend(n)), rest))
        }
        OperandKind::Short => {
            let (n, rest) = byte_of(bytes)?;
            Some((Operand::Target(extend(n)), rest))
        }
        OperandKind::Near => {
            let (n, rest) = word_of(bytes)?;
            Some((Operand::Target(n), rest))
        }
        OperandKind::Direct(width) => {
            let (n, rest) = word_of(bytes)?;
            Some((Operand::Memory(width, on_nothing(n)), rest))
        }
        OperandKind::Far => {
            let (offset, rest) = word_of(bytes)?;
            let (segment, rest) = word_of(rest)?;
            Some((Operand::FarTarget(offset, segment), rest))
        }
        OperandKind::Escape(r) => Some((Operand::ByteValue(8 * (r % 8) + fields.register), bytes)),
        OperandKind::Byte(r) => Some((Operand::ByteRegister(r), bytes)),
        OperandKind::Word(r) => Some((Operand::WordRegister(r), bytes)),
        OperandKind::TheSegment(r) => Some((Operand::SegmentRegister(r), bytes)),
        OperandKind::One => Some((Operand::One, bytes)),
    }
}
