//! What an operand asks of an instruction's bytes.

ghost use Rattle.std.specs.Prelude.{◌≡◌, ◌<◌, IfSome, IsSome, IsFalse, None};
ghost use Rattle.dm_ins.specs.Spelling.{sign_extended};
ghost use Rattle.dm_ins.specs.inner.Search.{DemandFits, OperandFits, as_signed, asks_data, asks_place, asks_register, demand_of, is_direct, numbered, same_width};

use crate::operand::{Address, Base, Operand, Width, extend};
use crate::table::OperandKind;

/// What the mod and r/m fields name.
#[derive(Clone, Copy)]
pub enum RegisterOrMemory {
    /// The register with the number, 0 to 7.
    Register(u8),
    Memory(Address),
}

/// The bytes of an operand after the mod r/m byte and its displacement.
#[derive(Clone, Copy)]
pub enum Data {
    Nothing,
    Byte(u8),
    Word(u16),
    Words(u16, u16),
}

/// What an operand asks of the bytes.
#[derive(Clone, Copy)]
pub struct Demand {
    /// What the reg field has to be, 0 to 7; None if the operand does not ask for it.
    pub register: Option<u8>,
    /// What the mod and r/m fields have to name; None if the operand does not ask for it.
    pub place: Option<RegisterOrMemory>,
    /// The operand's bytes after the mod r/m byte and its displacement.
    pub tail: Data,
}

impl Demand {
    /// The demand for these bytes after the mod r/m byte and its displacement, and for no field.
    fn for_data(tail: Data) -> Self
        ensures { result ≡ asks_data tail }
    {
        Self {
            register: None,
            place: None,
            tail,
        }
    }

    /// The demand for this number, 0 to 7, in the reg field.
    fn for_register(number: u8) -> Self
        ensures { result ≡ asks_register number }
    {
        Self {
            register: Some(number),
            place: None,
            tail: Data::Nothing,
        }
    }

    /// The demand that the mod and r/m fields name this register or memory operand.
    fn for_place(place: RegisterOrMemory) -> Self
        ensures { result ≡ asks_place place }
    {
        Self {
            register: None,
            place: Some(place),
            tail: Data::Nothing,
        }
    }
}

/// The number of the register that the operand is, None if it is no register of the width.
fn number(width: Width, operand: Operand) -> Option<u8>
    ensures value { result ≡ numbered width operand }
    ensures fits { IfSome result (λ n. n < 8) }
{
    match width {
        Width::Byte => match operand {
            Operand::ByteRegister(r) => Some(r.number()),
            _ => None,
        },
        Width::Word => match operand {
            Operand::WordRegister(r) => Some(r.number()),
            _ => None,
        },
    }
}

/// Whether the widths of a template's memory operand and of a given one are the same.
fn is_as_wide(a: Width, b: Width) -> bool
    ensures { result ≡ same_width a b }
{
    match a {
        Width::Byte => matches!(b, Width::Byte),
        Width::Word => matches!(b, Width::Word),
    }
}

/// Whether the base of an address is no register, so that the displacement alone is the offset.
pub fn has_no_base(base: Base) -> bool
    ensures { result ≡ is_direct base }
{
    matches!(base, Base::Direct)
}

/// The demand for the byte that extends by sign to the word, an immediate or a short jump's displacement; None if there
/// is no such byte.
fn signed(n: u16) -> Option<Demand>
    ensures { result ≡ as_signed n }
{
    let low = (n % 256) as u8;
    if extend(low) == n {
        Some(Demand::for_data(Data::Byte(low)))
    } else {
        None
    }
}

/// Whether an operand is a register of the width.
#[inline(always)]
fn is_register(width: Width, operand: Operand) -> bool
    ensures { IsFalse result → numbered width operand ≡ None }
{
    match width {
        Width::Byte => matches!(operand, Operand::ByteRegister(_)),
        Width::Word => matches!(operand, Operand::WordRegister(_)),
    }
}

/// Whether an operand may be of the kind: where this is false, `demand_for` returns None. It is the quick test that
/// rules out most templates of a mnemonic.
#[inline(always)]
#[tactic(auto, unfolding(crate::specs::inner::Search::demand_of))]
pub fn may_be(kind: OperandKind, operand: Operand) -> bool
    ensures { IsFalse result → demand_of kind operand ≡ None }
{
    match kind {
        OperandKind::Nothing => matches!(operand, Operand::Nothing),
        OperandKind::RegisterOrMemory(width) => match operand {
            Operand::Memory(other, _) => is_as_wide(width, other),
            _ => is_register(width, operand),
        },
        OperandKind::Register(width) => is_register(width, operand),
        OperandKind::Memory => matches!(operand, Operand::Memory(Width::Word, _)),
        OperandKind::ByteValue | OperandKind::Escape(_) => matches!(operand, Operand::ByteValue(_)),
        OperandKind::WordValue | OperandKind::SignedValue => {
            matches!(operand, Operand::WordValue(_))
        }
        OperandKind::Short | OperandKind::Near => matches!(operand, Operand::Target(_)),
        OperandKind::Direct(width) => match operand {
            Operand::Memory(other, _) => is_as_wide(width, other),
            _ => false,
        },
        OperandKind::Far => matches!(operand, Operand::FarTarget(..)),
        OperandKind::Byte(r) => match operand {
            Operand::ByteRegister(s) => r.number() == s.number(),
            _ => false,
        },
        OperandKind::Word(r) => match operand {
            Operand::WordRegister(s) => r.number() == s.number(),
            _ => false,
        },
        OperandKind::TheSegment(r) => match operand {
            Operand::SegmentRegister(s) => r.number() == s.number(),
            _ => false,
        },
        OperandKind::One => matches!(operand, Operand::One),
    }
}

/// What an operand asks of the bytes where a template has this kind, None if it is not of the kind.
#[tactic(auto, unfolding(crate::specs::inner::Search::demand_of))]
pub fn demand_for(kind: OperandKind, operand: Operand) -> Option<Demand>
    ensures value { result ≡ demand_of kind operand }
    ensures fits { IfSome result DemandFits }
    ensures numbers { IsSome result → OperandFits operand }
{
    match kind {
        OperandKind::Nothing => match operand {
            Operand::Nothing => Some(Demand::for_data(Data::Nothing)),
            _ => None,
        },
        OperandKind::RegisterOrMemory(width) => match operand {
            Operand::Memory(other, address) => {
                if is_as_wide(width, other) {
                    Some(Demand::for_place(RegisterOrMemory::Memory(address)))
                } else {
                    None
                }
            }
            _ => {
                let n = number(width, operand)?;
                Some(Demand::for_place(RegisterOrMemory::Register(n)))
            }
        },
        OperandKind::Register(width) => {
            let n = number(width, operand)?;
            Some(Demand::for_register(n))
        }
        OperandKind::Memory => match operand {
            Operand::Memory(other, address) => {
                if is_as_wide(Width::Word, other) {
                    Some(Demand::for_place(RegisterOrMemory::Memory(address)))
                } else {
                    None
                }
            }
            _ => None,
        },
        OperandKind::ByteValue => match operand {
            Operand::ByteValue(n) => Some(Demand::for_data(Data::Byte(n))),
            _ => None,
        },
        OperandKind::WordValue => match operand {
            Operand::WordValue(n) => Some(Demand::for_data(Data::Word(n))),
            _ => None,
        },
        OperandKind::SignedValue => match operand {
            Operand::WordValue(n) => signed(n),
            _ => None,
        },
        OperandKind::Short => match operand {
            Operand::Target(n) => signed(n),
            _ => None,
        },
        OperandKind::Near => match operand {
            Operand::Target(n) => Some(Demand::for_data(Data::Word(n))),
            _ => None,
        },
        OperandKind::Direct(width) => match operand {
            Operand::Memory(other, address) => {
                if is_as_wide(width, other) {
                    if has_no_base(address.base) {
                        Some(Demand::for_data(Data::Word(address.displacement)))
                    } else {
                        None
                    }
                } else {
                    None
                }
            }
            _ => None,
        },
        OperandKind::Far => match operand {
            Operand::FarTarget(offset, segment) => Some(Demand::for_data(Data::Words(
                offset, segment,
            ))),
            _ => None,
        },
        OperandKind::Escape(r) => match operand {
            Operand::ByteValue(n) => {
                if n / 8 == r % 8 {
                    Some(Demand::for_register(n % 8))
                } else {
                    None
                }
            }
            _ => None,
        },
        OperandKind::Byte(r) => match operand {
            Operand::ByteRegister(s) => {
                if r.number() == s.number() {
                    Some(Demand::for_data(Data::Nothing))
                } else {
                    None
                }
            }
            _ => None,
        },
        OperandKind::Word(r) => match operand {
            Operand::WordRegister(s) => {
                if r.number() == s.number() {
                    Some(Demand::for_data(Data::Nothing))
                } else {
                    None
                }
            }
            _ => None,
        },
        OperandKind::TheSegment(r) => match operand {
            Operand::SegmentRegister(s) => {
                if r.number() == s.number() {
                    Some(Demand::for_data(Data::Nothing))
                } else {
                    None
                }
            }
            _ => None,
        },
        OperandKind::One => match operand {
            Operand::One => Some(Demand::for_data(Data::Nothing)),
            _ => None,
        },
    }
}
