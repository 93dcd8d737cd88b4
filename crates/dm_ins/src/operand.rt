//! Operands of 8086 instructions: registers, memory addresses, immediate values and targets
//! (Intel 8086 Family User's Manual, section 2.8, "Addressing Modes").

ghost use Rattle.std.specs.Prelude.{◌≡◌, ◌<◌, slice_index_or};
ghost use Rattle.dm_ins.specs.Spelling.{sign_extended};
ghost use Rattle.dm_ins.specs.Registers.{bases, byte_registers, word_registers, byte_register_number, segment_number, word_number};

/// Whether an operand is a byte or a word.
#[derive(Clone, Copy, Debug, PartialEq, Eq)]
pub enum Width {
    /// 8 bits.
    Byte,
    /// 16 bits.
    Word,
}

/// The 16-bit general registers, in the order of their numbers 0 to 7.
#[derive(Clone, Copy, Debug, PartialEq, Eq)]
pub enum WordRegister {
    Ax,
    Cx,
    Dx,
    Bx,
    Sp,
    Bp,
    Si,
    Di,
}

impl WordRegister {
    /// The number of the register in an instruction's bytes, 0 to 7.
    pub fn number(self) -> u8
        ensures value { result ≡ word_number self }
        ensures fits { result < 8 }
    {
        self as u8
    }

    /// The register with the number, 0 to 7, in the reg field, or in the r/m field where mod is 3.
    pub fn from_number(number: u8) -> Self
        requires { number < 8 }
        ensures { result ≡ slice_index_or word_registers number WordRegister.Ax }
    {
        WORDS[number as usize]
    }
}

/// The 16-bit registers by number.
static WORDS: [WordRegister; 8] = [
    WordRegister::Ax,
    WordRegister::Cx,
    WordRegister::Dx,
    WordRegister::Bx,
    WordRegister::Sp,
    WordRegister::Bp,
    WordRegister::Si,
    WordRegister::Di,
];

/// The 8-bit general registers, in the order of their numbers 0 to 7.
#[derive(Clone, Copy, Debug, PartialEq, Eq)]
pub enum ByteRegister {
    Al,
    Cl,
    Dl,
    Bl,
    Ah,
    Ch,
    Dh,
    Bh,
}

impl ByteRegister {
    /// The number of the register in an instruction's bytes, 0 to 7.
    pub fn number(self) -> u8
        ensures value { result ≡ byte_register_number self }
        ensures fits { result < 8 }
    {
        self as u8
    }

    /// The register with the number, 0 to 7, in the reg field, or in the r/m field where mod is 3.
    pub fn from_number(number: u8) -> Self
        requires { number < 8 }
        ensures { result ≡ slice_index_or byte_registers number ByteRegister.Al }
    {
        BYTES[number as usize]
    }
}

/// The 8-bit registers by number.
static BYTES: [ByteRegister; 8] = [
    ByteRegister::Al,
    ByteRegister::Cl,
    ByteRegister::Dl,
    ByteRegister::Bl,
    ByteRegister::Ah,
    ByteRegister::Ch,
    ByteRegister::Dh,
    ByteRegister::Bh,
];

/// The segment registers, in the order of their numbers 0 to 3.
#[derive(Clone, Copy, Debug, PartialEq, Eq)]
pub enum SegmentRegister {
    Es,
    Cs,
    Ss,
    Ds,
}

impl SegmentRegister {
    /// The number of the register in an instruction's bytes, 0 to 3.
    pub fn number(self) -> u8
        ensures value { result ≡ segment_number self }
        ensures fits { result < 4 }
    {
        self as u8
    }
}

/// The registers whose values are added into the offset of a memory operand.
#[derive(Clone, Copy, Debug, PartialEq, Eq)]
pub enum Base {
    /// No register: the displacement is the offset.
    Direct,
    BxSi,
    BxDi,
    BpSi,
    BpDi,
    OnSi,
    OnDi,
    OnBp,
    OnBx,
}

impl Base {
    /// The registers that the r/m field, 0 to 7, names where the mod field is not 3 and the address is
    /// not direct.
    pub fn from_number(number: u8) -> Self
        requires { number < 8 }
        ensures { result ≡ slice_index_or bases number Base.BxSi }
    {
        BASES[number as usize]
    }
}

/// The base registers by the number in the r/m field.
static BASES: [Base; 8] = [
    Base::BxSi,
    Base::BxDi,
    Base::BpSi,
    Base::BpDi,
    Base::OnSi,
    Base::OnDi,
    Base::OnBp,
    Base::OnBx,
];

/// The offset of a memory operand: the base registers' sum plus the displacement, modulo 10000h.
/// There is one value for each operand: a displacement that is left out is 0, and one of a byte is
/// the word that extends it by sign.
#[derive(Clone, Copy, Debug, PartialEq, Eq)]
pub struct Address {
    pub base: Base,
    pub displacement: u16,
}

/// One operand of an instruction.
#[derive(Clone, Copy, Debug, PartialEq, Eq)]
pub enum Operand {
    /// The instruction has no operand in this place.
    Nothing,
    ByteRegister(ByteRegister),
    WordRegister(WordRegister),
    SegmentRegister(SegmentRegister),
    /// Memory of the width at the address. A far pointer in memory, and the operand of LEA, are `Word`.
    Memory(Width, Address),
    /// An immediate byte, a port, an interrupt's number or ESC's number (0 to 3Fh).
    ByteValue(u8),
    /// An immediate word. A byte that the encoding extends by sign stands here as that word.
    WordValue(u16),
    /// The count 1 of a shift or rotate.
    One,
    /// The displacement of a target in the same segment, from the next instruction, modulo 10000h.
    Target(u16),
    /// A target in another segment: its offset, then its segment.
    FarTarget(u16, u16),
}

/// A byte extended by sign to a word (CBW, displacements, immediate bytes of word operands).
pub fn extend(byte: u8) -> u16
    ensures { result ≡ sign_extended byte }
{
    if byte < 0x80 {
        byte as u16
    } else {
        byte as u16 + 0xFF00
    }
}
