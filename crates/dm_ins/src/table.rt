//! The instruction table of the 8086: for each first byte, and in a group for each value of the
//! mod r/m byte's reg field, the mnemonic and the kinds of its operands (Intel 8086 Family User's
//! Manual, section 4, "Machine Instruction Encoding and Decoding").

ghost use Rattle.std.specs.Prelude.{◌≡◌, ◌<◌};
ghost use Rattle.dm_ins.specs.Table.{IfGroup, entry_of, member_of};

use crate::action::Mnemonic;
use crate::operand::{ByteRegister, SegmentRegister, Width, WordRegister};

/// What kind of operand a template has in one place, and so which bytes fix it.
#[derive(Clone, Copy, Debug, PartialEq, Eq)]
pub enum OperandKind {
    /// No operand.
    Nothing,
    /// The register or memory operand of the mod and r/m fields.
    RegisterOrMemory(Width),
    /// The register of the reg field.
    Register(Width),
    /// The memory operand of the mod and r/m fields, where mod 3 has no template.
    Memory,
    /// An immediate byte.
    ByteValue,
    /// An immediate word.
    WordValue,
    /// A byte that is extended by sign to an immediate word.
    SignedValue,
    /// A displacement of one byte, extended by sign, from the next instruction.
    Short,
    /// A displacement of one word from the next instruction.
    Near,
    /// Memory at the offset word that follows.
    Direct(Width),
    /// An offset word and a segment word.
    Far,
    /// ESC's number: eight times this number (0 to 7) plus the reg field.
    Escape(u8),
    /// This byte register.
    Byte(ByteRegister),
    /// This word register.
    Word(WordRegister),
    /// This segment register.
    TheSegment(SegmentRegister),
    /// The number 1.
    One,
}

/// A template: a line of the table, a mnemonic with the kinds of its operands.
#[derive(Clone, Copy, Debug, PartialEq, Eq)]
pub struct Template {
    pub mnemonic: Mnemonic,
    pub first: OperandKind,
    pub second: OperandKind,
}

/// What a first byte begins.
#[derive(Clone, Copy, Debug, PartialEq, Eq)]
pub enum OpcodeEntry {
    /// No instruction: the byte is a prefix or the 8086 has no instruction for it.
    Unlisted,
    /// One template.
    Plain(Template),
    /// A template for each value of the reg field, in the group with the number.
    Group(u8),
    /// One template, where the second byte is this one.
    Second(u8, Template),
}

/// The kind of operand that a sign of the manual's tables stands for: E the mod and r/m fields, G
/// the reg field, M memory, I an immediate, Is one that is extended by sign, D a displacement, O a
/// direct offset, Ap a far pointer; b a byte, w a word; a register, or the number 1, for itself.
macro_rules! kind {
    (Eb) => { OperandKind::RegisterOrMemory(Width::Byte) };
    (Ew) => { OperandKind::RegisterOrMemory(Width::Word) };
    (Gb) => { OperandKind::Register(Width::Byte) };
    (Gw) => { OperandKind::Register(Width::Word) };
    (M) => { OperandKind::Memory };
    (Ib) => { OperandKind::ByteValue };
    (Iw) => { OperandKind::WordValue };
    (Is) => { OperandKind::SignedValue };
    (Db) => { OperandKind::Short };
    (Dw) => { OperandKind::Near };
    (Ob) => { OperandKind::Direct(Width::Byte) };
    (Ow) => { OperandKind::Direct(Width::Word) };
    (Ap) => { OperandKind::Far };
    (one) => { OperandKind::One };
    (AL) => { OperandKind::Byte(ByteRegister::Al) };
    (CL) => { OperandKind::Byte(ByteRegister::Cl) };
    (DL) => { OperandKind::Byte(ByteRegister::Dl) };
    (BL) => { OperandKind::Byte(ByteRegister::Bl) };
    (AH) => { OperandKind::Byte(ByteRegister::Ah) };
    (CH) => { OperandKind::Byte(ByteRegister::Ch) };
    (DH) => { OperandKind::Byte(ByteRegister::Dh) };
    (BH) => { OperandKind::Byte(ByteRegister::Bh) };
    (AX) => { OperandKind::Word(WordRegister::Ax) };
    (CX) => { OperandKind::Word(WordRegister::Cx) };
    (DX) => { OperandKind::Word(WordRegister::Dx) };
    (BX) => { OperandKind::Word(WordRegister::Bx) };
    (SP) => { OperandKind::Word(WordRegister::Sp) };
    (BP) => { OperandKind::Word(WordRegister::Bp) };
    (SI) => { OperandKind::Word(WordRegister::Si) };
    (DI) => { OperandKind::Word(WordRegister::Di) };
    (ES) => { OperandKind::TheSegment(SegmentRegister::Es) };
    (CS) => { OperandKind::TheSegment(SegmentRegister::Cs) };
    (SS) => { OperandKind::TheSegment(SegmentRegister::Ss) };
    (DS) => { OperandKind::TheSegment(SegmentRegister::Ds) };
}

/// A template, written as the manual writes it: the mnemonic, then the signs of its operands.
macro_rules! template {
    (Esc $number:literal) => {
        Template {
            mnemonic: Mnemonic::Esc,
            first: OperandKind::Escape($number),
            second: OperandKind::RegisterOrMemory(Width::Word),
        }
    };
    ($mnemonic:ident) => {
        Template { mnemonic: Mnemonic::$mnemonic, first: OperandKind::Nothing, second: OperandKind::Nothing }
    };
    ($mnemonic:ident $first:ident) => {
        Template { mnemonic: Mnemonic::$mnemonic, first: kind!($first), second: OperandKind::Nothing }
    };
    ($mnemonic:ident $first:ident, $second:ident) => {
        Template { mnemonic: Mnemonic::$mnemonic, first: kind!($first), second: kind!($second) }
    };
}

/// What each first byte begins.
pub static ENTRIES: [OpcodeEntry; 256] = [
    // 00
    OpcodeEntry::Plain(template!(Add Eb, Gb)),
    OpcodeEntry::Plain(template!(Add Ew, Gw)),
    OpcodeEntry::Plain(template!(Add Gb, Eb)),
    OpcodeEntry::Plain(template!(Add Gw, Ew)),
    OpcodeEntry::Plain(template!(Add AL, Ib)),
    OpcodeEntry::Plain(template!(Add AX, Iw)),
    OpcodeEntry::Plain(template!(Push ES)),
    OpcodeEntry::Plain(template!(Pop ES)),
    OpcodeEntry::Plain(template!(Or Eb, Gb)),
    OpcodeEntry::Plain(template!(Or Ew, Gw)),
    OpcodeEntry::Plain(template!(Or Gb, Eb)),
    OpcodeEntry::Plain(template!(Or Gw, Ew)),
    OpcodeEntry::Plain(template!(Or AL, Ib)),
    OpcodeEntry::Plain(template!(Or AX, Iw)),
    OpcodeEntry::Plain(template!(Push CS)),
    OpcodeEntry::Unlisted, // POP CS is no instruction.
    // 10
    OpcodeEntry::Plain(template!(Adc Eb, Gb)),
    OpcodeEntry::Plain(template!(Adc Ew, Gw)),
    OpcodeEntry::Plain(template!(Adc Gb, Eb)),
    OpcodeEntry::Plain(template!(Adc Gw, Ew)),
    OpcodeEntry::Plain(template!(Adc AL, Ib)),
    OpcodeEntry::Plain(template!(Adc AX, Iw)),
    OpcodeEntry::Plain(template!(Push SS)),
    OpcodeEntry::Plain(template!(Pop SS)),
    OpcodeEntry::Plain(template!(Sbb Eb, Gb)),
    OpcodeEntry::Plain(template!(Sbb Ew, Gw)),
    OpcodeEntry::Plain(template!(Sbb Gb, Eb)),
    OpcodeEntry::Plain(template!(Sbb Gw, Ew)),
    OpcodeEntry::Plain(template!(Sbb AL, Ib)),
    OpcodeEntry::Plain(template!(Sbb AX, Iw)),
    OpcodeEntry::Plain(template!(Push DS)),
    OpcodeEntry::Plain(template!(Pop DS)),
    // 20
    OpcodeEntry::Plain(template!(And Eb, Gb)),
    OpcodeEntry::Plain(template!(And Ew, Gw)),
    OpcodeEntry::Plain(template!(And Gb, Eb)),
    OpcodeEntry::Plain(template!(And Gw, Ew)),
    OpcodeEntry::Plain(template!(And AL, Ib)),
    OpcodeEntry::Plain(template!(And AX, Iw)),
    OpcodeEntry::Unlisted,
    OpcodeEntry::Plain(template!(Daa)),
    OpcodeEntry::Plain(template!(Sub Eb, Gb)),
    OpcodeEntry::Plain(template!(Sub Ew, Gw)),
    OpcodeEntry::Plain(template!(Sub Gb, Eb)),
    OpcodeEntry::Plain(template!(Sub Gw, Ew)),
    OpcodeEntry::Plain(template!(Sub AL, Ib)),
    OpcodeEntry::Plain(template!(Sub AX, Iw)),
    OpcodeEntry::Unlisted,
    OpcodeEntry::Plain(template!(Das)),
    // 30
    OpcodeEntry::Plain(template!(Xor Eb, Gb)),
    OpcodeEntry::Plain(template!(Xor Ew, Gw)),
    OpcodeEntry::Plain(template!(Xor Gb, Eb)),
    OpcodeEntry::Plain(template!(Xor Gw, Ew)),
    OpcodeEntry::Plain(template!(Xor AL, Ib)),
    OpcodeEntry::Plain(template!(Xor AX, Iw)),
    OpcodeEntry::Unlisted,
    OpcodeEntry::Plain(template!(Aaa)),
    OpcodeEntry::Plain(template!(Cmp Eb, Gb)),
    OpcodeEntry::Plain(template!(Cmp Ew, Gw)),
    OpcodeEntry::Plain(template!(Cmp Gb, Eb)),
    OpcodeEntry::Plain(template!(Cmp Gw, Ew)),
    OpcodeEntry::Plain(template!(Cmp AL, Ib)),
    OpcodeEntry::Plain(template!(Cmp AX, Iw)),
    OpcodeEntry::Unlisted,
    OpcodeEntry::Plain(template!(Aas)),
    // 40
    OpcodeEntry::Plain(template!(Inc AX)),
    OpcodeEntry::Plain(template!(Inc CX)),
    OpcodeEntry::Plain(template!(Inc DX)),
    OpcodeEntry::Plain(template!(Inc BX)),
    OpcodeEntry::Plain(template!(Inc SP)),
    OpcodeEntry::Plain(template!(Inc BP)),
    OpcodeEntry::Plain(template!(Inc SI)),
    OpcodeEntry::Plain(template!(Inc DI)),
    OpcodeEntry::Plain(template!(Dec AX)),
    OpcodeEntry::Plain(template!(Dec CX)),
    OpcodeEntry::Plain(template!(Dec DX)),
    OpcodeEntry::Plain(template!(Dec BX)),
    OpcodeEntry::Plain(template!(Dec SP)),
    OpcodeEntry::Plain(template!(Dec BP)),
    OpcodeEntry::Plain(template!(Dec SI)),
    OpcodeEntry::Plain(template!(Dec DI)),
    // 50
    OpcodeEntry::Plain(template!(Push AX)),
    OpcodeEntry::Plain(template!(Push CX)),
    OpcodeEntry::Plain(template!(Push DX)),
    OpcodeEntry::Plain(template!(Push BX)),
    OpcodeEntry::Plain(template!(Push SP)),
    OpcodeEntry::Plain(template!(Push BP)),
    OpcodeEntry::Plain(template!(Push SI)),
    OpcodeEntry::Plain(template!(Push DI)),
    OpcodeEntry::Plain(template!(Pop AX)),
    OpcodeEntry::Plain(template!(Pop CX)),
    OpcodeEntry::Plain(template!(Pop DX)),
    OpcodeEntry::Plain(template!(Pop BX)),
    OpcodeEntry::Plain(template!(Pop SP)),
    OpcodeEntry::Plain(template!(Pop BP)),
    OpcodeEntry::Plain(template!(Pop SI)),
    OpcodeEntry::Plain(template!(Pop DI)),
    // 60
    OpcodeEntry::Unlisted,
    OpcodeEntry::Unlisted,
    OpcodeEntry::Unlisted,
    OpcodeEntry::Unlisted,
    OpcodeEntry::Unlisted,
    OpcodeEntry::Unlisted,
    OpcodeEntry::Unlisted,
    OpcodeEntry::Unlisted,
    OpcodeEntry::Unlisted,
    OpcodeEntry::Unlisted,
    OpcodeEntry::Unlisted,
    OpcodeEntry::Unlisted,
    OpcodeEntry::Unlisted,
    OpcodeEntry::Unlisted,
    OpcodeEntry::Unlisted,
    OpcodeEntry::Unlisted,
    // 70
    OpcodeEntry::Plain(template!(Jo Db)),
    OpcodeEntry::Plain(template!(Jno Db)),
    OpcodeEntry::Plain(template!(Jb Db)),
    OpcodeEntry::Plain(template!(Jae Db)),
    OpcodeEntry::Plain(template!(Jz Db)),
    OpcodeEntry::Plain(template!(Jnz Db)),
    OpcodeEntry::Plain(template!(Jbe Db)),
    OpcodeEntry::Plain(template!(Ja Db)),
    OpcodeEntry::Plain(template!(Js Db)),
    OpcodeEntry::Plain(template!(Jns Db)),
    OpcodeEntry::Plain(template!(Jp Db)),
    OpcodeEntry::Plain(template!(Jnp Db)),
    OpcodeEntry::Plain(template!(Jl Db)),
    OpcodeEntry::Plain(template!(Jge Db)),
    OpcodeEntry::Plain(template!(Jle Db)),
    OpcodeEntry::Plain(template!(Jg Db)),
    // 80
    OpcodeEntry::Group(0),
    OpcodeEntry::Group(1),
    OpcodeEntry::Group(2),
    OpcodeEntry::Group(3),
    OpcodeEntry::Plain(template!(Test Eb, Gb)),
    OpcodeEntry::Plain(template!(Test Ew, Gw)),
    OpcodeEntry::Plain(template!(Xchg Eb, Gb)),
    OpcodeEntry::Plain(template!(Xchg Ew, Gw)),
    OpcodeEntry::Plain(template!(Mov Eb, Gb)),
    OpcodeEntry::Plain(template!(Mov Ew, Gw)),
    OpcodeEntry::Plain(template!(Mov Gb, Eb)),
    OpcodeEntry::Plain(template!(Mov Gw, Ew)),
    OpcodeEntry::Group(4),
    OpcodeEntry::Plain(template!(Lea Gw, M)),
    OpcodeEntry::Group(5),
    OpcodeEntry::Group(6),
    // 90
    OpcodeEntry::Plain(template!(Xchg AX, AX)),
    OpcodeEntry::Plain(template!(Xchg AX, CX)),
    OpcodeEntry::Plain(template!(Xchg AX, DX)),
    OpcodeEntry::Plain(template!(Xchg AX, BX)),
    OpcodeEntry::Plain(template!(Xchg AX, SP)),
    OpcodeEntry::Plain(template!(Xchg AX, BP)),
    OpcodeEntry::Plain(template!(Xchg AX, SI)),
    OpcodeEntry::Plain(template!(Xchg AX, DI)),
    OpcodeEntry::Plain(template!(Cbw)),
    OpcodeEntry::Plain(template!(Cwd)),
    OpcodeEntry::Plain(template!(CallFar Ap)),
    OpcodeEntry::Plain(template!(Wait)),
    OpcodeEntry::Plain(template!(Pushf)),
    OpcodeEntry::Plain(template!(Popf)),
    OpcodeEntry::Plain(template!(Sahf)),
    OpcodeEntry::Plain(template!(Lahf)),
    // A0
    OpcodeEntry::Plain(template!(Mov AL, Ob)),
    OpcodeEntry::Plain(template!(Mov AX, Ow)),
    OpcodeEntry::Plain(template!(Mov Ob, AL)),
    OpcodeEntry::Plain(template!(Mov Ow, AX)),
    OpcodeEntry::Plain(template!(Movsb)),
    OpcodeEntry::Plain(template!(Movsw)),
    OpcodeEntry::Plain(template!(Cmpsb)),
    OpcodeEntry::Plain(template!(Cmpsw)),
    OpcodeEntry::Plain(template!(Test AL, Ib)),
    OpcodeEntry::Plain(template!(Test AX, Iw)),
    OpcodeEntry::Plain(template!(Stosb)),
    OpcodeEntry::Plain(template!(Stosw)),
    OpcodeEntry::Plain(template!(Lodsb)),
    OpcodeEntry::Plain(template!(Lodsw)),
    OpcodeEntry::Plain(template!(Scasb)),
    OpcodeEntry::Plain(template!(Scasw)),
    // B0
    OpcodeEntry::Plain(template!(Mov AL, Ib)),
    OpcodeEntry::Plain(template!(Mov CL, Ib)),
    OpcodeEntry::Plain(template!(Mov DL, Ib)),
    OpcodeEntry::Plain(template!(Mov BL, Ib)),
    OpcodeEntry::Plain(template!(Mov AH, Ib)),
    OpcodeEntry::Plain(template!(Mov CH, Ib)),
    OpcodeEntry::Plain(template!(Mov DH, Ib)),
    OpcodeEntry::Plain(template!(Mov BH, Ib)),
    OpcodeEntry::Plain(template!(Mov AX, Iw)),
    OpcodeEntry::Plain(template!(Mov CX, Iw)),
    OpcodeEntry::Plain(template!(Mov DX, Iw)),
    OpcodeEntry::Plain(template!(Mov BX, Iw)),
    OpcodeEntry::Plain(template!(Mov SP, Iw)),
    OpcodeEntry::Plain(template!(Mov BP, Iw)),
    OpcodeEntry::Plain(template!(Mov SI, Iw)),
    OpcodeEntry::Plain(template!(Mov DI, Iw)),
    // C0
    OpcodeEntry::Unlisted,
    OpcodeEntry::Unlisted,
    OpcodeEntry::Plain(template!(Ret Iw)),
    OpcodeEntry::Plain(template!(Ret)),
    OpcodeEntry::Plain(template!(Les Gw, M)),
    OpcodeEntry::Plain(template!(Lds Gw, M)),
    OpcodeEntry::Group(7),
    OpcodeEntry::Group(8),
    OpcodeEntry::Unlisted,
    OpcodeEntry::Unlisted,
    OpcodeEntry::Plain(template!(Retf Iw)),
    OpcodeEntry::Plain(template!(Retf)),
    OpcodeEntry::Plain(template!(Int3)),
    OpcodeEntry::Plain(template!(Int Ib)),
    OpcodeEntry::Plain(template!(Into)),
    OpcodeEntry::Plain(template!(Iret)),
    // D0
    OpcodeEntry::Group(9),
    OpcodeEntry::Group(10),
    OpcodeEntry::Group(11),
    OpcodeEntry::Group(12),
    OpcodeEntry::Second(0x0A, template!(Aam)),
    OpcodeEntry::Second(0x0A, template!(Aad)),
    OpcodeEntry::Unlisted,
    OpcodeEntry::Plain(template!(Xlat)),
    OpcodeEntry::Plain(template!(Esc 0)),
    OpcodeEntry::Plain(template!(Esc 1)),
    OpcodeEntry::Plain(template!(Esc 2)),
    OpcodeEntry::Plain(template!(Esc 3)),
    OpcodeEntry::Plain(template!(Esc 4)),
    OpcodeEntry::Plain(template!(Esc 5)),
    OpcodeEntry::Plain(template!(Esc 6)),
    OpcodeEntry::Plain(template!(Esc 7)),
    // E0
    OpcodeEntry::Plain(template!(Loopne Db)),
    OpcodeEntry::Plain(template!(Loope Db)),
    OpcodeEntry::Plain(template!(Loop Db)),
    OpcodeEntry::Plain(template!(Jcxz Db)),
    OpcodeEntry::Plain(template!(Input AL, Ib)),
    OpcodeEntry::Plain(template!(Input AX, Ib)),
    OpcodeEntry::Plain(template!(Output Ib, AL)),
    OpcodeEntry::Plain(template!(Output Ib, AX)),
    OpcodeEntry::Plain(template!(Call Dw)),
    OpcodeEntry::Plain(template!(Jmp Dw)),
    OpcodeEntry::Plain(template!(JmpFar Ap)),
    OpcodeEntry::Plain(template!(JmpShort Db)),
    OpcodeEntry::Plain(template!(Input AL, DX)),
    OpcodeEntry::Plain(template!(Input AX, DX)),
    OpcodeEntry::Plain(template!(Output DX, AL)),
    OpcodeEntry::Plain(template!(Output DX, AX)),
    // F0
    OpcodeEntry::Unlisted,
    OpcodeEntry::Unlisted,
    OpcodeEntry::Unlisted,
    OpcodeEntry::Unlisted,
    OpcodeEntry::Plain(template!(Hlt)),
    OpcodeEntry::Plain(template!(Cmc)),
    OpcodeEntry::Group(13),
    OpcodeEntry::Group(14),
    OpcodeEntry::Plain(template!(Clc)),
    OpcodeEntry::Plain(template!(Stc)),
    OpcodeEntry::Plain(template!(Cli)),
    OpcodeEntry::Plain(template!(Sti)),
    OpcodeEntry::Plain(template!(Cld)),
    OpcodeEntry::Plain(template!(Std)),
    OpcodeEntry::Group(15),
    OpcodeEntry::Group(16),
];

/// For each group, in the order of the first bytes, the template for each value of the reg field, None where there is
/// none.
pub static GROUPS: [[Option<Template>; 8]; 17] = [
    // 80
    [
        Some(template!(Add Eb, Ib)),
        Some(template!(Or Eb, Ib)),
        Some(template!(Adc Eb, Ib)),
        Some(template!(Sbb Eb, Ib)),
        Some(template!(And Eb, Ib)),
        Some(template!(Sub Eb, Ib)),
        Some(template!(Xor Eb, Ib)),
        Some(template!(Cmp Eb, Ib)),
    ],
    // 81
    [
        Some(template!(Add Ew, Iw)),
        Some(template!(Or Ew, Iw)),
        Some(template!(Adc Ew, Iw)),
        Some(template!(Sbb Ew, Iw)),
        Some(template!(And Ew, Iw)),
        Some(template!(Sub Ew, Iw)),
        Some(template!(Xor Ew, Iw)),
        Some(template!(Cmp Ew, Iw)),
    ],
    // 82
    [
        Some(template!(Add Eb, Ib)),
        Some(template!(Or Eb, Ib)),
        Some(template!(Adc Eb, Ib)),
        Some(template!(Sbb Eb, Ib)),
        Some(template!(And Eb, Ib)),
        Some(template!(Sub Eb, Ib)),
        Some(template!(Xor Eb, Ib)),
        Some(template!(Cmp Eb, Ib)),
    ],
    // 83
    [
        Some(template!(Add Ew, Is)),
        Some(template!(Or Ew, Is)),
        Some(template!(Adc Ew, Is)),
        Some(template!(Sbb Ew, Is)),
        Some(template!(And Ew, Is)),
        Some(template!(Sub Ew, Is)),
        Some(template!(Xor Ew, Is)),
        Some(template!(Cmp Ew, Is)),
    ],
    // 8C
    [
        Some(template!(Mov Ew, ES)),
        Some(template!(Mov Ew, CS)),
        Some(template!(Mov Ew, SS)),
        Some(template!(Mov Ew, DS)),
        None,
        None,
        None,
        None,
    ],
    // 8E
    [
        Some(template!(Mov ES, Ew)),
        None, // CS is no destination of MOV.
        Some(template!(Mov SS, Ew)),
        Some(template!(Mov DS, Ew)),
        None,
        None,
        None,
        None,
    ],
    // 8F
    [
        Some(template!(Pop Ew)),
        None,
        None,
        None,
        None,
        None,
        None,
        None,
    ],
    // C6
    [
        Some(template!(Mov Eb, Ib)),
        None,
        None,
        None,
        None,
        None,
        None,
        None,
    ],
    // C7
    [
        Some(template!(Mov Ew, Iw)),
        None,
        None,
        None,
        None,
        None,
        None,
        None,
    ],
    // D0
    [
        Some(template!(Rol Eb, one)),
        Some(template!(Ror Eb, one)),
        Some(template!(Rcl Eb, one)),
        Some(template!(Rcr Eb, one)),
        Some(template!(Shl Eb, one)),
        Some(template!(Shr Eb, one)),
        None,
        Some(template!(Sar Eb, one)),
    ],
    // D1
    [
        Some(template!(Rol Ew, one)),
        Some(template!(Ror Ew, one)),
        Some(template!(Rcl Ew, one)),
        Some(template!(Rcr Ew, one)),
        Some(template!(Shl Ew, one)),
        Some(template!(Shr Ew, one)),
        None,
        Some(template!(Sar Ew, one)),
    ],
    // D2
    [
        Some(template!(Rol Eb, CL)),
        Some(template!(Ror Eb, CL)),
        Some(template!(Rcl Eb, CL)),
        Some(template!(Rcr Eb, CL)),
        Some(template!(Shl Eb, CL)),
        Some(template!(Shr Eb, CL)),
        None,
        Some(template!(Sar Eb, CL)),
    ],
    // D3
    [
        Some(template!(Rol Ew, CL)),
        Some(template!(Ror Ew, CL)),
        Some(template!(Rcl Ew, CL)),
        Some(template!(Rcr Ew, CL)),
        Some(template!(Shl Ew, CL)),
        Some(template!(Shr Ew, CL)),
        None,
        Some(template!(Sar Ew, CL)),
    ],
    // F6
    [
        Some(template!(Test Eb, Ib)),
        None,
        Some(template!(Not Eb)),
        Some(template!(Neg Eb)),
        Some(template!(Mul Eb)),
        Some(template!(Imul Eb)),
        Some(template!(Div Eb)),
        Some(template!(Idiv Eb)),
    ],
    // F7
    [
        Some(template!(Test Ew, Iw)),
        None,
        Some(template!(Not Ew)),
        Some(template!(Neg Ew)),
        Some(template!(Mul Ew)),
        Some(template!(Imul Ew)),
        Some(template!(Div Ew)),
        Some(template!(Idiv Ew)),
    ],
    // FE
    [
        Some(template!(Inc Eb)),
        Some(template!(Dec Eb)),
        None,
        None,
        None,
        None,
        None,
        None,
    ],
    // FF
    [
        Some(template!(Inc Ew)),
        Some(template!(Dec Ew)),
        Some(template!(Call Ew)),
        Some(template!(CallFar M)),
        Some(template!(Jmp Ew)),
        Some(template!(JmpFar M)),
        Some(template!(Push Ew)),
        None,
    ],
];

/// The entry of a first byte; `Unlisted` if it is a prefix or begins no instruction.
pub fn entry_at(opcode: u8) -> OpcodeEntry
    ensures entry { result ≡ entry_of opcode }
    ensures group { IfGroup result (λ g. g < 17) }
{
    ENTRIES[opcode as usize]
}

/// The template that the reg field chooses in the group, None if it has none there.
pub fn member(group: u8, register: u8) -> Option<Template>
    requires group { group < 17 }
    requires register { register < 8 }
    ensures { result ≡ member_of group register }
{
    GROUPS[group as usize][register as usize]
}
