//! The names of mnemonics and registers (Intel 8086 Family User's Manual, section 2.7 and section 2.2).

ghost use Rattle.std.specs.Prelude.{◌≡◌, ◌≤◌, length};
ghost use Rattle.dm_decode.specs.Names.{name_of, byte_name, word_name, segment_name};

use dm_ins::{ByteRegister, Mnemonic, SegmentRegister, WordRegister};

/// The name of an 8-bit general register: two letters.
pub fn byte_register_name(register: ByteRegister) -> &'static [u8]
    ensures value { result.now ≡ byte_name register }
    ensures len { length result.now ≡ 2 }
{
    match register {
        ByteRegister::Al => b"AL",
        ByteRegister::Cl => b"CL",
        ByteRegister::Dl => b"DL",
        ByteRegister::Bl => b"BL",
        ByteRegister::Ah => b"AH",
        ByteRegister::Ch => b"CH",
        ByteRegister::Dh => b"DH",
        ByteRegister::Bh => b"BH",
    }
}

/// The name of a 16-bit general register: two letters.
pub fn word_register_name(register: WordRegister) -> &'static [u8]
    ensures value { result.now ≡ word_name register }
    ensures len { length result.now ≡ 2 }
{
    match register {
        WordRegister::Ax => b"AX",
        WordRegister::Cx => b"CX",
        WordRegister::Dx => b"DX",
        WordRegister::Bx => b"BX",
        WordRegister::Sp => b"SP",
        WordRegister::Bp => b"BP",
        WordRegister::Si => b"SI",
        WordRegister::Di => b"DI",
    }
}

/// The name of a segment register: two letters.
pub fn segment_register_name(register: SegmentRegister) -> &'static [u8]
    ensures value { result.now ≡ segment_name register }
    ensures len { length result.now ≡ 2 }
{
    match register {
        SegmentRegister::Es => b"ES",
        SegmentRegister::Cs => b"CS",
        SegmentRegister::Ss => b"SS",
        SegmentRegister::Ds => b"DS",
    }
}

/// The name of a mnemonic: one word, but two for far jumps and calls and for short jumps; at most nine bytes.
#[tactic(auto, unfolding(crate::specs::Names::name_of))]
pub fn mnemonic_name(mnemonic: Mnemonic) -> &'static [u8]
    ensures value { result.now ≡ name_of mnemonic }
    ensures within { length result.now ≤ 9 }
{
    match mnemonic {
        Mnemonic::Add => b"ADD",
        Mnemonic::Or => b"OR",
        Mnemonic::Adc => b"ADC",
        Mnemonic::Sbb => b"SBB",
        Mnemonic::And => b"AND",
        Mnemonic::Sub => b"SUB",
        Mnemonic::Xor => b"XOR",
        Mnemonic::Cmp => b"CMP",
        Mnemonic::Rol => b"ROL",
        Mnemonic::Ror => b"ROR",
        Mnemonic::Rcl => b"RCL",
        Mnemonic::Rcr => b"RCR",
        Mnemonic::Shl => b"SHL",
        Mnemonic::Shr => b"SHR",
        Mnemonic::Sar => b"SAR",
        Mnemonic::Jo => b"JO",
        Mnemonic::Jno => b"JNO",
        Mnemonic::Jb => b"JB",
        Mnemonic::Jae => b"JAE",
        Mnemonic::Jz => b"JZ",
        Mnemonic::Jnz => b"JNZ",
        Mnemonic::Jbe => b"JBE",
        Mnemonic::Ja => b"JA",
        Mnemonic::Js => b"JS",
        Mnemonic::Jns => b"JNS",
        Mnemonic::Jp => b"JP",
        Mnemonic::Jnp => b"JNP",
        Mnemonic::Jl => b"JL",
        Mnemonic::Jge => b"JGE",
        Mnemonic::Jle => b"JLE",
        Mnemonic::Jg => b"JG",
        Mnemonic::Movsb => b"MOVSB",
        Mnemonic::Movsw => b"MOVSW",
        Mnemonic::Cmpsb => b"CMPSB",
        Mnemonic::Cmpsw => b"CMPSW",
        Mnemonic::Stosb => b"STOSB",
        Mnemonic::Stosw => b"STOSW",
        Mnemonic::Lodsb => b"LODSB",
        Mnemonic::Lodsw => b"LODSW",
        Mnemonic::Scasb => b"SCASB",
        Mnemonic::Scasw => b"SCASW",
        Mnemonic::Aaa => b"AAA",
        Mnemonic::Aad => b"AAD",
        Mnemonic::Aam => b"AAM",
        Mnemonic::Aas => b"AAS",
        Mnemonic::Call => b"CALL",
        Mnemonic::CallFar => b"CALL FAR",
        Mnemonic::Cbw => b"CBW",
        Mnemonic::Clc => b"CLC",
        Mnemonic::Cld => b"CLD",
        Mnemonic::Cli => b"CLI",
        Mnemonic::Cmc => b"CMC",
        Mnemonic::Cwd => b"CWD",
        Mnemonic::Daa => b"DAA",
        Mnemonic::Das => b"DAS",
        Mnemonic::Dec => b"DEC",
        Mnemonic::Div => b"DIV",
        Mnemonic::Esc => b"ESC",
        Mnemonic::Hlt => b"HLT",
        Mnemonic::Idiv => b"IDIV",
        Mnemonic::Imul => b"IMUL",
        Mnemonic::Input => b"IN",
        Mnemonic::Inc => b"INC",
        Mnemonic::Int => b"INT",
        Mnemonic::Int3 => b"INT3",
        Mnemonic::Into => b"INTO",
        Mnemonic::Iret => b"IRET",
        Mnemonic::Jcxz => b"JCXZ",
        Mnemonic::Jmp => b"JMP",
        Mnemonic::JmpFar => b"JMP FAR",
        Mnemonic::JmpShort => b"JMP SHORT",
        Mnemonic::Lahf => b"LAHF",
        Mnemonic::Lds => b"LDS",
        Mnemonic::Lea => b"LEA",
        Mnemonic::Les => b"LES",
        Mnemonic::Loop => b"LOOP",
        Mnemonic::Loope => b"LOOPE",
        Mnemonic::Loopne => b"LOOPNE",
        Mnemonic::Mov => b"MOV",
        Mnemonic::Mul => b"MUL",
        Mnemonic::Neg => b"NEG",
        Mnemonic::Not => b"NOT",
        Mnemonic::Output => b"OUT",
        Mnemonic::Pop => b"POP",
        Mnemonic::Popf => b"POPF",
        Mnemonic::Push => b"PUSH",
        Mnemonic::Pushf => b"PUSHF",
        Mnemonic::Ret => b"RET",
        Mnemonic::Retf => b"RETF",
        Mnemonic::Sahf => b"SAHF",
        Mnemonic::Stc => b"STC",
        Mnemonic::Std => b"STD",
        Mnemonic::Sti => b"STI",
        Mnemonic::Test => b"TEST",
        Mnemonic::Wait => b"WAIT",
        Mnemonic::Xchg => b"XCHG",
        Mnemonic::Xlat => b"XLAT",
    }
}
