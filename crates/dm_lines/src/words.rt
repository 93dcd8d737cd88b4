//! The reserved words, which no label may be: the names of registers and mnemonics, other names of mnemonics,
//! prefixes, and the words of the assembler (Intel 8086 Family User's Manual, section 2.7, with the other names of
//! the conditional jumps in table 2-15, and section 2.9).

ghost use Rattle.std.specs.Prelude.{◌≡◌, ◌<◌, length};
ghost use Rattle.dm_decode.specs.Names.{named};
ghost use Rattle.dm_lines.specs.Words.{reserved};
ghost use Rattle.dm_lines.specs.inner.Words.{all_words, those, alias_name, keyword_name, spelling_of, alias_mnemonic, keyword_token, meaning_of};
ghost use Rattle.dm_lines.specs.inner.Words.{begins};

use crate::token::Token;
use dm_decode::words::Size;
use dm_decode::{byte_register_name, mnemonic_name, segment_register_name, word_register_name};
use dm_ins::{ByteRegister, Mnemonic, Repeat, SegmentRegister, WordRegister};

/// Another name of a mnemonic, as JC for JB.
#[derive(Clone, Copy, Debug, PartialEq, Eq)]
pub enum Alias {
    Jc,
    Jnae,
    Jnc,
    Jnb,
    Je,
    Jne,
    Jna,
    Jnbe,
    Jpe,
    Jpo,
    Jnge,
    Jnl,
    Jng,
    Jnle,
    Loopz,
    Loopnz,
    Sal,
}

/// A reserved word that names neither a register nor a mnemonic of the instruction table: NOP, prefixes, sizes, and
/// the words before data.
#[derive(Clone, Copy, Debug, PartialEq, Eq)]
pub enum Keyword {
    Nop,
    Lock,
    Rep,
    Repe,
    Repz,
    Repne,
    Repnz,
    Far,
    Short,
    Byte,
    Word,
    Near,
    Db,
    Dw,
}

/// A reserved word, which no label may be.
#[derive(Clone, Copy, Debug, PartialEq, Eq)]
pub enum Reserved {
    Byte(ByteRegister),
    Word(WordRegister),
    Segment(SegmentRegister),
    Mnemonic(Mnemonic),
    Alias(Alias),
    Keyword(Keyword),
}

/// The spelling of another name of a mnemonic, in upper case.
fn alias_spelling(alias: Alias) -> &'static [u8]
    ensures { result.now ≡ alias_name alias }
{
    match alias {
        Alias::Jc => b"JC",
        Alias::Jnae => b"JNAE",
        Alias::Jnc => b"JNC",
        Alias::Jnb => b"JNB",
        Alias::Je => b"JE",
        Alias::Jne => b"JNE",
        Alias::Jna => b"JNA",
        Alias::Jnbe => b"JNBE",
        Alias::Jpe => b"JPE",
        Alias::Jpo => b"JPO",
        Alias::Jnge => b"JNGE",
        Alias::Jnl => b"JNL",
        Alias::Jng => b"JNG",
        Alias::Jnle => b"JNLE",
        Alias::Loopz => b"LOOPZ",
        Alias::Loopnz => b"LOOPNZ",
        Alias::Sal => b"SAL",
    }
}

/// The spelling of a keyword, in upper case.
fn keyword_spelling(keyword: Keyword) -> &'static [u8]
    ensures { result.now ≡ keyword_name keyword }
{
    match keyword {
        Keyword::Nop => b"NOP",
        Keyword::Lock => b"LOCK",
        Keyword::Rep => b"REP",
        Keyword::Repe => b"REPE",
        Keyword::Repz => b"REPZ",
        Keyword::Repne => b"REPNE",
        Keyword::Repnz => b"REPNZ",
        Keyword::Far => b"FAR",
        Keyword::Short => b"SHORT",
        Keyword::Byte => b"BYTE",
        Keyword::Word => b"WORD",
        Keyword::Near => b"NEAR",
        Keyword::Db => b"DB",
        Keyword::Dw => b"DW",
    }
}

/// The spelling of a reserved word, in upper case.
fn spelling(reserved: Reserved) -> &'static [u8]
    ensures { result.now ≡ spelling_of reserved }
{
    match reserved {
        Reserved::Byte(register) => byte_register_name(register),
        Reserved::Word(register) => word_register_name(register),
        Reserved::Segment(register) => segment_register_name(register),
        Reserved::Mnemonic(mnemonic) => mnemonic_name(mnemonic),
        Reserved::Alias(alias) => alias_spelling(alias),
        Reserved::Keyword(keyword) => keyword_spelling(keyword),
    }
}

/// The mnemonic of which this is another name.
fn mnemonic_of(alias: Alias) -> Mnemonic
    ensures { result ≡ alias_mnemonic alias }
{
    match alias {
        Alias::Jc => Mnemonic::Jb,
        Alias::Jnae => Mnemonic::Jb,
        Alias::Jnc => Mnemonic::Jae,
        Alias::Jnb => Mnemonic::Jae,
        Alias::Je => Mnemonic::Jz,
        Alias::Jne => Mnemonic::Jnz,
        Alias::Jna => Mnemonic::Jbe,
        Alias::Jnbe => Mnemonic::Ja,
        Alias::Jpe => Mnemonic::Jp,
        Alias::Jpo => Mnemonic::Jnp,
        Alias::Jnge => Mnemonic::Jl,
        Alias::Jnl => Mnemonic::Jge,
        Alias::Jng => Mnemonic::Jle,
        Alias::Jnle => Mnemonic::Jg,
        Alias::Loopz => Mnemonic::Loope,
        Alias::Loopnz => Mnemonic::Loopne,
        Alias::Sal => Mnemonic::Shl,
    }
}

/// The token of a keyword.
fn token_of(keyword: Keyword) -> Token
    ensures { result ≡ keyword_token keyword }
{
    match keyword {
        Keyword::Nop => Token::Nop,
        Keyword::Lock => Token::Lock,
        Keyword::Rep => Token::Repeat(Repeat::Equal),
        Keyword::Repe => Token::Repeat(Repeat::Equal),
        Keyword::Repz => Token::Repeat(Repeat::Equal),
        Keyword::Repne => Token::Repeat(Repeat::NotEqual),
        Keyword::Repnz => Token::Repeat(Repeat::NotEqual),
        Keyword::Far => Token::Far,
        Keyword::Short => Token::Short,
        Keyword::Byte => Token::Size(Size::Byte),
        Keyword::Word => Token::Size(Size::Word),
        Keyword::Near => Token::Size(Size::Near),
        Keyword::Db => Token::DataBytes,
        Keyword::Dw => Token::DataWords,
    }
}

/// The token of a reserved word; another name of a mnemonic has the token of that mnemonic.
fn meaning(reserved: Reserved) -> Token
    ensures { result ≡ meaning_of reserved }
{
    match reserved {
        Reserved::Byte(register) => Token::Byte(register),
        Reserved::Word(register) => Token::Word(register),
        Reserved::Segment(register) => Token::Segment(register),
        Reserved::Mnemonic(mnemonic) => Token::Mnemonic(mnemonic),
        Reserved::Alias(alias) => Token::Mnemonic(mnemonic_of(alias)),
        Reserved::Keyword(keyword) => token_of(keyword),
    }
}

/// The reserved words that begin with a byte, in the order of `all_words`. CALL FAR, JMP FAR and JMP SHORT are not
/// among them: they are two words each.
fn beginning(first: u8) -> &'static [Reserved]
    ensures { result.now ≡ those (begins first) all_words }
{
    match first {
        b'A' => &[
            Reserved::Byte(ByteRegister::Al),
            Reserved::Byte(ByteRegister::Ah),
            Reserved::Word(WordRegister::Ax),
            Reserved::Mnemonic(Mnemonic::Add),
            Reserved::Mnemonic(Mnemonic::Adc),
            Reserved::Mnemonic(Mnemonic::And),
            Reserved::Mnemonic(Mnemonic::Aaa),
            Reserved::Mnemonic(Mnemonic::Aad),
            Reserved::Mnemonic(Mnemonic::Aam),
            Reserved::Mnemonic(Mnemonic::Aas),
        ],
        b'B' => &[
            Reserved::Byte(ByteRegister::Bl),
            Reserved::Byte(ByteRegister::Bh),
            Reserved::Word(WordRegister::Bx),
            Reserved::Word(WordRegister::Bp),
            Reserved::Keyword(Keyword::Byte),
        ],
        b'C' => &[
            Reserved::Byte(ByteRegister::Cl),
            Reserved::Byte(ByteRegister::Ch),
            Reserved::Word(WordRegister::Cx),
            Reserved::Segment(SegmentRegister::Cs),
            Reserved::Mnemonic(Mnemonic::Cmp),
            Reserved::Mnemonic(Mnemonic::Cmpsb),
            Reserved::Mnemonic(Mnemonic::Cmpsw),
            Reserved::Mnemonic(Mnemonic::Call),
            Reserved::Mnemonic(Mnemonic::Cbw),
            Reserved::Mnemonic(Mnemonic::Clc),
            Reserved::Mnemonic(Mnemonic::Cld),
            Reserved::Mnemonic(Mnemonic::Cli),
            Reserved::Mnemonic(Mnemonic::Cmc),
            Reserved::Mnemonic(Mnemonic::Cwd),
        ],
        b'D' => &[
            Reserved::Byte(ByteRegister::Dl),
            Reserved::Byte(ByteRegister::Dh),
            Reserved::Word(WordRegister::Dx),
            Reserved::Word(WordRegister::Di),
            Reserved::Segment(SegmentRegister::Ds),
            Reserved::Mnemonic(Mnemonic::Daa),
            Reserved::Mnemonic(Mnemonic::Das),
            Reserved::Mnemonic(Mnemonic::Dec),
            Reserved::Mnemonic(Mnemonic::Div),
            Reserved::Keyword(Keyword::Db),
            Reserved::Keyword(Keyword::Dw),
        ],
        b'E' => &[
            Reserved::Segment(SegmentRegister::Es),
            Reserved::Mnemonic(Mnemonic::Esc),
        ],
        b'F' => &[Reserved::Keyword(Keyword::Far)],
        b'H' => &[Reserved::Mnemonic(Mnemonic::Hlt)],
        b'I' => &[
            Reserved::Mnemonic(Mnemonic::Idiv),
            Reserved::Mnemonic(Mnemonic::Imul),
            Reserved::Mnemonic(Mnemonic::Input),
            Reserved::Mnemonic(Mnemonic::Inc),
            Reserved::Mnemonic(Mnemonic::Int),
            Reserved::Mnemonic(Mnemonic::Int3),
            Reserved::Mnemonic(Mnemonic::Into),
            Reserved::Mnemonic(Mnemonic::Iret),
        ],
        b'J' => &[
            Reserved::Mnemonic(Mnemonic::Jo),
            Reserved::Mnemonic(Mnemonic::Jno),
            Reserved::Mnemonic(Mnemonic::Jb),
            Reserved::Mnemonic(Mnemonic::Jae),
            Reserved::Mnemonic(Mnemonic::Jz),
            Reserved::Mnemonic(Mnemonic::Jnz),
            Reserved::Mnemonic(Mnemonic::Jbe),
            Reserved::Mnemonic(Mnemonic::Ja),
            Reserved::Mnemonic(Mnemonic::Js),
            Reserved::Mnemonic(Mnemonic::Jns),
            Reserved::Mnemonic(Mnemonic::Jp),
            Reserved::Mnemonic(Mnemonic::Jnp),
            Reserved::Mnemonic(Mnemonic::Jl),
            Reserved::Mnemonic(Mnemonic::Jge),
            Reserved::Mnemonic(Mnemonic::Jle),
            Reserved::Mnemonic(Mnemonic::Jg),
            Reserved::Mnemonic(Mnemonic::Jcxz),
            Reserved::Mnemonic(Mnemonic::Jmp),
            Reserved::Alias(Alias::Jc),
            Reserved::Alias(Alias::Jnae),
            Reserved::Alias(Alias::Jnc),
            Reserved::Alias(Alias::Jnb),
            Reserved::Alias(Alias::Je),
            Reserved::Alias(Alias::Jne),
            Reserved::Alias(Alias::Jna),
            Reserved::Alias(Alias::Jnbe),
            Reserved::Alias(Alias::Jpe),
            Reserved::Alias(Alias::Jpo),
            Reserved::Alias(Alias::Jnge),
            Reserved::Alias(Alias::Jnl),
            Reserved::Alias(Alias::Jng),
            Reserved::Alias(Alias::Jnle),
        ],
        b'L' => &[
            Reserved::Mnemonic(Mnemonic::Lodsb),
            Reserved::Mnemonic(Mnemonic::Lodsw),
            Reserved::Mnemonic(Mnemonic::Lahf),
            Reserved::Mnemonic(Mnemonic::Lds),
            Reserved::Mnemonic(Mnemonic::Lea),
            Reserved::Mnemonic(Mnemonic::Les),
            Reserved::Mnemonic(Mnemonic::Loop),
            Reserved::Mnemonic(Mnemonic::Loope),
            Reserved::Mnemonic(Mnemonic::Loopne),
            Reserved::Alias(Alias::Loopz),
            Reserved::Alias(Alias::Loopnz),
            Reserved::Keyword(Keyword::Lock),
        ],
        b'M' => &[
            Reserved::Mnemonic(Mnemonic::Movsb),
            Reserved::Mnemonic(Mnemonic::Movsw),
            Reserved::Mnemonic(Mnemonic::Mov),
            Reserved::Mnemonic(Mnemonic::Mul),
        ],
        b'N' => &[
            Reserved::Mnemonic(Mnemonic::Neg),
            Reserved::Mnemonic(Mnemonic::Not),
            Reserved::Keyword(Keyword::Nop),
            Reserved::Keyword(Keyword::Near),
        ],
        b'O' => &[
            Reserved::Mnemonic(Mnemonic::Or),
            Reserved::Mnemonic(Mnemonic::Output),
        ],
        b'P' => &[
            Reserved::Mnemonic(Mnemonic::Pop),
            Reserved::Mnemonic(Mnemonic::Popf),
            Reserved::Mnemonic(Mnemonic::Push),
            Reserved::Mnemonic(Mnemonic::Pushf),
        ],
        b'R' => &[
            Reserved::Mnemonic(Mnemonic::Rol),
            Reserved::Mnemonic(Mnemonic::Ror),
            Reserved::Mnemonic(Mnemonic::Rcl),
            Reserved::Mnemonic(Mnemonic::Rcr),
            Reserved::Mnemonic(Mnemonic::Ret),
            Reserved::Mnemonic(Mnemonic::Retf),
            Reserved::Keyword(Keyword::Rep),
            Reserved::Keyword(Keyword::Repe),
            Reserved::Keyword(Keyword::Repz),
            Reserved::Keyword(Keyword::Repne),
            Reserved::Keyword(Keyword::Repnz),
        ],
        b'S' => &[
            Reserved::Word(WordRegister::Sp),
            Reserved::Word(WordRegister::Si),
            Reserved::Segment(SegmentRegister::Ss),
            Reserved::Mnemonic(Mnemonic::Sbb),
            Reserved::Mnemonic(Mnemonic::Sub),
            Reserved::Mnemonic(Mnemonic::Shl),
            Reserved::Mnemonic(Mnemonic::Shr),
            Reserved::Mnemonic(Mnemonic::Sar),
            Reserved::Mnemonic(Mnemonic::Stosb),
            Reserved::Mnemonic(Mnemonic::Stosw),
            Reserved::Mnemonic(Mnemonic::Scasb),
            Reserved::Mnemonic(Mnemonic::Scasw),
            Reserved::Mnemonic(Mnemonic::Sahf),
            Reserved::Mnemonic(Mnemonic::Stc),
            Reserved::Mnemonic(Mnemonic::Std),
            Reserved::Mnemonic(Mnemonic::Sti),
            Reserved::Alias(Alias::Sal),
            Reserved::Keyword(Keyword::Short),
        ],
        b'T' => &[Reserved::Mnemonic(Mnemonic::Test)],
        b'W' => &[
            Reserved::Mnemonic(Mnemonic::Wait),
            Reserved::Keyword(Keyword::Word),
        ],
        b'X' => &[
            Reserved::Mnemonic(Mnemonic::Xor),
            Reserved::Mnemonic(Mnemonic::Xchg),
            Reserved::Mnemonic(Mnemonic::Xlat),
        ],
        _ => &[],
    }
}

/// The first of these reserved words with this spelling; None if there is none.
fn find(word: &[u8], words: &[Reserved]) -> Option<Reserved>
    ensures { result ≡ named spelling_of words.now word.now }
{
    for reserved in words {
        if spelling(*reserved) == word {
            return Some(*reserved);
        }
    }
    None
}

/// The token of a word in upper case; None if it is not reserved.
#[tactic(auto, unfolding(crate::specs::Words::reserved))]
pub(crate) fn reserved_token(word: &[u8]) -> Option<Token>
    requires { 0 < length word.now }
    ensures { result ≡ reserved word.now }
{
    let found = find(word, beginning(word[0]))?;
    Some(meaning(found))
}
