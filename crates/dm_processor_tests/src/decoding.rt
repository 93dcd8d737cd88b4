//! Bytes and the instructions at their start, from the manual.

use crate::operands::memory;
use dm_decode::decode;
use dm_ins::{
    Action, Base, ByteRegister, Mnemonic, Operand, Prefixes, Repeat, SegmentRegister, Width,
    WordRegister, encode,
};
use std::process::Abort;

static ARITHMETIC: [Mnemonic; 8] = [
    Mnemonic::Add,
    Mnemonic::Or,
    Mnemonic::Adc,
    Mnemonic::Sbb,
    Mnemonic::And,
    Mnemonic::Sub,
    Mnemonic::Xor,
    Mnemonic::Cmp,
];

static CONDITIONS: [Mnemonic; 16] = [
    Mnemonic::Jo,
    Mnemonic::Jno,
    Mnemonic::Jb,
    Mnemonic::Jae,
    Mnemonic::Jz,
    Mnemonic::Jnz,
    Mnemonic::Jbe,
    Mnemonic::Ja,
    Mnemonic::Js,
    Mnemonic::Jns,
    Mnemonic::Jp,
    Mnemonic::Jnp,
    Mnemonic::Jl,
    Mnemonic::Jge,
    Mnemonic::Jle,
    Mnemonic::Jg,
];

static STRINGS: [Mnemonic; 12] = [
    Mnemonic::Movsb,
    Mnemonic::Movsw,
    Mnemonic::Cmpsb,
    Mnemonic::Cmpsw,
    Mnemonic::Test,
    Mnemonic::Test,
    Mnemonic::Stosb,
    Mnemonic::Stosw,
    Mnemonic::Lodsb,
    Mnemonic::Lodsw,
    Mnemonic::Scasb,
    Mnemonic::Scasw,
];

static SHIFTS: [Option<Mnemonic>; 8] = [
    Some(Mnemonic::Rol),
    Some(Mnemonic::Ror),
    Some(Mnemonic::Rcl),
    Some(Mnemonic::Rcr),
    Some(Mnemonic::Shl),
    Some(Mnemonic::Shr),
    None,
    Some(Mnemonic::Sar),
];

static UNARY: [Option<Mnemonic>; 8] = [
    Some(Mnemonic::Test),
    None,
    Some(Mnemonic::Not),
    Some(Mnemonic::Neg),
    Some(Mnemonic::Mul),
    Some(Mnemonic::Imul),
    Some(Mnemonic::Div),
    Some(Mnemonic::Idiv),
];

static LAST: [Option<Mnemonic>; 8] = [
    Some(Mnemonic::Inc),
    Some(Mnemonic::Dec),
    Some(Mnemonic::Call),
    Some(Mnemonic::CallFar),
    Some(Mnemonic::Jmp),
    Some(Mnemonic::JmpFar),
    Some(Mnemonic::Push),
    None,
];

/// What the manual lists for a first byte and a reg field: the mnemonic, the number of bytes
/// without the displacement, and whether there is a mod r/m byte.
type Listed = Option<(Mnemonic, u8, bool)>;

fn listed_below_80(first: u8) -> Listed {
    match first {
        0x06 | 0x0E | 0x16 | 0x1E => Some((Mnemonic::Push, 1, false)),
        0x07 | 0x17 | 0x1F => Some((Mnemonic::Pop, 1, false)),
        0x27 => Some((Mnemonic::Daa, 1, false)),
        0x2F => Some((Mnemonic::Das, 1, false)),
        0x37 => Some((Mnemonic::Aaa, 1, false)),
        0x3F => Some((Mnemonic::Aas, 1, false)),
        0x00..=0x3F => {
            let mnemonic = ARITHMETIC[(first / 8 % 8) as usize];
            match first % 8 {
                0..=3 => Some((mnemonic, 2, true)),
                4 => Some((mnemonic, 2, false)),
                5 => Some((mnemonic, 3, false)),
                _ => None,
            }
        }
        0x40..=0x47 => Some((Mnemonic::Inc, 1, false)),
        0x48..=0x4F => Some((Mnemonic::Dec, 1, false)),
        0x50..=0x57 => Some((Mnemonic::Push, 1, false)),
        0x58..=0x5F => Some((Mnemonic::Pop, 1, false)),
        0x70..=0x7F => Some((CONDITIONS[(first % 16) as usize], 2, false)),
        _ => None,
    }
}

fn listed_below_c0(first: u8, register: u8, is_memory: bool) -> Listed {
    match first {
        0x80 | 0x82 | 0x83 => Some((ARITHMETIC[(register % 8) as usize], 3, true)),
        0x81 => Some((ARITHMETIC[(register % 8) as usize], 4, true)),
        0x84 | 0x85 => Some((Mnemonic::Test, 2, true)),
        0x86 | 0x87 => Some((Mnemonic::Xchg, 2, true)),
        0x88..=0x8B => Some((Mnemonic::Mov, 2, true)),
        0x8C if register < 4 => Some((Mnemonic::Mov, 2, true)),
        0x8D if is_memory => Some((Mnemonic::Lea, 2, true)),
        0x8E if register == 0 || register == 2 || register == 3 => Some((Mnemonic::Mov, 2, true)),
        0x8F if register == 0 => Some((Mnemonic::Pop, 2, true)),
        0x90..=0x97 => Some((Mnemonic::Xchg, 1, false)),
        0x98 => Some((Mnemonic::Cbw, 1, false)),
        0x99 => Some((Mnemonic::Cwd, 1, false)),
        0x9A => Some((Mnemonic::CallFar, 5, false)),
        0x9B => Some((Mnemonic::Wait, 1, false)),
        0x9C => Some((Mnemonic::Pushf, 1, false)),
        0x9D => Some((Mnemonic::Popf, 1, false)),
        0x9E => Some((Mnemonic::Sahf, 1, false)),
        0x9F => Some((Mnemonic::Lahf, 1, false)),
        0xA0..=0xA3 => Some((Mnemonic::Mov, 3, false)),
        0xA8 => Some((Mnemonic::Test, 2, false)),
        0xA9 => Some((Mnemonic::Test, 3, false)),
        0xA4..=0xAF => Some((STRINGS[(first % 16 - 4) as usize], 1, false)),
        0xB0..=0xB7 => Some((Mnemonic::Mov, 2, false)),
        0xB8..=0xBF => Some((Mnemonic::Mov, 3, false)),
        _ => None,
    }
}

fn listed_below_e0(first: u8, register: u8, is_memory: bool, second: u8) -> Listed {
    match first {
        0xC2 => Some((Mnemonic::Ret, 3, false)),
        0xC3 => Some((Mnemonic::Ret, 1, false)),
        0xC4 if is_memory => Some((Mnemonic::Les, 2, true)),
        0xC5 if is_memory => Some((Mnemonic::Lds, 2, true)),
        0xC6 if register == 0 => Some((Mnemonic::Mov, 3, true)),
        0xC7 if register == 0 => Some((Mnemonic::Mov, 4, true)),
        0xCA => Some((Mnemonic::Retf, 3, false)),
        0xCB => Some((Mnemonic::Retf, 1, false)),
        0xCC => Some((Mnemonic::Int3, 1, false)),
        0xCD => Some((Mnemonic::Int, 2, false)),
        0xCE => Some((Mnemonic::Into, 1, false)),
        0xCF => Some((Mnemonic::Iret, 1, false)),
        0xD0..=0xD3 => Some((SHIFTS[(register % 8) as usize]?, 2, true)),
        0xD4 if second == 0x0A => Some((Mnemonic::Aam, 2, false)),
        0xD5 if second == 0x0A => Some((Mnemonic::Aad, 2, false)),
        0xD7 => Some((Mnemonic::Xlat, 1, false)),
        0xD8..=0xDF => Some((Mnemonic::Esc, 2, true)),
        _ => None,
    }
}

fn listed_from_e0(first: u8, register: u8, is_memory: bool) -> Listed {
    match first {
        0xE0 => Some((Mnemonic::Loopne, 2, false)),
        0xE1 => Some((Mnemonic::Loope, 2, false)),
        0xE2 => Some((Mnemonic::Loop, 2, false)),
        0xE3 => Some((Mnemonic::Jcxz, 2, false)),
        0xE4 | 0xE5 => Some((Mnemonic::Input, 2, false)),
        0xE6 | 0xE7 => Some((Mnemonic::Output, 2, false)),
        0xE8 => Some((Mnemonic::Call, 3, false)),
        0xE9 => Some((Mnemonic::Jmp, 3, false)),
        0xEA => Some((Mnemonic::JmpFar, 5, false)),
        0xEB => Some((Mnemonic::JmpShort, 2, false)),
        0xEC | 0xED => Some((Mnemonic::Input, 1, false)),
        0xEE | 0xEF => Some((Mnemonic::Output, 1, false)),
        0xF4 => Some((Mnemonic::Hlt, 1, false)),
        0xF5 => Some((Mnemonic::Cmc, 1, false)),
        0xF6 => Some((
            UNARY[(register % 8) as usize]?,
            if register == 0 { 3 } else { 2 },
            true,
        )),
        0xF7 => Some((
            UNARY[(register % 8) as usize]?,
            if register == 0 { 4 } else { 2 },
            true,
        )),
        0xF8 => Some((Mnemonic::Clc, 1, false)),
        0xF9 => Some((Mnemonic::Stc, 1, false)),
        0xFA => Some((Mnemonic::Cli, 1, false)),
        0xFB => Some((Mnemonic::Sti, 1, false)),
        0xFC => Some((Mnemonic::Cld, 1, false)),
        0xFD => Some((Mnemonic::Std, 1, false)),
        0xFE if register < 2 => Some((LAST[(register % 8) as usize]?, 2, true)),
        0xFF if is_memory || (register != 3 && register != 5) => Some((
            LAST[(register % 8) as usize]?,
            2,
            true,
        )),
        _ => None,
    }
}

/// The mnemonic and the length that the manual gives for two bytes, if they begin an instruction
/// without prefixes.
fn listed(first: u8, second: u8) -> Option<(Mnemonic, u8)> {
    let register = second / 8 % 8;
    let is_memory = second < 0xC0;
    let (mnemonic, length, has_fields) = match first {
        0x00..=0x7F => listed_below_80(first)?,
        0x80..=0xBF => listed_below_c0(first, register, is_memory)?,
        0xC0..=0xDF => listed_below_e0(first, register, is_memory, second)?,
        0xE0..=0xFF => listed_from_e0(first, register, is_memory)?,
    };
    let displacement = match second / 64 {
        0 if second % 8 == 6 => 2,
        1 => 1,
        2 => 2,
        _ => 0,
    };
    Some((
        mnemonic,
        if has_fields {
            length.wrapping_add(displacement)
        } else {
            length
        },
    ))
}

fn is_prefix(byte: u8) -> bool {
    matches!(byte, 0x26 | 0x2E | 0x36 | 0x3E | 0xF0 | 0xF2 | 0xF3)
}

/// Definitions: dm_ins Ins Spells
/// Definitions: dm_ins Table entries entry_of groups member_of template two_operands one_operand bare each_word pair
/// Definitions: dm_ins Table zeroth six arithmetics immediate shifts unary conditions
/// Definitions: dm_decode Decoded Decodes
#[test]
fn each_first_and_second_byte_is_listed_or_not(rt: HostRuntime) {
    for first in 0..=255u8 {
        for second in 0..=255u8 {
            let mut bytes = [0x11u8; 16];
            bytes[0] = first;
            bytes[1] = second;
            if !is_prefix(first) {
                let got = decode(&bytes).map(|(ins, length)| (ins.action.mnemonic, length));
                assert_eq!(rt; got, listed(first, second), "at {first:02X} {second:02X}");
            }
        }
    }
}

fn sixteen(text: &[u8]) -> [u8; 16] {
    let mut all = [0x90u8; 16];
    for (i, byte) in text.iter().enumerate() {
        if i < 16 {
            all[i] = *byte;
        }
    }
    all
}

fn check(
    rt: &impl Abort,
    text: &[u8],
    prefixes: Prefixes,
    mnemonic: Mnemonic,
    first: Operand,
    second: Operand,
) {
    let (ins, length) = decode(&sixteen(text)).expect(rt, "no instruction");
    let action = Action {
        mnemonic,
        first,
        second,
    };
    assert_eq!(rt; length as usize, text.len());
    assert_eq!(rt; ins.prefixes, prefixes);
    assert_eq!(rt; ins.action, action);
}

/// Definitions: dm_ins Spelling Fills register at_place
/// Definitions: dm_ins Table entries entry_of Eb Ew Gb Gw M Ib Iw Is Db Dw Ob Ow Ap One AL CL AX DX S
/// Definitions: dm_decode Decoded Decodes
#[test]
fn operands_stand_in_the_order_of_their_template(rt: HostRuntime) {
    let al = Operand::ByteRegister(ByteRegister::Al);
    let ah = Operand::ByteRegister(ByteRegister::Ah);
    let cl = Operand::ByteRegister(ByteRegister::Cl);
    let ax = Operand::WordRegister(WordRegister::Ax);
    let bx = Operand::WordRegister(WordRegister::Bx);
    let dx = Operand::WordRegister(WordRegister::Dx);
    let si = Operand::WordRegister(WordRegister::Si);
    let none = Operand::Nothing;
    check(&rt, &[0x00, 0xE1], Prefixes::NONE, Mnemonic::Add, cl, ah);
    check(&rt, &[0x2B, 0xC3], Prefixes::NONE, Mnemonic::Sub, ax, bx);
    check(
        &rt,
        &[0x3C, 0x80],
        Prefixes::NONE,
        Mnemonic::Cmp,
        al,
        Operand::ByteValue(0x80),
    );
    check(
        &rt,
        &[0x0E],
        Prefixes::NONE,
        Mnemonic::Push,
        Operand::SegmentRegister(SegmentRegister::Cs),
        none,
    );
    check(&rt, &[0x4E], Prefixes::NONE, Mnemonic::Dec, si, none);
    check(
        &rt,
        &[0x75, 0xFE],
        Prefixes::NONE,
        Mnemonic::Jnz,
        Operand::Target(0xFFFE),
        none,
    );
    check(
        &rt,
        &[0x83, 0xC3, 0x80],
        Prefixes::NONE,
        Mnemonic::Add,
        bx,
        Operand::WordValue(0xFF80),
    );
    check(&rt, &[0x86, 0xC4], Prefixes::NONE, Mnemonic::Xchg, ah, al);
    check(
        &rt,
        &[0x8C, 0xD8],
        Prefixes::NONE,
        Mnemonic::Mov,
        ax,
        Operand::SegmentRegister(SegmentRegister::Ds),
    );
    check(
        &rt,
        &[0x8E, 0xC3],
        Prefixes::NONE,
        Mnemonic::Mov,
        Operand::SegmentRegister(SegmentRegister::Es),
        bx,
    );
    check(&rt, &[0x93], Prefixes::NONE, Mnemonic::Xchg, ax, bx);
    check(
        &rt,
        &[0x9A, 0x34, 0x12, 0x78, 0x56],
        Prefixes::NONE,
        Mnemonic::CallFar,
        Operand::FarTarget(0x1234, 0x5678),
        none,
    );
    check(
        &rt,
        &[0xA3, 0x34, 0x12],
        Prefixes::NONE,
        Mnemonic::Mov,
        memory(Width::Word, Base::Direct, 0x1234),
        ax,
    );
    check(
        &rt,
        &[0xB4, 0x4C],
        Prefixes::NONE,
        Mnemonic::Mov,
        ah,
        Operand::ByteValue(0x4C),
    );
    check(
        &rt,
        &[0xC5, 0x37],
        Prefixes::NONE,
        Mnemonic::Lds,
        si,
        memory(Width::Word, Base::OnBx, 0),
    );
    check(
        &rt,
        &[0xCA, 0x04, 0x00],
        Prefixes::NONE,
        Mnemonic::Retf,
        Operand::WordValue(4),
        none,
    );
    check(
        &rt,
        &[0xD1, 0xE0],
        Prefixes::NONE,
        Mnemonic::Shl,
        ax,
        Operand::One,
    );
    check(
        &rt,
        &[0xD2, 0x28],
        Prefixes::NONE,
        Mnemonic::Shr,
        memory(Width::Byte, Base::BxSi, 0),
        cl,
    );
    check(
        &rt,
        &[0xDF, 0xFB],
        Prefixes::NONE,
        Mnemonic::Esc,
        Operand::ByteValue(0x3F),
        bx,
    );
    check(
        &rt,
        &[0xE5, 0x60],
        Prefixes::NONE,
        Mnemonic::Input,
        ax,
        Operand::ByteValue(0x60),
    );
    check(
        &rt,
        &[0xE8, 0x00, 0x80],
        Prefixes::NONE,
        Mnemonic::Call,
        Operand::Target(0x8000),
        none,
    );
    check(&rt, &[0xEE], Prefixes::NONE, Mnemonic::Output, dx, al);
    check(&rt, &[0xF7, 0xFB], Prefixes::NONE, Mnemonic::Idiv, bx, none);
    check(
        &rt,
        &[0xFF, 0x1F],
        Prefixes::NONE,
        Mnemonic::CallFar,
        memory(Width::Word, Base::OnBx, 0),
        none,
    );
}

/// Definitions: dm_ins Spelling SpellsFields SpellsMemory based direct
/// Definitions: dm_ins Registers word_registers byte_registers bases; dm_decode Decoded Decodes
#[test]
fn mod_and_rm_fields_name_the_address(rt: HostRuntime) {
    let cl = Operand::ByteRegister(ByteRegister::Cl);
    for (rm, base) in [
        (0u8, Base::BxSi),
        (1, Base::BxDi),
        (2, Base::BpSi),
        (3, Base::BpDi),
        (4, Base::OnSi),
        (5, Base::OnDi),
        (6, Base::OnBp),
        (7, Base::OnBx),
    ] {
        check(
            &rt,
            &[0x88, 0x48 + rm, 0x80],
            Prefixes::NONE,
            Mnemonic::Mov,
            memory(Width::Byte, base, 0xFF80),
            cl,
        );
        check(
            &rt,
            &[0x88, 0x88 + rm, 0x80, 0x00],
            Prefixes::NONE,
            Mnemonic::Mov,
            memory(Width::Byte, base, 0x80),
            cl,
        );
        if rm != 6 {
            check(
                &rt,
                &[0x88, 0x08 + rm],
                Prefixes::NONE,
                Mnemonic::Mov,
                memory(Width::Byte, base, 0),
                cl,
            );
        }
    }
    check(
        &rt,
        &[0x88, 0x0E, 0x34, 0x12],
        Prefixes::NONE,
        Mnemonic::Mov,
        memory(Width::Byte, Base::Direct, 0x1234),
        cl,
    );
}

/// Definitions: dm_ins Spelling SpellsPrefixed kept with_prefix no_prefix prefix_byte segment_byte repeat_byte
/// Definitions: dm_decode Decoded Decodes
#[test]
fn the_last_prefix_of_each_kind_is_kept(rt: HostRuntime) {
    let cs = Prefixes {
        segment: Some(SegmentRegister::Cs),
        lock: false,
        repeat: None,
    };
    let all = Prefixes {
        segment: Some(SegmentRegister::Ss),
        lock: true,
        repeat: Some(Repeat::Equal),
    };
    let none = Operand::Nothing;
    let al = Operand::ByteRegister(ByteRegister::Al);
    check(
        &rt,
        &[0x26, 0x2E, 0x8A, 0x07],
        cs,
        Mnemonic::Mov,
        al,
        memory(Width::Byte, Base::OnBx, 0),
    );
    check(
        &rt,
        &[0xF3, 0x36, 0xF0, 0xF3, 0xA4],
        all,
        Mnemonic::Movsb,
        none,
        none,
    );
    check(
        &rt,
        &[0x36, 0xF0, 0xF2, 0xF3, 0xA4],
        all,
        Mnemonic::Movsb,
        none,
        none,
    );
    assert_eq!(rt;
        decode(&sixteen(&[0x26, 0x26, 0x26, 0x26, 0x26, 0x90])),
        None
    );
    assert_eq!(rt; decode(&sixteen(&[0xFF, 0xD8])), None);
}

/// Definitions: dm_decode Decoded Decodes
#[test]
fn several_spellings_are_one_instruction(rt: HostRuntime) {
    let ax = Operand::WordRegister(WordRegister::Ax);
    for text in [
        &[0x05, 0x05, 0x00][..],
        &[0x83, 0xC0, 0x05][..],
        &[0x81, 0xC0, 0x05, 0x00][..],
    ] {
        check(
            &rt,
            text,
            Prefixes::NONE,
            Mnemonic::Add,
            ax,
            Operand::WordValue(5),
        );
        let (ins, _) = decode(&sixteen(text)).expect(&rt, "no instruction");
        assert_eq!(rt; encode(&ins).as_slice(), [0x05, 0x05, 0x00].as_slice());
    }
}
