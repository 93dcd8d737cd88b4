//! Instructions and their preferred bytes, from the manual.

use crate::operands::memory;
use dm_ins::{
    Action, Base, ByteRegister, Ins, Mnemonic, Operand, Prefixes, Repeat, SegmentRegister, Width,
    WordRegister, encode,
};
use std::process::Abort;

fn check(
    rt: &impl Abort,
    prefixes: Prefixes,
    mnemonic: Mnemonic,
    first: Operand,
    second: Operand,
    bytes: &[u8],
) {
    let action = Action {
        mnemonic,
        first,
        second,
    };
    let ins = Ins::new(prefixes, action).expect(rt, "no template has this action");
    assert_eq!(rt; encode(&ins).as_slice(), bytes);
}

/// Definitions: dm_ins Ins Spells
/// Definitions: dm_ins Spelling SpellsAction HasTemplate MaySpellFields has_fields uses_fields no_fields SpellsFields
/// Definitions: dm_ins Spelling SpellsMemory based direct word_bytes sign_extended
/// Definitions: dm_ins Order before; dm_ins Preferred IsPreferred
#[test]
fn encode_gives_the_shortest_and_least(rt: HostRuntime) {
    let al = Operand::ByteRegister(ByteRegister::Al);
    let ax = Operand::WordRegister(WordRegister::Ax);
    let bx = Operand::WordRegister(WordRegister::Bx);
    check(
        &rt,
        Prefixes::NONE,
        Mnemonic::Add,
        ax,
        Operand::WordValue(5),
        &[0x05, 0x05, 0x00],
    );
    check(
        &rt,
        Prefixes::NONE,
        Mnemonic::Add,
        bx,
        Operand::WordValue(5),
        &[0x83, 0xC3, 0x05],
    );
    check(
        &rt,
        Prefixes::NONE,
        Mnemonic::Add,
        bx,
        Operand::WordValue(0xFF80),
        &[0x83, 0xC3, 0x80],
    );
    check(
        &rt,
        Prefixes::NONE,
        Mnemonic::Add,
        bx,
        Operand::WordValue(0x80),
        &[0x81, 0xC3, 0x80, 0x00],
    );
    check(&rt, Prefixes::NONE, Mnemonic::Mov, ax, bx, &[0x89, 0xD8]);
    check(
        &rt,
        Prefixes::NONE,
        Mnemonic::Mov,
        al,
        memory(Width::Byte, Base::Direct, 5),
        &[0xA0, 0x05, 0x00],
    );
    check(
        &rt,
        Prefixes::NONE,
        Mnemonic::Mov,
        memory(Width::Byte, Base::OnBx, 0),
        Operand::ByteValue(5),
        &[0xC6, 0x07, 0x05],
    );
    check(
        &rt,
        Prefixes::NONE,
        Mnemonic::Mov,
        memory(Width::Word, Base::OnBp, 0),
        bx,
        &[0x89, 0x5E, 0x00],
    );
    check(
        &rt,
        Prefixes::NONE,
        Mnemonic::Mov,
        memory(Width::Word, Base::OnBx, 0xFF80),
        bx,
        &[0x89, 0x5F, 0x80],
    );
    check(
        &rt,
        Prefixes::NONE,
        Mnemonic::Mov,
        memory(Width::Word, Base::OnBx, 0x80),
        bx,
        &[0x89, 0x9F, 0x80, 0x00],
    );
    check(&rt, Prefixes::NONE, Mnemonic::Xchg, ax, bx, &[0x93]);
    check(&rt, Prefixes::NONE, Mnemonic::Xchg, bx, ax, &[0x87, 0xC3]);
    check(
        &rt,
        Prefixes::NONE,
        Mnemonic::Push,
        ax,
        Operand::Nothing,
        &[0x50],
    );
}

/// Definitions: dm_ins Spelling SpellsPrefixed kept with_prefix no_prefix prefix_byte segment_byte repeat_byte
#[test]
fn encode_puts_the_kept_prefixes_in_the_order_of_their_bytes(rt: HostRuntime) {
    let all = Prefixes {
        segment: Some(SegmentRegister::Es),
        lock: true,
        repeat: Some(Repeat::Equal),
    };
    check(
        &rt,
        all,
        Mnemonic::Movsb,
        Operand::Nothing,
        Operand::Nothing,
        &[0x26, 0xF0, 0xF3, 0xA4],
    );
}

/// Definitions: dm_ins Spelling SpellsAction HasTemplate MaySpellFields has_fields uses_fields no_fields
/// Definitions: dm_ins Table groups member_of
#[test]
fn actions_with_no_template_are_no_instructions(rt: HostRuntime) {
    let ax = Operand::WordRegister(WordRegister::Ax);
    for (mnemonic, first, second) in [
        (Mnemonic::CallFar, ax, Operand::Nothing),
        (Mnemonic::Lea, ax, ax),
        (
            Mnemonic::Mov,
            Operand::SegmentRegister(SegmentRegister::Cs),
            ax,
        ),
        (Mnemonic::Mov, ax, Operand::ByteValue(5)),
        (
            Mnemonic::Pop,
            Operand::SegmentRegister(SegmentRegister::Cs),
            Operand::Nothing,
        ),
        (Mnemonic::Esc, Operand::ByteValue(0x40), ax),
        (Mnemonic::JmpShort, Operand::Target(0x80), Operand::Nothing),
    ] {
        let action = Action {
            mnemonic,
            first,
            second,
        };
        assert_eq!(rt; Ins::new(Prefixes::NONE, action), None);
    }
}
