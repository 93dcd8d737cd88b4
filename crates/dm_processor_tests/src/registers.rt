//! Registers by name, and the return from interrupt 0 (Intel 8086 Family User's Manual, sections 2.2 and 2.7).

use crate::checks::same;
use crate::memory::new_space;
use crate::rows::START;
use dm_exec::{Cpu, exec, interrupt_return};
use dm_ins::{
    Action, ByteRegister, Ins, Mnemonic, Operand, Prefixes, SegmentRegister, WordRegister,
};
use std::test::Fail;

/// Definitions: dm_cpu Stack interrupt_return
#[test]
fn interrupt_0_returns_behind_the_division(rt: HostRuntime) -> Result<(), Fail> {
    let mut space = new_space(rt.alloc())?;
    let action = Action {
        mnemonic: Mnemonic::Idiv,
        first: Operand::ByteRegister(ByteRegister::Bl),
        second: Operand::Nothing,
    };
    let ins = Ins::new(Prefixes::NONE, action).ok_or("no such instruction")?;
    let before = Cpu {
        ax: 0xFF80,
        bx: 0x0001,
        ..START
    };
    let mut cpu = before;
    exec(&mut cpu, &mut space, &ins, 2);
    same(&rt, "CS, IP", (cpu.cs, cpu.ip), (0xF000, 0x0000));
    interrupt_return(&mut cpu, &space);
    same(
        &rt,
        "registers",
        cpu,
        Cpu {
            ip: 0x0102,
            ..before
        },
    );
    Ok(())
}

/// Definitions: dm_cpu Cpu word_of with_word byte_of with_byte segment_of with_segment with_low with_high
#[test]
fn registers_are_read_and_set_by_name(rt: HostRuntime) {
    let mut cpu = START;
    cpu.set_word(WordRegister::Bx, 0x1234);
    cpu.set_byte(ByteRegister::Bh, 0x56);
    cpu.set_segment(SegmentRegister::Es, 0x7000);
    same(&rt, "word", cpu.word(WordRegister::Bx), 0x5634);
    same(&rt, "byte", cpu.byte(ByteRegister::Bl), 0x34);
    same(&rt, "segment", cpu.segment(SegmentRegister::Es), 0x7000);
}
