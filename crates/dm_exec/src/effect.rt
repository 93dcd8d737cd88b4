//! The effect of one instruction on registers, flags and memory.
ghost use Rattle.std.specs.Prelude.{◌≡◌};
ghost use Rattle.dm_cpu.specs.Guest.{guest};
ghost use Rattle.dm_exec.specs.Effect.{operation_effect, effect, next_of};
ghost use Rattle.dm_exec.specs.Operation.{operation_of};

use crate::operation::{Operation, operation_of};
use crate::{control, jumps, moves, strings};
use dm_cpu::{Cpu, Registers};
use dm_ins::{Ins, Mnemonic};
use dm_operations::{adjustments, arithmetic, products, shifts, stack};
use dm_space::Space;

/// What the processor does after an instruction.
#[derive(Clone, Copy, Debug, PartialEq, Eq)]
pub enum Next {
    /// It goes on at CS:IP.
    Go,
    /// It waits for an interrupt that never comes: HLT, which changes nothing.
    Halt,
}

/// Does an instruction that begins at `start`, with IP past it already: changes registers, flags and memory as the
/// instruction says; HLT sets IP back to `start`. The function of the family is called as the last step, so that no
/// value need be kept over the call.
#[inline(never)]
fn perform(cpu: &mut Registers, space: &mut Space, ins: &Ins, start: u16)
    ensures { guest cpu.new space.new.memory ≡ operation_effect (guest cpu.old
        space.old.memory) ins.now.prefixes start (operation_of ins.now.action.mnemonic) ins.now.action.first
        ins.now.action.second }
{
    match operation_of(ins.action.mnemonic) {
        Operation::Move(operation) => moves::execute_move(cpu, space, ins, operation),
        Operation::Stack(operation) => stack::execute_stack(cpu, space, ins, operation),
        Operation::Arithmetic(operation) => arithmetic::execute_arithmetic(
            cpu, space, ins, operation,
        ),
        Operation::Shift(operation) => shifts::execute_shift(cpu, space, ins, operation),
        Operation::Multiply(sign) => products::multiply(cpu, space, ins, sign),
        Operation::Divide(sign) => products::divide(cpu, space, ins, sign),
        Operation::Adjust(adjustment) => adjustments::adjust_accumulator(cpu, adjustment),
        Operation::JumpIf(condition, wanted) => jumps::jump_if(cpu, space, ins, condition, wanted),
        Operation::Loop(operation) => jumps::execute_loop(cpu, space, ins, operation),
        Operation::Transfer(operation) => jumps::transfer(cpu, space, ins, operation),
        Operation::Interrupt(operation) => stack::execute_interrupt(cpu, space, ins, operation),
        Operation::String(operation, width) => {
            strings::execute_string(cpu, space, ins, start, operation, width)
        }
        Operation::Flag(operation) => control::change_flag(cpu, operation),
        Operation::Nothing => {}
        Operation::Halt => cpu.set_ip(start),
    }
}

/// Does an instruction that begins at `start`, with IP past it already: changes registers, flags and memory as the
/// instruction says, IP included; HLT sets IP back to `start`.
#[inline(always)]
pub fn execute(cpu: &mut Registers, space: &mut Space, ins: &Ins, start: u16)
    ensures { guest cpu.new space.new.memory ≡ operation_effect (guest cpu.old
        space.old.memory) ins.now.prefixes start (operation_of ins.now.action.mnemonic) ins.now.action.first
        ins.now.action.second }
{
    perform(cpu, space, ins, start);
}

/// Does the instruction of `len` bytes that stands at CS:IP (Intel 8086 Family User's Manual, section 2.7): registers,
/// flags and memory become what the instruction says, and IP is past it or where it jumps. HLT changes nothing. Of a
/// string instruction with a repeat prefix one repetition is done, none where CX is 0, and IP stays at the instruction
/// if another one follows. A flag that the manual leaves undefined stays. Nothing is promised of the scratch bytes,
/// which no program sees. Returns whether the processor goes on: only HLT stops it.
#[inline(always)]
#[tactic(auto, unfolding(crate::specs::Effect::effect))]
pub fn exec(cpu: &mut Cpu, space: &mut Space, ins: &Ins, len: u8) -> Next
    ensures next { result ≡ next_of ins.now.action.mnemonic }
    ensures effect { guest cpu.new space.new.memory ≡ effect (guest cpu.old space.old.memory) ins.now len }
{
    if let Mnemonic::Hlt = ins.action.mnemonic {
        return Next::Halt;
    }
    let start = cpu.ip;
    let mut registers = Registers::from_cpu(cpu);
    registers.set_ip(start.wrapping_add(len as u16));
    perform(&mut registers, space, ins, start);
    *cpu = registers.to_cpu();
    Next::Go
}
