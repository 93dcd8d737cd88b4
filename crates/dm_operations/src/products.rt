//! MUL, IMUL, DIV and IDIV.
ghost use Rattle.std.specs.Prelude.{◌≡◌, ◌<◌, ◌*◌};
ghost use Rattle.std.specs.Bool.{OnTrue, OnFalse};
ghost use Rattle.dm_space.specs.Memory.{Memory};
ghost use Rattle.dm_alu.specs.Width.{size};
ghost use Rattle.dm_alu.specs.Products.{product_value, flags_after_product, quotient_of};
ghost use Rattle.dm_cpu.specs.Guest.{guest};
ghost use Rattle.dm_cpu.specs.Values.{accumulator};
ghost use Rattle.dm_operations.specs.Products.{double_of, with_double, multiplied, with_division, after_division, divided};

use crate::stack;
use dm_alu::{Division, Sign, Width, div, mul};
use dm_cpu::{Half, Registers, values};
use dm_ins::{ByteRegister, Ins};
use dm_space::Space;

/// The dividend of DIV and IDIV, of twice the width: AX, or DX and AX, with the upper half in DX.
#[inline(always)]
#[tactic(auto, unfolding(crate::specs::Products::double_of))]
fn double(width: Width, cpu: &Registers) -> u32
    ensures value { result ≡ double_of width cpu.now }
    ensures in_range { result < size width * size width }
{
    let (low, high) = (cpu.ax(), cpu.dx());
    match width {
        Width::Byte => u32::from(low),
        Width::Word => u32::from(high) * 0x1_0000 + u32::from(low),
    }
}

/// Sets AX to a product (MUL, IMUL) that is two bytes wide, or DX and AX to one of four bytes, the upper half in DX.
#[inline(always)]
#[tactic(auto, unfolding(crate::specs::Products::with_double))]
fn set_double(width: Width, cpu: &mut Registers, value: u32)
    requires { value < size width * size width }
    ensures { cpu.new ≡ with_double width cpu.old value }
{
    match width {
        Width::Byte => cpu.set_ax(value as u16),
        Width::Word => {
            cpu.set_ax((value % 0x1_0000) as u16);
            cpu.set_dx((value / 0x1_0000) as u16);
        }
    }
}

/// MUL or IMUL by a value of the width: sets AX to the product of AL and a byte, or DX and AX to that of AX and a word.
/// CF and OF are set where the product's upper half is not 0 (MUL) or not all the lower half's sign (IMUL), else
/// cleared; the other flags stay.
#[inline(always)]
#[tactic(auto, using(crate::proofs::ByWidth::double_keeps), unfolding(dm_alu::specs::Products::flags_after_product))]
pub(crate) fn multiply_by(width: Width, cpu: &mut Registers, sign: Sign, right: u16)
    requires { right < size width }
    ensures { cpu.new ≡ record (with_double width cpu.old (product_value sign width (accumulator width cpu.old)
        right)) { flags = flags_after_product sign width (accumulator width cpu.old) right cpu.old.flags } }
{
    let left = values::accumulator(width, cpu);
    let (product, flags) = mul(sign, width, left, right, cpu.flags());
    // Carry and overflow are the same after a product.
    let significant = if flags.carry { 0x8000_0000 } else { 0 };
    cpu.set_carry(significant);
    cpu.set_overflow(significant);
    set_double(width, cpu, product);
}

/// Does MUL or IMUL by the first operand.
#[inline(never)]
#[tactic(auto, unfolding(crate::specs::Products::multiplied))]
pub fn multiply(cpu: &mut Registers, space: &Space, ins: &Ins, sign: Sign)
    ensures { guest cpu.new space.now.memory ≡ multiplied (guest cpu.old
        space.now.memory) ins.now.prefixes.segment sign ins.now.action.first }
{
    let operand = &ins.action.first;
    let width = values::width(operand);
    let right = values::value(width, cpu, space, &ins.prefixes.segment, operand);
    multiply_by(width, cpu, sign, right);
}

/// Sets AL to a quotient (DIV, IDIV) and AH to its remainder, or by a word AX and DX. The flags stay.
#[inline(always)]
#[tactic(auto, unfolding(crate::specs::Products::with_division, dm_cpu::specs::Cpu::with_byte))]
fn set_division(width: Width, cpu: &mut Registers, division: Division)
    requires quotient { division.quotient < size width }
    requires remainder { division.remainder < size width }
    ensures { cpu.new ≡ with_division width cpu.old division }
{
    match width {
        Width::Byte => {
            cpu.set_byte(
                Half::new(ByteRegister::Al),
                (division.quotient % 0x100) as u8,
            );
            cpu.set_byte(
                Half::new(ByteRegister::Ah),
                (division.remainder % 0x100) as u8,
            );
        }
        Width::Word => {
            cpu.set_ax(division.quotient);
            cpu.set_dx(division.remainder);
        }
    }
}

/// DIV or IDIV by a value of the width: divides AX by a byte (quotient in AL, remainder in AH), or DX and AX by a word
/// (quotient in AX, remainder in DX); the flags stay. Where the divisor is 0 or the quotient is out of range, takes
/// interrupt 0 instead, which clears IF and TF; AX and DX stay.
#[inline(always)]
#[tactic(auto, unfolding(crate::specs::Products::after_division))]
pub(crate) fn divide_by(
    width: Width,
    cpu: &mut Registers,
    space: &mut Space,
    sign: Sign,
    divisor: u16,
)
    requires { divisor < size width }
    ensures { guest cpu.new space.new.memory ≡ after_division width (guest cpu.old space.old.memory) (quotient_of sign
        width (double_of width cpu.old) divisor) }
{
    let dividend = double(width, cpu);
    match div(sign, width, dividend, divisor) {
        None => stack::interrupt(cpu, space, 0),
        Some(division) => set_division(width, cpu, division),
    }
}

/// Does DIV or IDIV by a value of the width, if there is a quotient. Returns whether it is done; else nothing has
/// changed. CS and IP stay.
#[inline(always)]
#[tactic(auto, unfolding(crate::specs::Products::after_division, crate::specs::Products::with_division))]
fn divides_by(width: Width, cpu: &mut Registers, sign: Sign, divisor: u16) -> bool
    requires { divisor < size width }
    ensures does { OnTrue result ((memory : Memory) → guest cpu.new memory ≡ after_division width (guest cpu.old memory)
        (quotient_of sign width (double_of width cpu.old) divisor)) }
    ensures stays { OnFalse result (cpu.new ≡ cpu.old) }
    ensures segment { cpu.new.cs ≡ cpu.old.cs }
    ensures ip { cpu.new.ip ≡ cpu.old.ip }
{
    let dividend = double(width, cpu);
    match div(sign, width, dividend, divisor) {
        None => false,
        Some(division) => {
            set_division(width, cpu, division);
            true
        }
    }
}

/// Does what [`divides_by`] does; its code is compiled for each sign.
#[inline(always)]
pub(crate) fn divides(width: Width, cpu: &mut Registers, sign: Sign, divisor: u16) -> bool
    requires { divisor < size width }
    ensures does { OnTrue result ((memory : Memory) → guest cpu.new memory ≡ after_division width (guest cpu.old memory)
        (quotient_of sign width (double_of width cpu.old) divisor)) }
    ensures stays { OnFalse result (cpu.new ≡ cpu.old) }
    ensures segment { cpu.new.cs ≡ cpu.old.cs }
    ensures ip { cpu.new.ip ≡ cpu.old.ip }
{
    match sign {
        Sign::Unsigned => divides_by(width, cpu, Sign::Unsigned, divisor),
        Sign::Signed => divides_by(width, cpu, Sign::Signed, divisor),
    }
}

/// Does DIV or IDIV by the first operand.
#[inline(never)]
#[tactic(auto, unfolding(crate::specs::Products::divided))]
pub fn divide(cpu: &mut Registers, space: &mut Space, ins: &Ins, sign: Sign)
    ensures { guest cpu.new space.new.memory ≡ divided (guest cpu.old
        space.old.memory) ins.now.prefixes.segment sign ins.now.action.first }
{
    let operand = &ins.action.first;
    let width = values::width(operand);
    let divisor = values::value(width, cpu, space, &ins.prefixes.segment, operand);
    divide_by(width, cpu, space, sign, divisor);
}
