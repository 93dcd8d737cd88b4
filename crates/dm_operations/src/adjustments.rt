//! AAA, AAS, DAA, DAS, AAM and AAD.
ghost use Rattle.std.specs.Prelude.{◌≡◌, ◌<◌, ◌+◌, ◌*◌, ◌/◌, ◌%◌, ◌==◌, nat_le};
ghost use Rattle.dm_alu.specs.declared.width.Width.TheVariants.{Byte};
ghost use Rattle.dm_alu.specs.Flags.{after_result};
ghost use Rattle.dm_operations.specs.Adjustments.{adjusted};
ghost use Rattle.dm_operations.specs.inner.Digits.{digits_off};

use crate::bits::top_bit;
use dm_alu::{Adjustment, Flags, adjust};
use dm_cpu::Registers;

/// A number from which AF is set: its bit that is worth 16 is the flag.
#[inline(always)]
fn adjust_bit(flag: bool) -> u32
    ensures { (result / 16 % 2 == 1) ≡ flag }
{
    (flag as u32).wrapping_mul(16)
}

/// Which digits of AL (`low`) DAA and DAS adjust: 16 for the low one, and 256 for the high one.
#[inline(always)]
#[tactic(auto, using(crate::proofs::Digits::units_off, crate::proofs::Digits::tens_off))]
fn digits_off(low: u32, flags: Flags) -> u32
    requires { low < 256 }
    ensures { result ≡ digits_off low flags }
{
    // 6 more in each digit carry out of those that are over 9.
    let units = (low % 0x10 + 6) / 0x10 * 0x10;
    let tens = (low + 0x66) / 0x100 * 0x100;
    let adjust = 0x10 * u32::from(flags.adjust);
    let carry = 0x100 * u32::from(flags.carry);
    (units | adjust) + (tens | carry)
}

/// Sets AL to the low byte of a number, and PF, ZF and SF by it; AF and CF say which digits DAA or DAS adjusts, as
/// [`digits_off`] gives them. The other flags and registers stay.
#[inline(always)]
fn set_decimal(cpu: &mut Registers, value: u32, off: u32)
    requires { off < 512 }
    ensures { cpu.new ≡ record cpu.old {
      ax = cpu.old.ax / 256 * 256 + value % 256;
      flags = record (after_result Byte (value % 256) cpu.old.flags) {
        adjust = off / 16 % 2 == 1;
        carry = nat_le 256 off;
      };
    } }
{
    let al = (value % 0x100) as u8;
    cpu.set_ax(cpu.ax() / 0x100 * 0x100 + al as u16);
    let overflow = cpu.overflow();
    cpu.follow_byte(al, 0);
    cpu.set_overflow(overflow);
    cpu.set_adjust(off);
    cpu.set_carry(off * 0x80_0000);
}

/// Does DAA.
#[inline(always)]
#[tactic(auto, using(crate::proofs::Digits::adjusts, crate::proofs::Digits::carries, crate::proofs::Digits::change, crate::proofs::Digits::few, crate::proofs::Digits::little), unfolding(crate::specs::Adjustments::adjusted, dm_alu::specs::Adjustments::adjusted_value, dm_alu::specs::Adjustments::flags_after_adjustment))]
fn add_decimal(cpu: &mut Registers)
    ensures { cpu.new ≡ adjusted cpu.old Adjustment.DecimalAddition }
{
    let low = cpu.ax() as u32 % 0x100;
    let off = digits_off(low, cpu.flags());
    // 6 for the low digit, and 60h for the high one.
    set_decimal(cpu, low + off * 3 / 8, off);
}

/// Does DAS.
#[inline(always)]
#[tactic(auto, using(crate::proofs::Digits::adjusts, crate::proofs::Digits::carries, crate::proofs::Digits::change, crate::proofs::Digits::few, crate::proofs::Digits::little), unfolding(crate::specs::Adjustments::adjusted, dm_alu::specs::Adjustments::adjusted_value, dm_alu::specs::Adjustments::flags_after_adjustment))]
fn subtract_decimal(cpu: &mut Registers)
    ensures { cpu.new ≡ adjusted cpu.old Adjustment.DecimalSubtraction }
{
    let low = cpu.ax() as u32 % 0x100;
    let off = digits_off(low, cpu.flags());
    set_decimal(cpu, low + 0x100 - off * 3 / 8, off);
}

/// Does an adjustment, and is compiled for each: only the flags that it sets are written.
#[inline(always)]
#[tactic(auto, unfolding(crate::specs::Adjustments::adjusted, dm_alu::specs::Adjustments::flags_after_adjustment))]
fn adjust_by(cpu: &mut Registers, adjustment: Adjustment)
    ensures { cpu.new ≡ adjusted cpu.old adjustment }
{
    let (ax, flags) = adjust(adjustment, cpu.ax(), cpu.flags());
    cpu.set_ax(ax);
    match adjustment {
        Adjustment::AsciiAddition | Adjustment::AsciiSubtraction => {}
        Adjustment::DecimalAddition
        | Adjustment::DecimalSubtraction
        | Adjustment::AsciiMultiplication
        | Adjustment::AsciiDivision => {
            cpu.follow_byte((ax % 0x100) as u8, 0);
            cpu.set_overflow(top_bit(flags.overflow));
        }
    }
    match adjustment {
        Adjustment::AsciiMultiplication | Adjustment::AsciiDivision => {}
        Adjustment::AsciiAddition
        | Adjustment::AsciiSubtraction
        | Adjustment::DecimalAddition
        | Adjustment::DecimalSubtraction => {
            cpu.set_adjust(adjust_bit(flags.adjust));
            cpu.set_carry(top_bit(flags.carry));
        }
    }
}

/// Does AAA, AAS, DAA, DAS, AAM or AAD: changes AX, and of the flags AF and CF (AAA, AAS), PF, ZF and SF (AAM, AAD) or
/// all five (DAA, DAS). The other flags and registers stay.
#[inline(always)]
pub fn adjust_accumulator(cpu: &mut Registers, adjustment: Adjustment)
    ensures { cpu.new ≡ adjusted cpu.old adjustment }
{
    match adjustment {
        Adjustment::AsciiAddition => adjust_by(cpu, Adjustment::AsciiAddition),
        Adjustment::AsciiSubtraction => adjust_by(cpu, Adjustment::AsciiSubtraction),
        Adjustment::DecimalAddition => add_decimal(cpu),
        Adjustment::DecimalSubtraction => subtract_decimal(cpu),
        Adjustment::AsciiMultiplication => adjust_by(cpu, Adjustment::AsciiMultiplication),
        Adjustment::AsciiDivision => adjust_by(cpu, Adjustment::AsciiDivision),
    }
}
