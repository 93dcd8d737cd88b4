//! Which bytes of memory an instruction reads and writes (Intel 8086 Family User's Manual, sections 2.3, 2.6, 2.7 and
//! 2.8).

ghost use Rattle.std.specs.Prelude.{◌≡◌, ◌+◌, ◌*◌, ◌<◌, Option, Some};
ghost use Rattle.dm_space.specs.Memory.{Memory};
ghost use Rattle.dm_ins.specs.declared.operand.SegmentRegister.{SegmentRegister};
ghost use Rattle.dm_touches.specs.declared.elements.Element.{Element};
ghost use Rattle.dm_alu.specs.Width.{size};
ghost use Rattle.dm_cpu.specs.Guest.{guest, down, up};
ghost use Rattle.dm_cpu.specs.Operands.{data_segment, segment_for, offset_of, value_of, with_operand, base_of};
ghost use Rattle.dm_operations.specs.Products.{double_of};
ghost use Rattle.dm_touches.specs.Access.{access_of};
ghost use Rattle.dm_touches.specs.Touches.{element_at, element_of, word_behind, stack_word, pushed_by_interrupt, operand_and_vector, source, destination, divided_by, does_work, reads_dividing, reads_of_string, reads_by, writes_dividing, writes_of_string, writes_by, reads, writes};

use crate::access::{Access, access_of};
use crate::elements::{Element, Elements, Touched};
use dm_alu::{Division, Sign, Width, div};
use dm_cpu::{Cpu, Registers, operands, values};
use dm_exec::StringOperation;
use dm_ins::{
    Address, Base, ByteRegister, Ins, Operand, Prefixes, Repeat, SegmentRegister,
    Width as OperandWidth,
};
use dm_space::Space;

/// The value of an override's segment register, or `own` without one.
fn data_segment(cpu: &Cpu, override_: Option<SegmentRegister>, own: u16) -> u16
    ensures { result ≡ data_segment cpu.now override_ own }
{
    match override_ {
        Some(register) => cpu.segment(register),
        None => own,
    }
}

/// The sum of the base registers of a memory operand, modulo 65,536.
#[tactic(auto, unfolding(dm_cpu::specs::Operands::base_of))]
fn base(cpu: &Cpu, base: Base) -> u16
    ensures { result ≡ base_of cpu.now base }
{
    match base {
        Base::Direct => 0,
        Base::BxSi => cpu.bx.wrapping_add(cpu.si),
        Base::BxDi => cpu.bx.wrapping_add(cpu.di),
        Base::BpSi => cpu.bp.wrapping_add(cpu.si),
        Base::BpDi => cpu.bp.wrapping_add(cpu.di),
        Base::OnSi => cpu.si,
        Base::OnDi => cpu.di,
        Base::OnBp => cpu.bp,
        Base::OnBx => cpu.bx,
    }
}

/// The offset of a memory operand.
fn offset(cpu: &Cpu, address: Address) -> u16
    ensures { result ≡ offset_of cpu.now address }
{
    base(cpu, address.base).wrapping_add(address.displacement)
}

/// The segment of a memory operand: that of the override, otherwise SS where the base has BP, else DS.
#[tactic(auto, unfolding(dm_cpu::specs::EffectiveAddress::own_segment, dm_cpu::specs::Cpu::segment_of))]
fn segment(cpu: &Cpu, override_: Option<SegmentRegister>, address: Address) -> u16
    ensures { result ≡ segment_for cpu.now override_ address }
{
    let own = match address.base {
        Base::BpSi | Base::BpDi | Base::OnBp => cpu.ss,
        _ => cpu.ds,
    };
    data_segment(cpu, override_, own)
}

/// An element of a width.
fn element_at(width: Width, segment: u16, offset: u16) -> Element
    ensures { result ≡ element_at width segment offset }
{
    match width {
        Width::Byte => Element::Byte(segment, offset),
        Width::Word => Element::Word(segment, offset),
    }
}

/// The element that an operand is; None if it is not in memory.
#[tactic(auto, unfolding(crate::specs::Touches::element_of))]
fn element_of(cpu: &Cpu, override_: Option<SegmentRegister>, operand: &Operand) -> Option<Element>
    ensures { result ≡ element_of cpu.now override_ operand.now }
{
    match *operand {
        Operand::Memory(OperandWidth::Byte, address) => Some(Element::Byte(
            segment(cpu, override_, address),
            offset(cpu, address),
        )),
        Operand::Memory(OperandWidth::Word, address) => Some(Element::Word(
            segment(cpu, override_, address),
            offset(cpu, address),
        )),
        _ => None,
    }
}

/// The word behind the one at an operand, the segment of a far pointer there; None if the operand is not in memory.
#[tactic(auto, unfolding(crate::specs::Touches::word_behind))]
fn word_behind(cpu: &Cpu, override_: Option<SegmentRegister>, operand: &Operand) -> Option<Element>
    ensures { result ≡ word_behind cpu.now override_ operand.now }
{
    match *operand {
        Operand::Memory(_, address) => Some(Element::Word(
            segment(cpu, override_, address),
            offset(cpu, address).wrapping_add(2),
        )),
        _ => None,
    }
}

/// The word on the stack that begins `above` bytes above SS:SP.
fn stack_word(cpu: &Cpu, above: u16) -> Option<Element>
    ensures { result ≡ stack_word cpu.now above }
{
    Some(Element::Word(cpu.ss, cpu.sp.wrapping_add(above)))
}

/// The word that a push writes with this SP before it.
fn pushed_at(cpu: &Cpu, sp: u16) -> Option<Element>
    ensures { result ≡ Some (Element.Word cpu.now.ss (down sp 2)) }
{
    Some(Element::Word(cpu.ss, sp.wrapping_sub(2)))
}

/// The words of FLAGS, CS and IP that an interrupt pushes.
fn pushed_by_interrupt(cpu: &Cpu) -> Elements
    ensures { result ≡ pushed_by_interrupt cpu.now }
{
    let second = cpu.sp.wrapping_sub(2);
    Elements::three(
        pushed_at(cpu, cpu.sp),
        pushed_at(cpu, second),
        pushed_at(cpu, second.wrapping_sub(2)),
    )
}

/// The vector of interrupt `number`, behind an operand that may be in memory.
fn with_vector(operand: Option<Element>, number: u8) -> Elements
    ensures { result ≡ operand_and_vector operand number }
{
    Elements::three(
        operand,
        Some(Element::Word(0, 4 * number as u16)),
        Some(Element::Word(0, 4 * number as u16 + 2)),
    )
}

/// The source of a string instruction.
fn source(width: Width, cpu: &Cpu, override_: Option<SegmentRegister>) -> Option<Element>
    ensures { result ≡ source width cpu.now override_ }
{
    Some(element_at(width, data_segment(cpu, override_, cpu.ds), cpu.si))
}

/// The destination of a string instruction.
fn destination(width: Width, cpu: &Cpu) -> Option<Element>
    ensures { result ≡ destination width cpu.now }
{
    Some(element_at(width, cpu.es, cpu.di))
}

/// The dividend of DIV and IDIV.
#[tactic(auto, unfolding(dm_operations::specs::Products::double_of, dm_alu::specs::Width::size))]
fn double(width: Width, cpu: &Cpu) -> u32
    ensures value { result ≡ double_of width cpu.now }
    ensures in_range { result < size width * size width }
{
    match width {
        Width::Byte => cpu.ax as u32,
        Width::Word => cpu.dx as u32 * 0x1_0000 + cpu.ax as u32,
    }
}

/// The quotient that DIV or IDIV finds; None if there is none.
#[inline(never)]
fn divided_by(
    cpu: &Cpu,
    space: &Space,
    override_: &Option<SegmentRegister>,
    sign: Sign,
    operand: &Operand,
) -> Option<Division>
    ensures { result ≡ divided_by (guest cpu.now space.now.memory) override_.now sign operand.now }
{
    let width = values::width(operand);
    let divisor = values::value(width, &Registers::from_cpu(cpu), space, override_, operand);
    div(sign, width, double(width, cpu), divisor)
}

/// Whether a string instruction does its work: always without a repeat prefix, with one unless CX is 0.
fn does_work(cpu: &Cpu, repeat: Option<Repeat>) -> bool
    ensures { result ≡ does_work cpu.now repeat }
{
    match repeat {
        Some(_) => cpu.cx != 0,
        None => true,
    }
}

/// What one repetition of a string instruction reads.
fn reads_of_string(
    width: Width,
    cpu: &Cpu,
    override_: Option<SegmentRegister>,
    operation: StringOperation,
) -> Elements
    ensures { result ≡ reads_of_string width cpu.now override_ operation }
{
    match operation {
        StringOperation::Move => Elements::one(source(width, cpu, override_)),
        StringOperation::Compare => {
            Elements::two(source(width, cpu, override_), destination(width, cpu))
        }
        StringOperation::Store => Elements::nothing(),
        StringOperation::Load => Elements::one(source(width, cpu, override_)),
        StringOperation::Scan => Elements::one(destination(width, cpu)),
    }
}

/// What one repetition of a string instruction writes.
fn writes_of_string(width: Width, cpu: &Cpu, operation: StringOperation) -> Elements
    ensures { result ≡ writes_of_string width cpu.now operation }
{
    match operation {
        StringOperation::Move => Elements::one(destination(width, cpu)),
        StringOperation::Compare => Elements::nothing(),
        StringOperation::Store => Elements::one(destination(width, cpu)),
        StringOperation::Load => Elements::nothing(),
        StringOperation::Scan => Elements::nothing(),
    }
}

/// What is read, by the kind of access. IP is past the instruction.
#[tactic(auto, unfolding(crate::specs::Touches::reads_by))]
fn reads_by(
    cpu: &Cpu,
    space: &Space,
    prefixes: &Prefixes,
    access: Access,
    first: &Operand,
    second: &Operand,
) -> Elements
    ensures { result ≡ reads_by (guest cpu.now space.now.memory) prefixes.now access first.now second.now }
{
    let override_ = prefixes.segment;
    match access {
        Access::Nothing | Access::Set | Access::PushFlags => Elements::nothing(),
        Access::Move => Elements::one(element_of(cpu, override_, second)),
        Access::Exchange | Access::Modify | Access::Compare => Elements::two(
            element_of(cpu, override_, first),
            element_of(cpu, override_, second),
        ),
        Access::LoadPointer => Elements::two(
            element_of(cpu, override_, second),
            word_behind(cpu, override_, second),
        ),
        Access::Translate => {
            let offset = cpu.bx.wrapping_add(cpu.byte(ByteRegister::Al) as u16);
            Elements::one(Some(Element::Byte(data_segment(cpu, override_, cpu.ds), offset)))
        }
        Access::Push | Access::Read | Access::Call => {
            Elements::one(element_of(cpu, override_, first))
        }
        Access::Pop | Access::Return => Elements::one(stack_word(cpu, 0)),
        Access::Divide(sign) => {
            let operand = element_of(cpu, override_, first);
            match divided_by(cpu, space, &prefixes.segment, sign, first) {
                None => with_vector(operand, 0),
                Some(_) => Elements::one(operand),
            }
        }
        Access::FarJump | Access::FarCall => Elements::two(
            element_of(cpu, override_, first),
            word_behind(cpu, override_, first),
        ),
        Access::FarReturn => Elements::two(stack_word(cpu, 0), stack_word(cpu, 2)),
        Access::InterruptReturn => {
            Elements::three(stack_word(cpu, 0), stack_word(cpu, 2), stack_word(cpu, 4))
        }
        Access::Interrupt => {
            let registers = Registers::from_cpu(cpu);
            let number = operands::value(&registers, space, &prefixes.segment, first);
            with_vector(element_of(cpu, override_, first), (number % 256) as u8)
        }
        Access::Breakpoint => with_vector(None, 3),
        Access::OnOverflow => {
            if cpu.flags.overflow {
                with_vector(None, 4)
            } else {
                Elements::nothing()
            }
        }
        Access::String(operation, width) => {
            if does_work(cpu, prefixes.repeat) {
                reads_of_string(width, cpu, override_, operation)
            } else {
                Elements::nothing()
            }
        }
    }
}

/// The registers after a value is stored in an operand that is a register; memory is left alone.
#[inline(never)]
#[tactic(auto, unfolding(dm_cpu::specs::Operands::with_operand))]
fn with_operand(cpu: &Cpu, operand: &Operand, value: u16) -> Cpu
    ensures { (m : Memory) (any : Option SegmentRegister) → result ≡ (with_operand (guest cpu.now m) any operand.now
        value).cpu }
{
    let mut changed = *cpu;
    match *operand {
        Operand::ByteRegister(register) => changed.set_byte(register, (value % 256) as u8),
        Operand::WordRegister(register) => changed.set_word(register, value),
        Operand::SegmentRegister(register) => changed.set_segment(register, value),
        _ => {}
    }
    changed
}

/// The element that XCHG writes as its second operand, when the first has its new value; None if it is not in memory.
fn second_exchanged(
    cpu: &Cpu,
    space: &Space,
    override_: &Option<SegmentRegister>,
    first: &Operand,
    second: &Operand,
) -> Option<Element>
    ensures { result ≡ element_of (with_operand (guest cpu.now space.now.memory) override_.now first.now
        (value_of (guest cpu.now space.now.memory) override_.now second.now)).cpu override_.now second.now }
{
    let value = operands::value(&Registers::from_cpu(cpu), space, override_, second);
    element_of(&with_operand(cpu, first, value), *override_, second)
}

/// What is written, by the kind of access. IP is past the instruction.
#[tactic(auto, unfolding(crate::specs::Touches::writes_by))]
fn writes_by(
    cpu: &Cpu,
    space: &Space,
    prefixes: &Prefixes,
    access: Access,
    first: &Operand,
    second: &Operand,
) -> Elements
    ensures { result ≡ writes_by (guest cpu.now space.now.memory) prefixes.now access first.now second.now }
{
    let override_ = prefixes.segment;
    match access {
        Access::Nothing
        | Access::Translate
        | Access::Compare
        | Access::Read
        | Access::FarJump
        | Access::Return
        | Access::FarReturn
        | Access::InterruptReturn => Elements::nothing(),
        Access::Set | Access::Move | Access::LoadPointer | Access::Pop | Access::Modify => {
            Elements::one(element_of(cpu, override_, first))
        }
        Access::Exchange => Elements::two(
            element_of(cpu, override_, first),
            second_exchanged(cpu, space, &prefixes.segment, first, second),
        ),
        Access::Push | Access::PushFlags | Access::Call => Elements::one(pushed_at(cpu, cpu.sp)),
        Access::Divide(sign) => {
            match divided_by(cpu, space, &prefixes.segment, sign, first) {
                None => pushed_by_interrupt(cpu),
                Some(_) => Elements::nothing(),
            }
        }
        Access::FarCall => Elements::two(
            pushed_at(cpu, cpu.sp),
            pushed_at(cpu, cpu.sp.wrapping_sub(2)),
        ),
        Access::Interrupt | Access::Breakpoint => pushed_by_interrupt(cpu),
        Access::OnOverflow => {
            if cpu.flags.overflow {
                pushed_by_interrupt(cpu)
            } else {
                Elements::nothing()
            }
        }
        Access::String(operation, width) => {
            if does_work(cpu, prefixes.repeat) {
                writes_of_string(width, cpu, operation)
            } else {
                Elements::nothing()
            }
        }
    }
}

/// The bytes of memory that the instruction of `len` bytes at CS:IP reads and writes, beside its own: at most three
/// elements each. Of a string instruction one repetition counts, none if CX is 0. A byte that the instruction changes
/// is among those that it writes.
#[tactic(auto, unfolding(crate::specs::Touches::reads, crate::specs::Touches::writes))]
pub fn touched(ins: &Ins, len: u8, cpu: &Cpu, space: &Space) -> Touched
    ensures reads { result.reads ≡ reads (guest cpu.now space.now.memory) ins.now len }
    ensures writes { result.writes ≡ writes (guest cpu.now space.now.memory) ins.now len }
{
    let mut past = *cpu;
    past.ip = cpu.ip.wrapping_add(len as u16);
    let access = access_of(ins.action.mnemonic);
    let first = &ins.action.first;
    let second = &ins.action.second;
    Touched {
        reads: reads_by(&past, space, &ins.prefixes, access, first, second),
        writes: writes_by(&past, space, &ins.prefixes, access, first, second),
    }
}
