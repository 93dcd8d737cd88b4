//! Values of a byte or a word, and where instructions read and write them (Intel 8086 Family User's Manual, section
//! 2.8, "Addressing Modes"). An operation that is written once, over any width and any places, is compiled for each
//! width and kind of place that it is used with.
ghost use Rattle.std.specs.Prelude.{◌≡◌, ◌<◌, ◌%◌, ◌-◌, ℕ, Option, None};
ghost use Rattle.dm_alu.specs.declared.width.Width.{Width};
ghost use Rattle.dm_alu.specs.Width.{size};
ghost use Rattle.dm_ins.specs.declared.operand.Operand.{Operand};
ghost use Rattle.dm_ins.specs.declared.operand.Width.TheVariants.{Byte as OfByte, Word as OfWord};
ghost use Rattle.dm_ins.specs.declared.operand.SegmentRegister.{SegmentRegister};
ghost use Rattle.dm_cpu.specs.Guest.{guest};
ghost use Rattle.dm_cpu.specs.Operands.{value_of, with_operand};
ghost use Rattle.dm_cpu.specs.Values.{value_in};

use crate::effective_address::{EffectiveAddress, SimpleAddress};
use crate::halves::Half;
use crate::memory::{
    byte_at, set_byte_at, set_simple_byte_at, set_simple_word_at, set_word_at, simple_byte_at,
    simple_word_at, word_at,
};
use crate::operands;
use crate::registers::Registers;
use dm_alu::Width;
use dm_ins::{Operand, SegmentRegister, WordRegister};
use dm_space::Space;

/// A byte or a word.
pub trait Value: Copy {
    ghost number: { Self → ℕ };

    ghost width: { Width };

    /// Whether it is a byte or a word.
    fn of_width() -> Width
        ensures { result ≡ width };

    /// The value as a word; a byte has zeros above.
    fn wide(self) -> u16
        ensures value { result ≡ number self }
        ensures fits { result < size width };

    /// The value that a word is modulo the width's size: the low byte, or the word.
    fn narrow(word: u16) -> Self
        ensures { number result ≡ word % size width };

    /// The value with each bit turned over.
    fn complement(self) -> Self
        ensures { number result ≡ size width - 1 - number self };

    /// 0.
    fn zero() -> Self
        ensures { number result ≡ 0 };

    /// 1.
    fn one() -> Self
        ensures { number result ≡ 1 };
}

impl Value for u8 {
    ghost number = { λ n. n };

    ghost width = { Width.Byte };

    #[inline(always)]
    fn of_width() -> Width {
        Width::Byte
    }

    #[inline(always)]
    fn wide(self) -> u16 {
        self as u16
    }

    #[inline(always)]
    fn narrow(word: u16) -> u8 {
        (word % 0x100) as u8
    }

    #[inline(always)]
    fn complement(self) -> u8 {
        0xFF - self
    }

    #[inline(always)]
    fn zero() -> u8 {
        0
    }

    #[inline(always)]
    fn one() -> u8 {
        1
    }
}

impl Value for u16 {
    ghost number = { λ n. n };

    ghost width = { Width.Word };

    #[inline(always)]
    fn of_width() -> Width {
        Width::Word
    }

    #[inline(always)]
    fn wide(self) -> u16 {
        self
    }

    #[inline(always)]
    fn narrow(word: u16) -> u16 {
        word
    }

    #[inline(always)]
    fn complement(self) -> u16 {
        0xFFFF - self
    }

    #[inline(always)]
    fn zero() -> u16 {
        0
    }

    #[inline(always)]
    fn one() -> u16 {
        1
    }
}

/// What can be read as a value of a width.
pub trait Source<V: Value> {
    /// The operand that it is.
    ghost operand: { Self → Operand };

    /// The segment override under which it is read; of what is not in memory it means nothing.
    ghost under: { Self → Option SegmentRegister };

    /// The value.
    fn read(&self, cpu: &Registers, space: &Space) -> V
        ensures { V.number result ≡ value_in V.width (guest cpu.now space.now.memory) (under self.now) (operand
            self.now) };
}

/// What can be written too.
pub trait Destination<V: Value>: Source<V> {
    /// Stores a value. All else stays.
    fn write(&self, cpu: &mut Registers, space: &mut Space, value: V)
        ensures { guest cpu.new space.new.memory ≡ with_operand (guest cpu.old space.old.memory) (Self.under
            self.now) (Self.operand self.now) (V.number value) };
}

impl Source<u8> for Half {
    ghost operand = { λ h. Operand.ByteRegister h.register };

    ghost under = { λ h. None };

    #[inline(always)]
    #[tactic(auto, unfolding(crate::specs::Values::value_in, crate::specs::Operands::value_of))]
    fn read(&self, cpu: &Registers, _space: &Space) -> u8 {
        cpu.byte(*self)
    }
}

impl Destination<u8> for Half {
    #[inline(always)]
    #[tactic(auto, unfolding(crate::specs::Operands::with_operand))]
    fn write(&self, cpu: &mut Registers, _space: &mut Space, value: u8) {
        cpu.set_byte(*self, value);
    }
}

impl Source<u16> for WordRegister {
    ghost operand = { λ r. Operand.WordRegister r };

    ghost under = { λ r. None };

    #[inline(always)]
    #[tactic(auto, unfolding(crate::specs::Values::value_in, crate::specs::Operands::value_of))]
    fn read(&self, cpu: &Registers, _space: &Space) -> u16 {
        cpu.word(*self)
    }
}

impl Destination<u16> for WordRegister {
    #[inline(always)]
    #[tactic(auto, unfolding(crate::specs::Operands::with_operand))]
    fn write(&self, cpu: &mut Registers, _space: &mut Space, value: u16) {
        cpu.set_word(*self, value);
    }
}

impl Source<u16> for SegmentRegister {
    ghost operand = { λ r. Operand.SegmentRegister r };

    ghost under = { λ r. None };

    #[inline(always)]
    #[tactic(auto, unfolding(crate::specs::Values::value_in, crate::specs::Operands::value_of))]
    fn read(&self, cpu: &Registers, _space: &Space) -> u16 {
        cpu.segment(*self)
    }
}

impl Destination<u16> for SegmentRegister {
    #[inline(always)]
    #[tactic(auto, unfolding(crate::specs::Operands::with_operand))]
    fn write(&self, cpu: &mut Registers, _space: &mut Space, value: u16) {
        cpu.set_segment(*self, value);
    }
}

impl Source<u8> for u8 {
    ghost operand = { λ n. Operand.ByteValue n };

    ghost under = { λ n. None };

    #[inline(always)]
    #[tactic(auto, unfolding(crate::specs::Values::value_in, crate::specs::Operands::value_of))]
    fn read(&self, _cpu: &Registers, _space: &Space) -> u8 {
        *self
    }
}

impl Source<u16> for u16 {
    ghost operand = { λ n. Operand.WordValue n };

    ghost under = { λ n. None };

    #[inline(always)]
    #[tactic(auto, unfolding(crate::specs::Values::value_in, crate::specs::Operands::value_of))]
    fn read(&self, _cpu: &Registers, _space: &Space) -> u16 {
        *self
    }
}

impl Source<u8> for EffectiveAddress {
    ghost operand = { λ p. Operand.Memory OfByte p.address };

    ghost under = { λ p. p.override_ };

    #[inline(always)]
    #[tactic(auto, unfolding(crate::specs::Values::value_in, crate::specs::Operands::value_of))]
    fn read(&self, cpu: &Registers, space: &Space) -> u8 {
        byte_at(cpu, space, self)
    }
}

impl Destination<u8> for EffectiveAddress {
    #[inline(always)]
    #[tactic(auto, unfolding(crate::specs::Operands::with_operand))]
    fn write(&self, cpu: &mut Registers, space: &mut Space, value: u8) {
        set_byte_at(cpu, space, self, value);
    }
}

impl Source<u16> for EffectiveAddress {
    ghost operand = { λ p. Operand.Memory OfWord p.address };

    ghost under = { λ p. p.override_ };

    #[inline(always)]
    #[tactic(auto, unfolding(crate::specs::Values::value_in, crate::specs::Operands::value_of))]
    fn read(&self, cpu: &Registers, space: &Space) -> u16 {
        word_at(cpu, space, self)
    }
}

impl Destination<u16> for EffectiveAddress {
    #[inline(always)]
    #[tactic(auto, unfolding(crate::specs::Operands::with_operand))]
    fn write(&self, cpu: &mut Registers, space: &mut Space, value: u16) {
        set_word_at(cpu, space, self, value);
    }
}

impl Source<u8> for SimpleAddress {
    ghost operand = { λ p. Operand.Memory OfByte p.place.address };

    ghost under = { λ p. p.place.override_ };

    #[inline(always)]
    #[tactic(auto, unfolding(crate::specs::Values::value_in, crate::specs::Operands::value_of))]
    fn read(&self, cpu: &Registers, space: &Space) -> u8 {
        simple_byte_at(cpu, space, self)
    }
}

impl Destination<u8> for SimpleAddress {
    #[inline(always)]
    #[tactic(auto, unfolding(crate::specs::Operands::with_operand))]
    fn write(&self, cpu: &mut Registers, space: &mut Space, value: u8) {
        set_simple_byte_at(cpu, space, self, value);
    }
}

impl Source<u16> for SimpleAddress {
    ghost operand = { λ p. Operand.Memory OfWord p.place.address };

    ghost under = { λ p. p.place.override_ };

    #[inline(always)]
    #[tactic(auto, unfolding(crate::specs::Values::value_in, crate::specs::Operands::value_of))]
    fn read(&self, cpu: &Registers, space: &Space) -> u16 {
        simple_word_at(cpu, space, self)
    }
}

impl Destination<u16> for SimpleAddress {
    #[inline(always)]
    #[tactic(auto, unfolding(crate::specs::Operands::with_operand))]
    fn write(&self, cpu: &mut Registers, space: &mut Space, value: u16) {
        set_simple_word_at(cpu, space, self, value);
    }
}

/// An operand of any kind under a segment override: its kind is looked at each time.
#[derive(Clone, Copy)]
pub struct AnyPlace {
    /// The operand.
    pub operand: Operand,
    /// The segment override of the instruction, if it has one.
    pub override_: Option<SegmentRegister>,
}

impl<V: Value> Source<V> for AnyPlace {
    ghost operand = { λ a. a.operand };

    ghost under = { λ a. a.override_ };

    #[inline(always)]
    #[tactic(auto, unfolding(crate::specs::Values::value_in))]
    fn read(&self, cpu: &Registers, space: &Space) -> V {
        V::narrow(operands::value(cpu, space, &self.override_, &self.operand))
    }
}

impl<V: Value> Destination<V> for AnyPlace {
    #[inline(always)]
    fn write(&self, cpu: &mut Registers, space: &mut Space, value: V) {
        operands::set(cpu, space, &self.override_, &self.operand, value.wide());
    }
}
