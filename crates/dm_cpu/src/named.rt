//! Registers by their names, for instructions that use them implicitly (Intel 8086 Family User's Manual, section 2.2,
//! "Implicit Use of General Registers"), and CS for the emulation's inner loop. Each function that sets a register
//! leaves the others and the flags.
ghost use Rattle.std.specs.Prelude.{◌≡◌};
ghost use Rattle.std.specs.Bool.{OnFalse};

use crate::registers::Registers;
use dm_ins::{SegmentRegister, WordRegister};

impl Registers {
    /// The value of AX.
    #[inline(always)]
    #[tactic(auto, unfolding(crate::specs::Cpu::word_of))]
    pub fn ax(&self) -> u16
        ensures { result ≡ self.now.ax }
    {
        self.word(WordRegister::Ax)
    }

    /// Sets AX.
    #[inline(always)]
    #[tactic(auto, unfolding(crate::specs::Cpu::with_word))]
    pub fn set_ax(&mut self, value: u16)
        ensures { self.new ≡ record self.old { ax = value } }
    {
        self.set_word(WordRegister::Ax, value);
    }

    /// The value of CX.
    #[inline(always)]
    #[tactic(auto, unfolding(crate::specs::Cpu::word_of))]
    pub fn cx(&self) -> u16
        ensures { result ≡ self.now.cx }
    {
        self.word(WordRegister::Cx)
    }

    /// Sets CX.
    #[inline(always)]
    #[tactic(auto, unfolding(crate::specs::Cpu::with_word))]
    pub fn set_cx(&mut self, value: u16)
        ensures { self.new ≡ record self.old { cx = value } }
    {
        self.set_word(WordRegister::Cx, value);
    }

    /// The value of DX.
    #[inline(always)]
    #[tactic(auto, unfolding(crate::specs::Cpu::word_of))]
    pub fn dx(&self) -> u16
        ensures { result ≡ self.now.dx }
    {
        self.word(WordRegister::Dx)
    }

    /// Sets DX.
    #[inline(always)]
    #[tactic(auto, unfolding(crate::specs::Cpu::with_word))]
    pub fn set_dx(&mut self, value: u16)
        ensures { self.new ≡ record self.old { dx = value } }
    {
        self.set_word(WordRegister::Dx, value);
    }

    /// The value of SP.
    #[inline(always)]
    #[tactic(auto, unfolding(crate::specs::Cpu::word_of))]
    pub fn sp(&self) -> u16
        ensures { result ≡ self.now.sp }
    {
        self.word(WordRegister::Sp)
    }

    /// Sets SP.
    #[inline(always)]
    #[tactic(auto, unfolding(crate::specs::Cpu::with_word))]
    pub fn set_sp(&mut self, value: u16)
        ensures { self.new ≡ record self.old { sp = value } }
    {
        self.set_word(WordRegister::Sp, value);
    }

    /// The value of SI.
    #[inline(always)]
    #[tactic(auto, unfolding(crate::specs::Cpu::word_of))]
    pub fn si(&self) -> u16
        ensures { result ≡ self.now.si }
    {
        self.word(WordRegister::Si)
    }

    /// Sets SI.
    #[inline(always)]
    #[tactic(auto, unfolding(crate::specs::Cpu::with_word))]
    pub fn set_si(&mut self, value: u16)
        ensures { self.new ≡ record self.old { si = value } }
    {
        self.set_word(WordRegister::Si, value);
    }

    /// The value of DI.
    #[inline(always)]
    #[tactic(auto, unfolding(crate::specs::Cpu::word_of))]
    pub fn di(&self) -> u16
        ensures { result ≡ self.now.di }
    {
        self.word(WordRegister::Di)
    }

    /// Sets DI.
    #[inline(always)]
    #[tactic(auto, unfolding(crate::specs::Cpu::with_word))]
    pub fn set_di(&mut self, value: u16)
        ensures { self.new ≡ record self.old { di = value } }
    {
        self.set_word(WordRegister::Di, value);
    }

    /// The value of CS.
    #[inline(always)]
    pub fn cs(&self) -> u16
        ensures { result ≡ self.now.cs }
    {
        self.segments[1]
    }

    /// Sets CS, and returns whether it has changed. The other registers and the flags stay.
    #[inline(always)]
    #[tactic(auto, unfolding(crate::specs::Cpu::with_segment))]
    pub fn changes_cs(&mut self, segment: u16) -> bool
        ensures set { self.new ≡ record self.old { cs = segment } }
        ensures stays { OnFalse result (self.new.cs ≡ self.old.cs) }
    {
        if segment == self.cs() {
            return false;
        }
        self.set_segment(SegmentRegister::Cs, segment);
        true
    }
}
