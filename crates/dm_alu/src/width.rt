//! Values of a byte or a word, unsigned and signed.
//!
//! Source: Intel 8086 Family User's Manual, section 2.7, Arithmetic Instructions, Arithmetic Data
//! Formats.
ghost use Rattle.std.specs.Prelude.{◌≡◌, ◌<◌, pos, ◌-ℤ◌, ◌≤ℤ◌, ◌<ℤ◌, ◌≤◌, unsigned_abs};
ghost use Rattle.dm_alu.specs.Width.{size, half, is_negative, signed};

/// Whether an operation works on bytes or on words.
#[derive(Clone, Copy, Debug, PartialEq, Eq)]
pub enum Width {
    /// Eight bits.
    Byte,
    /// Sixteen bits.
    Word,
}

impl Width {
    /// One more than the largest value of the width: 256 or 65,536.
    #[inline(always)]
    pub fn size(self) -> u32
        ensures { result ≡ size self }
    {
        match self {
            Width::Byte => 0x100,
            Width::Word => 0x1_0000,
        }
    }

    /// The least value whose top bit is one: 128 or 32,768.
    #[inline(always)]
    pub fn half(self) -> u16
        ensures { result ≡ half self }
    {
        match self {
            Width::Byte => 0x80,
            Width::Word => 0x8000,
        }
    }

    /// Whether the top bit of a value of the width is one, so that its signed reading is below
    /// zero.
    #[inline(always)]
    pub fn is_negative(self, value: u16) -> bool
        ensures { result ≡ is_negative self value }
    {
        value >= self.half()
    }

    /// The signed number that a value of the width stands for in two's complement: -128 to 127, or
    /// -32,768 to 32,767.
    #[inline(always)]
    #[tactic(auto, unfolding(crate::specs::Width::signed))]
    pub fn signed(self, value: u16) -> i32
        requires { value < size self }
        ensures value { result ≡ signed self value }
        ensures at_least { (pos 0 -ℤ pos 32768) ≤ℤ result }
        ensures below { result <ℤ pos 32768 }
        ensures magnitude { unsigned_abs result ≤ half self }
        ensures nonzero { 0 < value → 0 < unsigned_abs result }
    {
        // One instruction of the host extends the sign.
        match self {
            Width::Byte => i32::from(value.wrapping_add(0x80) % 0x100) - 0x80,
            Width::Word => i32::from(value.wrapping_add(0x8000)) - 0x8000,
        }
    }
}
