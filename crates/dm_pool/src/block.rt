//! The names of blocks.
ghost use Rattle.std.specs.Prelude.{◌≡◌, ◌<◌};

use std::marker::Model;

/// A block of a pool, by its number. The default is number 0, with which a bounded list of blocks is filled;
/// `Store::has` says whether there is such a block.
#[derive(Clone, Copy, Debug, Default, PartialEq, Eq)]
pub struct Block {
    slot: usize,
}

impl Model for Block {
    ghost use Rattle.std.specs.Prelude.{ℕ, ◌<◌};

    ghost Value = { ℕ };

    ghost view = { λ b. b.slot };

    ghost invariant = { λ b. b.slot < 576 };

    ghost inverse = { λ n. record { slot = n } };
}

impl Block {
    /// The block with the number `slot`, 0 to 575.
    pub(crate) fn new(slot: usize) -> Block
        requires { slot < 576 }
        ensures { result ≡ slot }
    {
        Block { slot }
    }

    /// The number of the block, 0 to 575.
    pub(crate) fn slot(self) -> usize
        ensures value { result ≡ self }
        ensures small { result < 576 }
    {
        self.slot
    }
}
