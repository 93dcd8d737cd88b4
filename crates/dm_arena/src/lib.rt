//! The arena: memory allocated in blocks of paragraphs, by lists of headers that the bytes of
//! memory spell (MS-DOS Programmer's Reference, "Arena header", functions 48h to 4Bh, 31h and 58h,
//! and the end of a program).
//!
//! Nothing is kept beside those bytes: a program that has written over a header meets a destroyed
//! arena, as it would under DOS. Each header needs a place of its own: where a write would be lost,
//! or two windows of the frame show one header twice, there is no list, and no call leaves one so.
#![tactic(auto)]

mod allocation;
mod cut;
mod fit;
mod joined;
mod laws;
mod linking;
mod owned;
mod pair;
mod refusal;
mod standing;
mod survey;
mod writing;

pub use allocation::allocate;
pub use fit::{Area, Fit, Strategy};
pub use laws::{
    allocation_has_one_answer, arena_is_conventional, freeing_has_one_answer,
    linking_has_one_answer, pairing_has_one_answer, releasing_has_one_answer,
    resizing_has_one_answer,
};
pub use linking::{link, linked};
pub use owned::{free, free_all, resize};
pub use pair::{Pair, plan_pair, write_pair};
pub use refusal::ArenaRefusal;
