//! Upper memory blocks (XMS 3.0, functions 10h to 12h): paragraphs from segment D000h to DFFFh, of which the driver
//! keeps a table. Memory stays.

ghost use Rattle.std.specs.Prelude.{◌≡◌, ◌≤◌, ◌<◌, ◌+◌, ◌-◌, length, count_by, position, slice_get, slice_set, IfSome};
ghost use Rattle.dm_pool.specs.Gaps.{first_fit, largest};
ghost use Rattle.dm_xms.specs.inner.Tables.{Rise};
ghost use Rattle.dm_xms.specs.Calls.{result_of, state_after};
ghost use Rattle.dm_xms.specs.Uppers.{at_least_one, is_below, begins_at, begin_or_end, request_upper, release_upper, resize_upper, largest_upper, lowest_upper, code_of};
ghost use Rattle.dm_xms.specs.inner.Walks.{gaps_between, segment_of};

use crate::tables::{Upper, Xms};
use arrayvec::ArrayVec;

/// The first segment of upper memory.
const FIRST: u16 = 0xD000;

/// The segment after upper memory.
const END: u16 = 0xE000;

/// The largest number of upper memory blocks.
const MOST: usize = 64;

/// Why a call on upper memory blocks failed.
#[derive(Clone, Copy, Debug, PartialEq, Eq)]
pub enum UpperRefusal {
    /// There is no room for so many paragraphs, only for this number.
    Smaller(u16),
    /// No paragraph is free, there are 64 blocks, or upper memory belongs to the arena of DOS.
    NoneFree,
    /// No block of the driver begins at the segment.
    Unknown,
}

impl UpperRefusal {
    /// The error code that the call returns in BL.
    #[tactic(auto, unfolding(crate::specs::Uppers::code_of))]
    pub fn code(self) -> u8
        ensures { result ≡ code_of self }
    {
        match self {
            UpperRefusal::Smaller(_) => 0xB0,
            UpperRefusal::NoneFree => 0xB1,
            UpperRefusal::Unknown => 0xB2,
        }
    }
}

/// The number of paragraphs of the largest gap between rising blocks, from segment `from` to the end of upper memory; 0
/// if there is none.
#[tactic(auto, using(crate::proofs::Gaps::first_ends))]
fn largest_from(from: u16, uppers: &[Upper]) -> u16
    requires from { 0xD000 ≤ from }
    requires rise { Rise from uppers.now }
    ensures { result ≡ largest (gaps_between (from - 0xD000) uppers.now) }
{
    match uppers {
        [] => END - from,
        [first, rest @ ..] => {
            let gap = first.segment - from;
            gap.max(largest_from(first.segment + first.paragraphs, rest))
        }
    }
}

/// The segment of the lowest gap between rising blocks, from segment `from` on to the end of upper memory, that has at
/// least so many paragraphs; None if there is none.
#[tactic(auto, using(crate::proofs::Gaps::first_ends))]
fn lowest_from(from: u16, uppers: &[Upper], paragraphs: u16) -> Option<u16>
    requires from { 0xD000 ≤ from }
    requires rise { Rise from uppers.now }
    requires some { 0 < paragraphs }
    ensures { result ≡ segment_of (first_fit (gaps_between (from - 0xD000) uppers.now) paragraphs) }
{
    match uppers {
        [] => {
            if paragraphs <= END - from {
                Some(from)
            } else {
                None
            }
        }
        [first, rest @ ..] => {
            if paragraphs <= first.segment - from {
                Some(from)
            } else {
                lowest_from(first.segment + first.paragraphs, rest, paragraphs)
            }
        }
    }
}

/// The number of blocks that begin below a segment: the index in the table at which 10h inserts a block there.
fn count_below(uppers: &[Upper], segment: u16) -> usize
    ensures count { result ≡ count_by (is_below segment) uppers.now }
    ensures few { result ≤ length uppers.now }
{
    uppers
        .iter()
        .filter(|upper| upper.segment < segment)
        .count()
}

/// The index of the block that begins at a segment, for 11h and 12h; None if none does.
fn first_at(uppers: &[Upper], segment: u16) -> Option<usize>
    ensures first { result ≡ position (begins_at segment) uppers.now }
    ensures there { IfSome result (λ k. k < length uppers.now) }
{
    uppers.iter().position(|upper| upper.segment == segment)
}

/// Replaces the block at an index, as 12h resizes it; the other blocks stay.
fn set_at(uppers: &mut ArrayVec<Upper, 64>, at: usize, upper: Upper)
    requires { at < length uppers.old.items }
    ensures { uppers.new.items ≡ slice_set uppers.old.items at upper }
{
    uppers[at] = upper;
}

impl Xms {
    /// The number of paragraphs of the largest gap of upper memory; 0 if there is none.
    #[tactic(auto, using(crate::proofs::Gaps::gaps_are_between))]
    fn largest_upper(&self) -> u16
        ensures { result ≡ largest_upper self.now.uppers }
    {
        largest_from(FIRST, self.uppers.as_slice())
    }

    /// The segment of the lowest gap of upper memory that has at least so many paragraphs; None if there is none.
    #[tactic(auto, using(crate::proofs::Gaps::first_fit_is_lowest))]
    fn lowest_upper(&self, paragraphs: u16) -> Option<u16>
        requires { 0 < paragraphs }
        ensures { result ≡ segment_of (lowest_upper self.now.uppers paragraphs) }
    {
        lowest_from(FIRST, self.uppers.as_slice(), paragraphs)
    }

    /// The upper memory block at index `at`, where 0 is the lowest block; None where there are not so many.
    pub fn upper_block(&self, at: usize) -> Option<Upper>
        ensures { result ≡ slice_get self.now.uppers at }
    {
        self.uppers.as_slice().get(at).copied()
    }

    /// 10h: allocates an upper memory block of `paragraphs`, at least 1, at the low end of the lowest gap that holds
    /// it, and returns it.
    ///
    /// # Errors
    ///
    /// In this order: `NoneFree` where no paragraph is free, or there are 64 blocks; `Smaller`, with the paragraphs
    /// of the largest gap, where no gap holds it. Then nothing has changed.
    #[tactic(auto, unfolding(crate::specs::Uppers::request_upper))]
    pub fn request_upper(&mut self, paragraphs: u16) -> Result<Upper, UpperRefusal>
        ensures answer { result ≡ result_of (request_upper self.old paragraphs) }
        ensures left { self.new ≡ state_after self.old (request_upper self.old paragraphs) }
    {
        let largest = self.largest_upper();
        if self.uppers.len() == MOST || largest == 0 {
            return Err(UpperRefusal::NoneFree);
        }
        let paragraphs = paragraphs.max(1);
        let Some(segment) = self.lowest_upper(paragraphs) else {
            return Err(UpperRefusal::Smaller(largest));
        };
        let upper = Upper {
            segment,
            paragraphs,
        };
        let at = count_below(self.uppers.as_slice(), segment);
        self.uppers.insert(at, upper);
        Ok(upper)
    }

    /// 11h: frees the upper memory block that begins at a segment.
    ///
    /// # Errors
    ///
    /// `Unknown` where none begins there, and nothing has changed.
    #[tactic(auto, unfolding(crate::specs::Uppers::release_upper))]
    pub fn release_upper(&mut self, segment: u16) -> Result<(), UpperRefusal>
        ensures answer { result ≡ result_of (release_upper self.old segment) }
        ensures left { self.new ≡ state_after self.old (release_upper self.old segment) }
    {
        let Some(at) = first_at(self.uppers.as_slice(), segment) else {
            return Err(UpperRefusal::Unknown);
        };
        self.uppers.remove(at);
        Ok(())
    }

    /// The segment where the block after block `at` of upper memory begins, up to which 12h can make block `at` larger;
    /// the end of upper memory if there is none.
    fn end_of_room(&self, at: usize) -> u16
        requires { at < length self.now.uppers }
        ensures { result ≡ begin_or_end (slice_get self.now.uppers (at + 1)) }
    {
        match self.uppers.as_slice().get(at + 1).copied() {
            Some(upper) => upper.segment,
            None => END,
        }
    }

    /// 12h: changes the size of the upper memory block that begins at a segment to `paragraphs`, at least 1, where it
    /// lies.
    ///
    /// # Errors
    ///
    /// In this order: `Unknown` where none begins there; `Smaller` where there is less room, with the paragraphs that
    /// it can have there. Then nothing has changed.
    #[tactic(auto, unfolding(crate::specs::Uppers::resize_upper))]
    pub fn resize_upper(&mut self, segment: u16, paragraphs: u16) -> Result<(), UpperRefusal>
        ensures answer { result ≡ result_of (resize_upper self.old segment paragraphs) }
        ensures left { self.new ≡ state_after self.old (resize_upper self.old segment paragraphs) }
    {
        let Some(at) = first_at(self.uppers.as_slice(), segment) else {
            return Err(UpperRefusal::Unknown);
        };
        let room = self.end_of_room(at) - segment;
        let paragraphs = paragraphs.max(1);
        if room < paragraphs {
            return Err(UpperRefusal::Smaller(room));
        }
        set_at(
            &mut self.uppers,
            at,
            Upper {
                segment,
                paragraphs,
            },
        );
        Ok(())
    }
}
