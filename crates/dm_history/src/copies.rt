//! The copies of a machine that a history keeps on its way, in the order of their steps.

ghost use Rattle.std.specs.Prelude.{◌≡◌, ◌<◌, length};
ghost use Rattle.std.specs.List.{take_while};
ghost use Rattle.dm_history.specs.inner.Copies.{is_no_later, LosesOne, MayGain};

use dm_machine::Machine;

/// A copy of the machine on its way, and how many edits had been done when it was made.
#[derive(Drop)]
pub(crate) struct Kept {
    pub machine: Machine,
    pub edits: usize,
}

/// Whether the copy was made at a step or before it, with at most `count` edits.
fn is_no_later(copy: &Kept, step: u64, count: usize) -> bool
    ensures { result ≡ is_no_later step count copy.now }
{
    copy.machine.steps() <= step && copy.edits <= count
}

/// How many copies, from the first on, were made at a step or before it, with at most `count` edits.
pub(crate) fn kept_to(copies: &[Kept], step: u64, count: usize) -> usize
    ensures { result ≡ length (take_while (is_no_later step count) copies.now) }
{
    copies
        .iter()
        .take_while(|copy| is_no_later(copy, step, count))
        .count()
}

/// The index of the copy that is missed least: the steps from the copy before it to the one behind it are the fewest
/// beside the steps from there to `now`. The last copy stays if there are others.
pub(crate) fn spare(copies: &[Kept], now: u64) -> usize
    requires { 0 < length copies.now }
    ensures { result < length copies.now }
{
    let mut least = 0;
    let mut best = 0;
    for i in 0..copies.len() - 1 {
        let before = if i == 0 {
            0
        } else {
            copies[i - 1].machine.steps()
        };
        let gap = copies[i + 1].machine.steps().saturating_sub(before);
        let worth = now.saturating_sub(before) / gap.max(1);
        if best < worth {
            best = worth;
            least = i;
        }
    }
    least
}

/// Drops one of the copies if there are `most` or more.
pub(crate) fn make_room(copies: &mut Vec<Kept>, most: usize, now: u64)
    ensures { LosesOne copies.old.items copies.new.items }
{
    if copies.len() > 0 && most <= copies.len() {
        let at = spare(copies.as_slice(), now);
        copies.remove(at);
    }
}

/// Adds a copy at the end. Without memory for it, it is dropped.
pub(crate) fn put(copies: &mut Vec<Kept>, machine: Machine, edits: usize)
    ensures { MayGain copies.old.items (record { machine = machine; edits = edits }) copies.new.items }
{
    let _ = copies.push(Kept { machine, edits });
}
