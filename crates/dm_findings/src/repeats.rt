//! When a finding repeats an earlier one.

ghost use Rattle.std.specs.Prelude.{◌≡◌};
ghost use Rattle.dm_findings.specs.Repeats.{kind_of, not_freed_kind, held_kind, kept_subject, subject_of, is_same_site, callee_of, function_number, is_same_act, is_repeated};

use crate::calls::Call;
use crate::finding::{Act, Finding, Found, Kept};
use crate::sites::Site;

/// Which kind it is that something was left allocated: its place among the kinds of findings.
fn not_freed_kind(kept: &Kept) -> u8
    ensures { result ≡ not_freed_kind kept.now }
{
    match kept {
        Kept::Handle(_, _, _) => 19,
        Kept::Window(_) => 20,
        Kept::Block(_, _, _) => 21,
        Kept::Upper(_) => 22,
        Kept::Area => 23,
        Kept::Line => 24,
    }
}

/// Which kind it is that a resident program holds something: its place among the kinds of findings.
fn held_kind(kept: &Kept) -> u8
    ensures { result ≡ held_kind kept.now }
{
    match kept {
        Kept::Handle(_, _, _) => 25,
        Kept::Window(_) => 26,
        Kept::Block(_, _, _) => 27,
        Kept::Upper(_) => 28,
        Kept::Area => 29,
        Kept::Line => 30,
    }
}

/// The handle, window or segment of what is allocated; 0 for the high memory area and A20.
fn kept_subject(kept: &Kept) -> u16
    ensures { result ≡ kept_subject kept.now }
{
    match kept {
        Kept::Handle(handle, _, _) => *handle,
        Kept::Window(window) => *window as u16,
        Kept::Block(handle, _, _) => *handle,
        Kept::Upper(at) => *at,
        Kept::Area | Kept::Line => 0,
    }
}

/// Which kind of finding it is: its number among the kinds, from 0. What is left allocated, and what is held, has one
/// for each kind of thing.
pub fn kind_of(finding: &Finding) -> u8
    ensures { result ≡ kind_of finding.now }
{
    match finding {
        Finding::Overwritten(_, _, _) => 0,
        Finding::MappedAway(_) => 1,
        Finding::Destroyed(_) => 2,
        Finding::Whole => 3,
        Finding::FreedTwice(_) => 4,
        Finding::Refused(_) => 5,
        Finding::NotAllocated(_) => 6,
        Finding::DivisionError => 7,
        Finding::Short(_, _) => 8,
        Finding::NotServed => 9,
        Finding::FreeRead(_, _, _) => 10,
        Finding::FreeWritten(_, _, _) => 11,
        Finding::StackFreed(_) => 12,
        Finding::WindowLost(_, _, _) => 13,
        Finding::RomWritten(_, _) => 14,
        Finding::NothingWritten(_, _) => 15,
        Finding::TailWritten(_, _) => 16,
        Finding::OtherFreed(_, _) => 17,
        Finding::NotResized(_) => 18,
        Finding::NotFreed(kept) => not_freed_kind(kept),
        Finding::Held(kept) => held_kind(kept),
    }
}

/// What a finding is about: the segment of a header or a block, a handle, a window, or an error code; 0 for a kind that
/// has none of them.
fn subject_of(finding: &Finding) -> u16
    ensures { result ≡ subject_of finding.now }
{
    match finding {
        Finding::Overwritten(at, _, _) => *at,
        Finding::MappedAway(at) => *at,
        Finding::Destroyed(at) => *at,
        Finding::FreedTwice(at) => *at,
        Finding::Refused(code) => *code as u16,
        Finding::NotAllocated(code) => *code as u16,
        Finding::FreeRead(block, _, _) => *block,
        Finding::FreeWritten(block, _, _) => *block,
        Finding::StackFreed(block) => *block,
        Finding::WindowLost(window, _, _) => *window as u16,
        Finding::TailWritten(at, _) => *at,
        Finding::OtherFreed(at, _) => *at,
        Finding::NotFreed(kept) | Finding::Held(kept) => kept_subject(kept),
        _ => 0,
    }
}

/// Whether two places are the same.
fn is_same_site(first: Site, second: Site) -> bool
    ensures { result ≡ is_same_site first second }
{
    match (first, second) {
        (Site::At(s, o), Site::At(t, p)) => s == t && o == p,
        (Site::Before(s, o), Site::Before(t, p)) => s == t && o == p,
        (Site::At(_, _), Site::Before(_, _)) => false,
        (Site::Before(_, _), Site::At(_, _)) => false,
    }
}

/// What is called: the place of the service, driver or interrupt among the calls, from 0.
fn callee_of(call: Call) -> u8
    ensures { result ≡ callee_of call }
{
    match call {
        Call::DivideError => 0,
        Call::Terminate => 1,
        Call::Dos(_) => 2,
        Call::ExpandedMemory(_) => 3,
        Call::Multiplex => 4,
        Call::ExtendedMemory(_) => 5,
        Call::Interrupt(_) => 6,
    }
}

/// The number of the function that is called, or of an interrupt that is not served; 0 for a call that has none.
fn number_of(call: Call) -> u8
    ensures { result ≡ function_number call }
{
    match call {
        Call::Dos(number) => number,
        Call::ExpandedMemory(number) => number,
        Call::ExtendedMemory(number) => number,
        Call::Interrupt(number) => number,
        _ => 0,
    }
}

/// Whether the same was performed, if it was at the same place: a call of the same function, or an instruction of the
/// same length.
fn is_same_act(first: &Act, second: &Act) -> bool
    ensures { result ≡ is_same_act first.now second.now }
{
    match (first, second) {
        (Act::Call(c), Act::Call(d)) => {
            callee_of(*c) == callee_of(*d) && number_of(*c) == number_of(*d)
        }
        (Act::Instruction(_, next), Act::Instruction(_, other)) => *next == *other,
        (Act::Call(_), Act::Instruction(_, _)) => false,
        (Act::Instruction(_, _), Act::Call(_)) => false,
    }
}

/// Whether `later` repeats `first`: it is of the same kind and about the same thing, and was found where the program
/// performed the same.
pub(crate) fn is_repeated(first: &Found, later: &Found) -> bool
    ensures { result ≡ is_repeated first.now later.now }
{
    kind_of(&first.finding) == kind_of(&later.finding)
        && subject_of(&first.finding) == subject_of(&later.finding)
        && is_same_site(first.site, later.site)
        && is_same_act(&first.act, &later.act)
}
