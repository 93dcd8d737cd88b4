//! The findings of a checked run as records.
ghost use Rattle.std.specs.Prelude.{◌≡◌, ◌++◌, map, OnOk};
ghost use Rattle.dm_findings.specs.Repeats.{not_freed_kind};
ghost use Rattle.dm_views.specs.inventory.Findings.{kind_number, call_record, act_of, site_record, origin_site, origin_step, record_of};

use crate::inventory::details::{Details, details_of};
use crate::inventory::pages::number_of;
use dm_findings::{Call, Finding, Kept, Listed, Origin, Site};
use std::alloc::AllocError;

/// What was performed in a step. `how` is 0 for an instruction, whose last byte is before the offset `next`; 1 for a
/// call by the interrupt of this number; 2 for one with the number of a function in AH; 3 for a far call of the
/// extended memory driver, with that number. The other fields are 0.
#[repr(C)]
#[derive(Clone, Copy, Debug, PartialEq, Eq)]
pub struct Act {
    pub how: u32,
    pub next: u16,
    pub interrupt: u8,
    pub function: u8,
}

/// A place in the code of a program: an instruction is there, or (`before` is 1) ends there.
#[repr(C)]
#[derive(Clone, Copy, Debug, PartialEq, Eq)]
pub struct CodePlace {
    pub cs: u16,
    pub ip: u16,
    pub before: u16,
}

/// A finding that a report lists.
#[repr(C)]
#[derive(Clone, Copy, Debug, PartialEq, Eq)]
pub struct FoundRecord {
    /// The number of the step: the machine's count of steps after it.
    pub step: u64,
    /// How many findings after it repeat it, and the step of the last that does, or its own.
    pub more: u64,
    pub last: u64,
    /// The step that freed the memory that the finding is about, or allocated what a program has at its end; 0 if that
    /// is not known.
    pub origin_step: u64,
    /// Its kind, 0 to 24, and whether it is an error (1) or a note (0).
    pub kind: u32,
    pub is_error: u32,
    /// Where the step was performed, and where that of `origin_step` was.
    pub at: CodePlace,
    pub origin_at: CodePlace,
    /// What was performed.
    pub act: Act,
    /// The process that performed it: the segment of its prefix.
    pub process: u16,
    /// What the finding is about.
    pub details: Details,
}

/// The kind of what a program has allocated at its end.
fn kept_kind(kept: &Kept) -> u32
    ensures { result ≡ not_freed_kind kept.now }
{
    match kept {
        Kept::Handle(_, _, _) => 19,
        Kept::Window(_) => 20,
        Kept::Block(_, _, _) => 21,
        Kept::Upper(_) => 22,
        Kept::Area => 23,
        Kept::Line => 24,
    }
}

/// The kind of a finding.
fn kind_number(finding: &Finding) -> u32
    ensures { result ≡ kind_number finding.now }
{
    match finding {
        Finding::Held(kept) => kept_kind(kept),
        _ => dm_findings::kind_of(finding) as u32,
    }
}

/// A call by an interrupt alone.
fn interrupt(number: u8) -> Act
    ensures { result ≡ record { how = 1; interrupt = number; function = 0; next = 0 } }
{
    Act {
        how: 1,
        next: 0,
        interrupt: number,
        function: 0,
    }
}

/// A call by an interrupt and the number of a function.
fn function_of(interrupt: u8, number: u8) -> Act
    ensures { result ≡ record { how = 2; interrupt = interrupt; function = number; next = 0 } }
{
    Act {
        how: 2,
        next: 0,
        interrupt,
        function: number,
    }
}

/// A call.
fn call_of(call: Call) -> Act
    ensures { result ≡ call_record call }
{
    match call {
        Call::DivideError => interrupt(0),
        Call::Terminate => interrupt(0x20),
        Call::Dos(number) => function_of(0x21, number),
        Call::ExpandedMemory(number) => function_of(0x67, number),
        Call::Multiplex => interrupt(0x2F),
        Call::ExtendedMemory(number) => Act {
            how: 3,
            next: 0,
            interrupt: 0,
            function: number,
        },
        Call::Interrupt(number) => interrupt(number),
    }
}

/// What was performed in a step.
fn act_of(act: &dm_findings::Act) -> Act
    ensures { result ≡ act_of act.now }
{
    match act {
        dm_findings::Act::Instruction(_, next) => Act {
            how: 0,
            next: *next,
            interrupt: 0,
            function: 0,
        },
        dm_findings::Act::Call(call) => call_of(*call),
    }
}

/// A place in the code of a program.
fn site_record(site: Site) -> CodePlace
    ensures { result ≡ site_record site }
{
    match site {
        Site::At(cs, ip) => CodePlace { cs, ip, before: 0 },
        Site::Before(cs, ip) => CodePlace { cs, ip, before: 1 },
    }
}

/// Where something was allocated or freed; zeros where that is not known.
fn origin_site(origin: Option<Origin>) -> CodePlace
    ensures { result ≡ origin_site origin }
{
    match origin {
        Some(origin) => site_record(origin.site),
        None => CodePlace {
            cs: 0,
            ip: 0,
            before: 0,
        },
    }
}

/// The step in which something was allocated or freed; 0 where that is not known.
fn origin_step(origin: Option<Origin>) -> u64
    ensures { result ≡ origin_step origin }
{
    match origin {
        Some(origin) => origin.step,
        None => 0,
    }
}

/// The record of a finding that a report lists.
fn record_of(listed: &Listed) -> FoundRecord
    ensures { result ≡ record_of listed.now }
{
    let found = &listed.found;
    FoundRecord {
        step: found.step,
        more: listed.more,
        last: listed.last,
        origin_step: origin_step(found.origin),
        kind: kind_number(&found.finding),
        is_error: number_of(found.finding.is_error()) as u32,
        at: site_record(found.site),
        origin_at: origin_site(found.origin),
        act: act_of(&found.act),
        process: found.process,
        details: details_of(&found.finding),
    }
}

/// Appends the records of the findings that a report lists, in their order.
///
/// # Errors
///
/// A failed allocation.
pub fn list_findings(out: &mut Vec<FoundRecord>, listed: &[Listed]) -> Result<(), AllocError>
    ensures { OnOk result (out.new.items ≡ out.old.items ++ map record_of listed.now) }
{
    for line in listed {
        out.push(record_of(line))?;
    }
    Ok(())
}
