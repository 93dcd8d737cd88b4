//! What a finding is about, as numbers.
ghost use Rattle.std.specs.Prelude.{◌≡◌};
ghost use Rattle.dm_views.specs.inventory.Details.{contents_record, no_details, kept_details, details_of};

use crate::inventory::pages::number_of;
use dm_findings::{Finding, Kept};

/// The error code of a failed allocation of the arena: not enough memory (MS-DOS Programmer's Reference, INT 21h
/// function 59h).
const NOT_ENOUGH_MEMORY: u16 = 8;

/// Bytes 0 to 4 of an arena header: signature, owner, and size in paragraphs.
#[repr(C)]
#[derive(Clone, Copy, Debug, PartialEq, Eq)]
pub struct Contents {
    pub signature: u16,
    pub owner: u16,
    pub size: u16,
}

/// What a finding is about, by the names of the members of `dm check --json`. A number that its kind does not have is
/// 0.
#[repr(C)]
#[derive(Clone, Copy, Debug, PartialEq, Eq)]
pub struct Details {
    /// The contents of a header before the step, and after it.
    pub old_contents: Contents,
    pub new_contents: Contents,
    /// The segment of a header, and which of its bytes is written, 5 to 15.
    pub header: u16,
    pub byte: u16,
    /// The segment of a block, and of the program that owns it.
    pub block: u16,
    pub owner: u16,
    /// The address of the first byte that an instruction touches there.
    pub segment: u16,
    pub offset: u16,
    /// A window of the frame, 0 to 3.
    pub window: u16,
    /// A handle; how many pages it has, and whether the windows are saved under it (1, otherwise 0); the KiB of its
    /// block, and whether that is locked.
    pub handle: u16,
    pub pages: u16,
    pub saved: u16,
    pub kib: u16,
    pub locked: u16,
    /// The error code of a call.
    pub code: u16,
    /// The paragraphs that a call wants, and those that are available.
    pub wanted: u16,
    pub available: u16,
}

/// The contents of a header.
fn contents_of(contents: dm_findings::Contents) -> Contents
    ensures { result ≡ contents_record contents }
{
    Contents {
        signature: contents.signature as u16,
        owner: contents.owner,
        size: contents.size,
    }
}

/// No numbers.
fn no_details() -> Details
    ensures { result ≡ no_details }
{
    let none = Contents {
        signature: 0,
        owner: 0,
        size: 0,
    };
    Details {
        old_contents: none,
        new_contents: none,
        header: 0,
        byte: 0,
        block: 0,
        owner: 0,
        segment: 0,
        offset: 0,
        window: 0,
        handle: 0,
        pages: 0,
        saved: 0,
        kib: 0,
        locked: 0,
        code: 0,
        wanted: 0,
        available: 0,
    }
}

/// What a program has allocated at its end.
fn kept_details(kept: &Kept) -> Details
    ensures { result ≡ kept_details kept.now }
{
    let none = no_details();
    match kept {
        Kept::Handle(handle, pages, saved) => Details {
            handle: *handle,
            pages: *pages,
            saved: number_of(*saved),
            ..none
        },
        Kept::Window(window) => Details {
            window: *window as u16,
            ..none
        },
        Kept::Block(handle, kib, locked) => Details {
            handle: *handle,
            kib: *kib,
            locked: number_of(*locked),
            ..none
        },
        Kept::Upper(at) => Details { block: *at, ..none },
        Kept::Area | Kept::Line => none,
    }
}

/// The numbers of a block or a window and of a byte that is touched there.
fn byte_details(block: u16, window: u16, segment: u16, offset: u16) -> Details
    ensures { result ≡ record no_details { block = block; window = window; segment = segment; offset = offset } }
{
    Details {
        block,
        window,
        segment,
        offset,
        ..no_details()
    }
}

/// The numbers of a header.
fn header_details(header: u16, byte: u16) -> Details
    ensures { result ≡ record no_details { header = header; byte = byte } }
{
    Details {
        header,
        byte,
        ..no_details()
    }
}

/// The numbers of a block of the arena, and of its owner.
fn block_details(block: u16, owner: u16) -> Details
    ensures { result ≡ record no_details { block = block; owner = owner } }
{
    Details {
        block,
        owner,
        ..no_details()
    }
}

/// The numbers of a call that has failed.
fn call_details(code: u16, wanted: u16, available: u16) -> Details
    ensures { result ≡ record no_details { code = code; wanted = wanted; available = available } }
{
    Details {
        code,
        wanted,
        available,
        ..no_details()
    }
}

/// What the finding is about.
pub(crate) fn details_of(finding: &Finding) -> Details
    ensures { result ≡ details_of finding.now }
{
    match finding {
        Finding::Overwritten(at, old, new) => Details {
            old_contents: contents_of(*old),
            new_contents: contents_of(*new),
            ..header_details(*at, 0)
        },
        Finding::MappedAway(at) | Finding::Destroyed(at) => header_details(*at, 0),
        Finding::TailWritten(at, byte) => header_details(*at, *byte as u16),
        Finding::FreedTwice(at) | Finding::StackFreed(at) => block_details(*at, 0),
        Finding::OtherFreed(at, owner) => block_details(*at, *owner),
        Finding::Refused(code) | Finding::NotAllocated(code) => call_details(*code as u16, 0, 0),
        Finding::Short(asked, largest) => call_details(NOT_ENOUGH_MEMORY, *asked, *largest),
        Finding::NotResized(asked) => call_details(0, *asked, 0),
        Finding::FreeRead(block, segment, offset) | Finding::FreeWritten(block, segment, offset) =>
            byte_details(*block, 0, *segment, *offset),
        Finding::WindowLost(window, segment, offset) => {
            byte_details(0, *window as u16, *segment, *offset)
        }
        Finding::RomWritten(segment, offset) | Finding::NothingWritten(segment, offset) => {
            byte_details(0, 0, *segment, *offset)
        }
        Finding::NotFreed(kept) | Finding::Held(kept) => kept_details(kept),
        Finding::Whole | Finding::DivisionError | Finding::NotServed => no_details(),
    }
}
