//! What `dm check` can find, and at which step.

ghost use Rattle.std.specs.Prelude.{◌≡◌};
ghost use Rattle.dm_findings.specs.Findings.{is_error, is_of_free_memory};

use crate::calls::Call;
use crate::sites::Site;
use dm_ins::Ins;

/// Bytes 0 to 4 of an arena header (MS-DOS Programmer's Reference, "Arena header").
#[derive(Clone, Copy, Debug, PartialEq, Eq)]
pub struct Contents {
    pub signature: u8,
    pub owner: u16,
    /// In paragraphs.
    pub size: u16,
}

/// What a program has allocated.
#[derive(Clone, Copy, Debug, PartialEq, Eq)]
pub enum Kept {
    /// A handle of expanded memory, how many pages it has, and whether it has a saved map.
    Handle(u16, u16, bool),
    /// A page in this window of the frame.
    Window(u8),
    /// A handle of extended memory, the KiB of its block, and whether that is locked.
    Block(u16, u16, bool),
    /// The upper memory block at this segment.
    Upper(u16),
    /// The high memory area.
    Area,
    /// Address line A20, which is on.
    Line,
}

/// A finding: what a step did, or what a program left allocated.
#[derive(Clone, Copy, Debug)]
pub enum Finding {
    /// The header at this segment was overwritten: it had the first contents, and has the second.
    Overwritten(u16, Contents, Contents),
    /// The header that stood at this segment can no longer be read there: its page was freed, or its window shows other
    /// bytes.
    MappedAway(u16),
    /// The block list of the arena became invalid: it breaks at this segment, where no header can follow.
    Destroyed(u16),
    /// The block list, which was invalid, is valid again.
    Whole,
    /// The block of the arena at this segment was freed while it was free.
    FreedTwice(u16),
    /// The call failed with this error code.
    Refused(u8),
    /// The call frees or resizes a block or a handle that is not allocated, and failed with this error code.
    NotAllocated(u8),
    /// A division without a quotient ended the process, by interrupt 0.
    DivisionError,
    /// The interrupt is not served: its handler only returns.
    NotServed,
    /// The call failed for lack of memory: how many paragraphs it asked for, and the largest number possible.
    Short(u16, u16),
    /// The instruction reads memory of the free block of the arena at this segment: the first byte that it reads there,
    /// by segment and offset.
    FreeRead(u16, u16, u16),
    /// The instruction writes to memory of the free block of the arena at this segment: the first byte that it writes
    /// there, by segment and offset.
    FreeWritten(u16, u16, u16),
    /// The stack that the call was made on is in the free block of the arena at this segment, since the call.
    StackFreed(u16),
    /// The instruction writes to a window of the frame (0 to 3) that shows no page: the first byte that it writes
    /// there, by segment and offset.
    WindowLost(u8, u16, u16),
    /// The instruction writes to the ROM: the first byte that it writes there, by segment and offset.
    RomWritten(u16, u16),
    /// The instruction writes where there is no memory: the first byte that it writes there, by segment and offset.
    NothingWritten(u16, u16),
    /// The instruction writes to bytes 5 to 15 of the header at this segment: the first of them.
    TailWritten(u16, u8),
    /// The call freed the block of the arena at this segment, which another process owned: its segment.
    OtherFreed(u16, u16),
    /// The process stays resident, and its block could not be resized to so many paragraphs.
    NotResized(u16),
    /// Not freed by a program that has ended.
    NotFreed(Kept),
    /// Held by a program that stays resident.
    Held(Kept),
}

impl Finding {
    /// Whether the finding is an error. Notes are: a block list that is valid again; an interrupt that is not served; a
    /// failed call, unless it frees or resizes what is not allocated; a write to the ROM, to no memory or to bytes 5 to
    /// 15 of a header; a block freed that another process owned; a resident program's block that was not resized; what
    /// a resident program holds.
    pub fn is_error(&self) -> bool
        ensures { result ≡ is_error self.now }
    {
        match self {
            Finding::Whole | Finding::NotServed => false,
            Finding::Refused(_) | Finding::Short(_, _) => false,
            Finding::RomWritten(_, _) | Finding::NothingWritten(_, _) => false,
            Finding::TailWritten(_, _) => false,
            Finding::OtherFreed(_, _) | Finding::NotResized(_) => false,
            Finding::Held(_) => false,
            _ => true,
        }
    }

    /// Whether the finding is about free memory: that an instruction reads it or writes to it, or that a stack is in
    /// it.
    pub fn is_of_free_memory(&self) -> bool
        ensures { result ≡ is_of_free_memory self.now }
    {
        match self {
            Finding::FreeRead(_, _, _) | Finding::FreeWritten(_, _, _) => true,
            Finding::StackFreed(_) => true,
            _ => false,
        }
    }
}

/// What was performed in a step.
#[derive(Clone, Copy, Debug)]
pub enum Act {
    /// A call of a service or a driver.
    Call(Call),
    /// An instruction, and the offset after it.
    Instruction(Ins, u16),
}

/// A step that allocated or freed something.
#[derive(Clone, Copy, Debug, PartialEq, Eq)]
pub struct Origin {
    /// The number of the step.
    pub step: u64,
    /// Where in its code the program performed it.
    pub site: Site,
}

/// A finding, the step that it is about, in which process that was, and what was performed in it.
#[derive(Clone, Copy, Debug)]
pub struct Found {
    /// The number of the step: the machine's count of steps after it. The first step of a machine is number 1.
    pub step: u64,
    /// The process that performed it: the segment of its prefix.
    pub process: u16,
    /// Where in its code the program performed it.
    pub site: Site,
    pub act: Act,
    pub finding: Finding,
    /// The step that freed the memory that the finding is about, or allocated what is left or held. None if no step of
    /// the run did, or if the finding is about something else.
    pub origin: Option<Origin>,
}
