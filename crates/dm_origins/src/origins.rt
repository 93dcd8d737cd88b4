//! What is known in a run of who allocated and who freed.

ghost use Rattle.std.specs.Prelude.{◌≡◌, ◌/◌, ◌++◌, ◌∷◌, [], IfOk, OnOk, replicate, slice_index_or};
ghost use Rattle.dm_space.specs.Memory.{linear};
ghost use Rattle.dm_origins.specs.Origins.{known_first, with_handles, with_extended_memory, with_freed, of_kept, of_paragraph, origin_of, origin_since};
ghost use Rattle.dm_origins.specs.declared.handles.Since.TheVariants.{Unused};
ghost use Rattle.dm_findings.specs.processes.Processes.{with_end};

use crate::chunks::Chunks;
use crate::freed::free_all;
use crate::handles::{Since, look_at_blocks, look_at_handles, seen};
use crate::uppers::{UpperSince, look_at_uppers, upper_origin};
use dm_blocks::Header;
use dm_ems::Ems;
use dm_findings::processes::{Process, end_innermost};
use dm_findings::{Finding, Kept, Origin};
use dm_touches::FarAddress;
use dm_xms::Xms;
use std::alloc::{AllocError, Global};
use std::marker::Model;

/// Of each handle of expanded and of extended memory and each upper memory block, which step allocated it; of the high
/// memory area and of A20, which step took it or turned it on; of each paragraph below 10000h, which step was the last
/// that freed it; and the processes that ran.
///
/// Contracts see all of them.
#[derive(Drop)]
pub struct Origins {
    handles: [Since; 64],
    blocks: [Since; 64],
    uppers: [Option<UpperSince>; 64],
    area: Since,
    line: Since,
    freed: Chunks,
    processes: Vec<Process>,
}

impl Model for Origins {
    ghost use Rattle.std.specs.Prelude.{◌≡◌, length};
    ghost use Rattle.dm_origins.specs.Origins.{Known};

    ghost Value = { Known };

    ghost view = { λ r. record {
      handles = r.handles;
      blocks = r.blocks;
      uppers = r.uppers;
      area = r.area;
      line = r.line;
      freed = r.freed;
      processes = r.processes.items;
    } };

    ghost invariant = { λ r. length r.freed ≡ 0x10000 };
}

impl Origins {
    /// What is known before a run: what is in use, whether A20 is on (`on`), and the process that is present. An `Err`
    /// is a failed allocation.
    #[tactic(auto, unfolding(crate::specs::Origins::nothing_known))]
    pub fn new(
        alloc: Global,
        ems: &Ems,
        xms: &Xms,
        on: bool,
        present: Process,
    ) -> Result<Origins, AllocError>
        ensures { IfOk result (λ origins. origins ≡ known_first ems.now xms.now on present) }
    {
        let mut handles = [Since::Unused; 64];
        look_at_handles(&mut handles, ems, None);
        let mut blocks = [Since::Unused; 64];
        look_at_blocks(&mut blocks, xms, None);
        let mut uppers = [None; 64];
        look_at_uppers(&mut uppers, xms, None);
        let area = seen(xms.hma(), None, Since::Unused);
        let line = seen(on, None, Since::Unused);
        let freed = Chunks::never_freed(alloc)?;
        let mut processes = Vec::new(alloc);
        processes.push(present)?;
        Ok(Origins {
            handles,
            blocks,
            uppers,
            area,
            line,
            freed,
            processes,
        })
    }

    /// Looks at the handles of expanded memory after a call of its driver: the step allocated those that were not in
    /// use.
    pub fn record_handles(&mut self, ems: &Ems, origin: Origin)
        ensures { self.new ≡ with_handles self.old ems.now (Some origin) }
    {
        look_at_handles(&mut self.handles, ems, Some(origin));
    }

    /// Looks at the handles of extended memory, the upper memory blocks, the high memory area and A20 (`on`) after a
    /// call of the extended memory driver: the step allocated those that were not in use, took the area if it was free,
    /// and turned A20 on if it was off.
    pub fn record_blocks(&mut self, xms: &Xms, on: bool, origin: Origin)
        ensures { self.new ≡ with_extended_memory self.old xms.now on (Some origin) }
    {
        look_at_blocks(&mut self.blocks, xms, Some(origin));
        look_at_uppers(&mut self.uppers, xms, Some(origin));
        self.area = seen(xms.hma(), Some(origin), self.area);
        self.line = seen(on, Some(origin), self.line);
    }

    /// Looks at the blocks of the arena before and after a call: the step freed the paragraphs of free blocks that were
    /// in no free block.
    pub fn record_freed(&mut self, old: &[Header], new: &[Header], origin: Origin)
        ensures { self.new ≡ with_freed self.old old.now new.now origin }
    {
        free_all(&mut self.freed, old, new, origin);
    }

    /// Records that a process has started. An `Err` is a failed allocation.
    pub fn record_start(&mut self, process: Process) -> Result<(), AllocError>
        ensures { OnOk result (self.new ≡ record self.old { processes = self.old.processes ++ process ∷ [] }) }
    {
        self.processes.push(process)?;
        Ok(())
    }

    /// Records that the innermost process has ended, by this step.
    pub fn record_end(&mut self, step: u64)
        ensures { self.new ≡ record self.old { processes = with_end step self.old.processes } }
    {
        end_innermost(&mut self.processes, step);
    }

    /// The processes that ran, in the order of their starts.
    pub fn processes(&self) -> &[Process]
        ensures { result.now ≡ self.now.processes }
    {
        &self.processes
    }

    /// The last step that freed a paragraph; None if there is none.
    fn of_paragraph(&self, paragraph: usize) -> Option<Origin>
        ensures { result ≡ of_paragraph self.now paragraph }
    {
        self.freed.get(paragraph)
    }

    /// The step that allocated what a program left or holds, or turned A20 on; None if none did, or if it is a window.
    fn of_kept(&self, kept: &Kept) -> Option<Origin>
        ensures { result ≡ of_kept self.now kept.now }
    {
        match kept {
            Kept::Handle(handle, _, _) => of_entry(&self.handles, *handle),
            Kept::Block(handle, _, _) => of_entry(&self.blocks, handle.saturating_sub(1)),
            Kept::Upper(segment) => upper_origin(&self.uppers, None, *segment),
            Kept::Area => self.area.origin(),
            Kept::Line => self.line.origin(),
            Kept::Window(_) => None,
        }
    }

    /// The step that freed the memory which a finding is about, or allocated what is left or held; None if no step of
    /// the run did, or if the finding is about something else. `a20` is that before the finding's step.
    pub fn origin_of(&self, a20: bool, finding: &Finding) -> Option<Origin>
        ensures { result ≡ origin_of self.now a20 finding.now }
    {
        match finding {
            Finding::FreeRead(_, segment, offset) | Finding::FreeWritten(_, segment, offset) => {
                self.of_paragraph(paragraph_of(a20, *segment, *offset))
            }
            Finding::FreedTwice(at) => self.of_paragraph(at.saturating_sub(1) as usize),
            Finding::NotFreed(kept) | Finding::Held(kept) => self.of_kept(kept),
            _ => None,
        }
    }
}

/// The paragraph of a byte, by A20.
fn paragraph_of(a20: bool, segment: u16, offset: u16) -> usize
    ensures { result ≡ linear a20 segment offset / 16 }
{
    let byte = FarAddress { segment, offset };
    (byte.linear(a20) / 16) as usize
}

/// The step since which the handle with this number in a table is in use.
fn of_entry(known: &[Since; 64], number: u16) -> Option<Origin>
    ensures { result ≡ origin_since (slice_index_or known.now number Unused) }
{
    match known.get(number as usize) {
        Some(since) => since.origin(),
        None => None,
    }
}
