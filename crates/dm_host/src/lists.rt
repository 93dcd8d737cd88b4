//! What a host's machine holds: the headers of the arena, and the handles of expanded and extended memory.
ghost use Rattle.std.specs.Prelude.{◌≡◌, IfOk, IfErr};
ghost use Rattle.dm_views.specs.inventory.Arena.{IsListedArena};
ghost use Rattle.dm_views.specs.inventory.Pages.{handle_records, window_records};
ghost use Rattle.dm_views.specs.inventory.Extended.{extended_records, upper_records};
ghost use Rattle.dm_host.specs.Hosts.{Shows, IsNotLoaded, IsNotListed};

use crate::host::Host;
use crate::refusal::Refusal;
use dm_views::inventory::{
    ArenaBlock, ExtendedBlock, PageHandle, UpperBlock, Window, list_arena, list_extended,
    list_handles, list_uppers, list_windows,
};
use std::alloc::Global;

impl Host {
    /// The headers of the arena, those of the first list and then those of upper memory where the first list does not
    /// lead to them, and the segment where a list breaks, as no header can follow there; None where all is whole.
    ///
    /// # Errors
    ///
    /// `NotLoaded` exactly where no program is loaded; else `Memory` if an allocation failed.
    pub fn blocks(&self, alloc: Global) -> Result<(Vec<ArenaBlock>, Option<u16>), Refusal>
        ensures ok { IfOk result (λ r. Shows self.now (λ s. IsListedArena s.upper s.memory r.0.items r.1)) }
        ensures err { IfErr result (IsNotListed self.now) }
    {
        let Some(machine) = self.machine() else {
            return Err(Refusal::NotLoaded);
        };
        let mut blocks = Vec::new(alloc);
        match list_arena(&mut blocks, machine.space(), machine.upper()) {
            Ok(broken) => Ok((blocks, broken)),
            Err(_) => Err(Refusal::Memory),
        }
    }

    /// The handles of expanded memory that are in use, in rising order.
    ///
    /// # Errors
    ///
    /// `NotLoaded` exactly where no program is loaded; else `Memory` if an allocation failed.
    pub fn page_handles(&self, alloc: Global) -> Result<Vec<PageHandle>, Refusal>
        ensures ok { IfOk result (λ handles. Shows self.now (λ s. handles.items ≡ handle_records s.ems)) }
        ensures err { IfErr result (IsNotListed self.now) }
    {
        let Some(machine) = self.machine() else {
            return Err(Refusal::NotLoaded);
        };
        let mut handles = Vec::new(alloc);
        match list_handles(&mut handles, machine.ems()) {
            Ok(()) => Ok(handles),
            Err(_) => Err(Refusal::Memory),
        }
    }

    /// What the four windows of the page frame show.
    ///
    /// # Errors
    ///
    /// `NotLoaded` exactly where no program is loaded.
    pub fn windows(&self) -> Result<[Window; 4], Refusal>
        ensures ok { IfOk result (λ windows. Shows self.now (λ s. windows ≡ window_records s.ems s.memory)) }
        ensures err { IfErr result (IsNotLoaded self.now) }
    {
        match self.machine() {
            Some(machine) => Ok(list_windows(machine.ems(), machine.space())),
            None => Err(Refusal::NotLoaded),
        }
    }

    /// The blocks of the handles of extended memory that are in use, in rising order of the handles.
    ///
    /// # Errors
    ///
    /// `NotLoaded` exactly where no program is loaded; else `Memory` if an allocation failed.
    pub fn extended_blocks(&self, alloc: Global) -> Result<Vec<ExtendedBlock>, Refusal>
        ensures ok { IfOk result (λ blocks. Shows self.now (λ s. blocks.items ≡ extended_records s.xms s.memory)) }
        ensures err { IfErr result (IsNotListed self.now) }
    {
        let Some(machine) = self.machine() else {
            return Err(Refusal::NotLoaded);
        };
        let mut blocks = Vec::new(alloc);
        match list_extended(&mut blocks, machine.xms(), machine.space()) {
            Ok(()) => Ok(blocks),
            Err(_) => Err(Refusal::Memory),
        }
    }

    /// The upper memory blocks of the extended memory driver, by rising segment.
    ///
    /// # Errors
    ///
    /// `NotLoaded` exactly where no program is loaded; else `Memory` if an allocation failed.
    pub fn upper_blocks(&self, alloc: Global) -> Result<Vec<UpperBlock>, Refusal>
        ensures ok { IfOk result (λ blocks. Shows self.now (λ s. blocks.items ≡ upper_records s.xms)) }
        ensures err { IfErr result (IsNotListed self.now) }
    {
        let Some(machine) = self.machine() else {
            return Err(Refusal::NotLoaded);
        };
        let mut blocks = Vec::new(alloc);
        match list_uppers(&mut blocks, machine.xms()) {
            Ok(()) => Ok(blocks),
            Err(_) => Err(Refusal::Memory),
        }
    }

    /// Whether address line A20 is on, and whether the high memory area is taken.
    ///
    /// # Errors
    ///
    /// `NotLoaded` exactly where no program is loaded.
    pub fn high_memory(&self) -> Result<(bool, bool), Refusal>
        ensures ok { IfOk result (λ r. Shows self.now (λ s. (r.0 ≡ s.memory.a20) × (r.1 ≡ s.xms.area))) }
        ensures err { IfErr result (IsNotLoaded self.now) }
    {
        match self.machine() {
            Some(machine) => Ok((machine.space().a20(), machine.xms().hma())),
            None => Err(Refusal::NotLoaded),
        }
    }
}
