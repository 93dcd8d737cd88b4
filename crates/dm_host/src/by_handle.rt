//! Reading the bytes of a page of expanded memory, or of a block of extended memory, by its handle, whether a window
//! shows it or not.
ghost use Rattle.std.specs.Prelude.{◌≡◌, IfErr, OnOk, OnErr, length};
ghost use Rattle.dm_host.specs.Hosts.{Shows};
ghost use Rattle.dm_host.specs.ByHandle.{FillsBuffer, ReadsPage, IsPageUnread, ReadsBlock, IsBlockUnread};

use crate::host::Host;
use crate::refusal::Refusal;
use dm_machine::tables_and_memory_are_consistent;

/// Fills the buffer with the bytes from an offset on and returns true, if there are as many; otherwise returns false,
/// and the buffer stays.
fn fill(bytes: &[u8], offset: usize, buffer: &mut [u8]) -> bool
    ensures { FillsBuffer bytes.now offset buffer.old buffer.new result }
{
    if offset > bytes.len() || buffer.len() > bytes.len() - offset {
        return false;
    }
    buffer.copy_from_slice(&bytes[offset..offset + buffer.len()]);
    true
}

impl Host {
    /// Fills the buffer with bytes of a logical page of a handle of expanded memory, from an offset in the page on. A
    /// page has 16,384 bytes.
    ///
    /// # Errors
    ///
    /// In this order: `NotLoaded` where no program is loaded; `NoHandle` where the handle is not in use; `NoPage` where
    /// it has no such page; `PastEnd` where not all of the bytes are in the page. The buffer stays then.
    pub fn read_page(
        &self,
        handle: u16,
        page: u16,
        offset: usize,
        buffer: &mut [u8],
    ) -> Result<(), Refusal>
        ensures ok { OnOk result (Shows self.now (λ s. ReadsPage s handle page offset buffer.old buffer.new)) }
        ensures err { IfErr result (IsPageUnread self.now handle page offset (length buffer.old)) }
        ensures kept { OnErr result (buffer.new ≡ buffer.old) }
    {
        let Some(machine) = self.machine() else {
            return Err(Refusal::NotLoaded);
        };
        tables_and_memory_are_consistent(machine);
        if machine.ems().slot(handle).is_none() {
            return Err(Refusal::NoHandle);
        }
        let Some(block) = machine.ems().page(handle, page) else {
            return Err(Refusal::NoPage);
        };
        if fill(machine.space().bytes(block), offset, buffer) {
            Ok(())
        } else {
            Err(Refusal::PastEnd)
        }
    }

    /// Fills the buffer with bytes of the block of a handle of extended memory, from an offset in the block on. A block
    /// of n KiB has 1,024 n bytes.
    ///
    /// # Errors
    ///
    /// In this order: `NotLoaded` where no program is loaded; `NoHandle` where the handle is not in use; `PastEnd`
    /// where not all of the bytes are in its block. The buffer stays then.
    pub fn read_block(&self, handle: u16, offset: usize, buffer: &mut [u8]) -> Result<(), Refusal>
        ensures ok { OnOk result (Shows self.now (λ s. ReadsBlock s handle offset buffer.old buffer.new)) }
        ensures err { IfErr result (IsBlockUnread self.now handle offset (length buffer.old)) }
        ensures kept { OnErr result (buffer.new ≡ buffer.old) }
    {
        let Some(machine) = self.machine() else {
            return Err(Refusal::NotLoaded);
        };
        tables_and_memory_are_consistent(machine);
        let Some(entry) = machine.xms().handle(handle) else {
            return Err(Refusal::NoHandle);
        };
        if fill(machine.space().bytes(entry.block), offset, buffer) {
            Ok(())
        } else {
            Err(Refusal::PastEnd)
        }
    }
}
