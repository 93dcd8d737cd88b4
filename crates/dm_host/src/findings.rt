//! The findings of the last checked run of a host.
ghost use Rattle.std.specs.Prelude.{◌≡◌, ◌<◌, IfOk, IfErr, OnOk, map, length};
ghost use Rattle.dm_reports.specs.Texts.{found_line};
ghost use Rattle.dm_views.specs.inventory.Findings.{record_of};
ghost use Rattle.dm_host.specs.declared.refusal.Refusal.TheVariants.{Memory};
ghost use Rattle.dm_host.specs.Findings.{TellsFinding, IsUntold};

use crate::host::Host;
use crate::kept::KeptReport;
use crate::refusal::Refusal;
use dm_findings::Found;
use dm_reports::put_found;
use dm_views::inventory::{FoundRecord, list_findings};
use std::alloc::{AllocError, Global};

/// The line of a finding, as `dm check` prints it. `AllocError` if an allocation fails.
fn line_of(alloc: Global, found: &Found) -> Result<Vec<u8>, AllocError>
    ensures { IfOk result (λ text. text.items ≡ found_line found.now) }
{
    let mut text = Vec::new(alloc);
    put_found(&mut text, found)?;
    Ok(text)
}

impl Host {
    /// The report of the last checked run that had one; one of no findings before the first.
    pub fn report(&self) -> &KeptReport
        ensures { result.now ≡ self.now.report }
    {
        &self.report
    }

    /// The records of the findings that the report of the last checked run lists, in the order in which they happened;
    /// none before the first one.
    ///
    /// # Errors
    ///
    /// `Memory` if an allocation failed.
    pub fn findings(&self, alloc: Global) -> Result<Vec<FoundRecord>, Refusal>
        ensures ok { IfOk result (λ records. records.items ≡ map record_of self.now.report.listed) }
        ensures err { IfErr result (λ why. why ≡ Memory) }
    {
        let mut records = Vec::new(alloc);
        match list_findings(&mut records, self.report.listed()) {
            Ok(()) => Ok(records),
            Err(_) => Err(Refusal::Memory),
        }
    }

    /// The line of finding `k`, from 0, of the report of the last checked run, as it stands in the report.
    ///
    /// # Errors
    ///
    /// `NoFinding` exactly where the report lists no finding `k`; else `Memory` if an allocation failed.
    pub fn finding_line(&self, alloc: Global, k: usize) -> Result<Vec<u8>, Refusal>
        ensures ok { IfOk result (λ text. TellsFinding self.now k text.items) }
        ensures err { IfErr result (IsUntold self.now k) }
    {
        let Some(listed) = self.report.listed().get(k) else {
            return Err(Refusal::NoFinding);
        };
        match line_of(alloc, &listed.found) {
            Ok(text) => Ok(text),
            Err(_) => Err(Refusal::Memory),
        }
    }
}
