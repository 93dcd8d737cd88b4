//! The report of the last checked run, as a host keeps it.
ghost use Rattle.std.specs.Prelude.{◌≡◌, IfOk};
ghost use Rattle.dm_host.specs.Hosts.{no_report};

use dm_findings::{Listed, Report};
use std::alloc::{AllocError, Global};
use std::marker::Model;

/// A report: the findings that it lists, how many errors and notes there are in all, and how many findings are neither
/// listed nor repeat one that is.
#[derive(Drop)]
pub struct KeptReport {
    listed: Vec<Listed>,
    errors: u64,
    notes: u64,
    omitted: u64,
}

impl Model for KeptReport {
    ghost use Rattle.dm_findings.specs.Report.{Reported};

    ghost Value = { Reported };

    ghost view = { λ k. record {
      listed = k.listed.items;
      errors = k.errors;
      notes = k.notes;
      omitted = k.omitted;
    } };
}

impl KeptReport {
    /// A report of no findings.
    pub(crate) fn new(alloc: Global) -> KeptReport
        ensures { result ≡ no_report }
    {
        KeptReport {
            listed: Vec::new(alloc),
            errors: 0,
            notes: 0,
            omitted: 0,
        }
    }

    /// The same report. `AllocError` if an allocation fails.
    pub(crate) fn of(alloc: Global, report: &Report) -> Result<KeptReport, AllocError>
        ensures { IfOk result (λ kept. kept ≡ report.now) }
    {
        Ok(KeptReport {
            listed: Vec::from_slice(alloc, report.listed())?,
            errors: report.errors(),
            notes: report.notes(),
            omitted: report.omitted(),
        })
    }

    /// The same report once more. `AllocError` if an allocation fails.
    pub(crate) fn duplicate(&self, alloc: Global) -> Result<KeptReport, AllocError>
        ensures { IfOk result (λ kept. kept ≡ self.now) }
    {
        Ok(KeptReport {
            listed: Vec::from_slice(alloc, self.listed.as_slice())?,
            errors: self.errors,
            notes: self.notes,
            omitted: self.omitted,
        })
    }

    /// The findings that are listed, in the order in which they happened.
    pub fn listed(&self) -> &[Listed]
        ensures { result.now ≡ self.now.listed }
    {
        self.listed.as_slice()
    }

    /// How many errors there are, listed or not.
    pub fn errors(&self) -> u64
        ensures { result ≡ self.now.errors }
    {
        self.errors
    }

    /// How many notes there are, listed or not.
    pub fn notes(&self) -> u64
        ensures { result ≡ self.now.notes }
    {
        self.notes
    }

    /// How many findings are neither listed nor repeat one that is.
    pub fn omitted(&self) -> u64
        ensures { result ≡ self.now.omitted }
    {
        self.omitted
    }
}
