//! The report of `dm check`: findings in the order in which they happened, each once, and how often each is repeated.

ghost use Rattle.std.specs.Prelude.{◌≡◌, ◌++◌, ◌∷◌, [], false, map, count_by, List, OnOk, OnErr};
ghost use Rattle.std.specs.List.{list_any};
ghost use Rattle.dm_findings.specs.declared.finding.Found.{Found};
ghost use Rattle.dm_findings.specs.Report.{report_of};
ghost use Rattle.dm_findings.specs.inner.Listing.{is_again, is_kind, counted, Lists};

use crate::finding::Found;
use crate::repeats::is_repeated;
use std::alloc::{AllocError, Global};
use std::marker::Model;

/// How many errors, and how many notes, a report lists at most.
const MOST: usize = 100;

/// A finding that a report lists.
#[derive(Clone, Copy, Debug)]
pub struct Listed {
    pub found: Found,
    /// How many findings after it repeat it, at most 2^64 - 1.
    pub more: u64,
    /// The step of the last finding that repeats it; its own if none does.
    pub last: u64,
}

/// Of the errors, and of the notes, the first 100 that repeat none before them, in the order in which they happened;
/// how many of each there are, repetitions included; and how many are neither listed nor repeat one that is. No number
/// goes over 2^64 - 1.
///
/// Contracts see the findings that are listed and the three numbers.
#[derive(Drop)]
pub struct Report {
    listed: Vec<Listed>,
    errors: u64,
    notes: u64,
    omitted: u64,
}

impl Model for Report {
    ghost use Rattle.dm_findings.specs.Report.{Reported};

    ghost Value = { Reported };

    ghost view = { λ r. record {
      listed = r.listed.items;
      errors = r.errors;
      notes = r.notes;
      omitted = r.omitted;
    } };
}

/// Whether the finding repeats the one of a line.
fn is_again(line: &Listed, found: &Found) -> bool
    ensures { result ≡ is_again found.now line.now }
{
    is_repeated(&line.found, found)
}

/// Whether the finding repeats the one of some line.
fn is_known(lines: &[Listed], found: &Found) -> bool
    ensures { result ≡ list_any (is_again found.now) lines.now }
{
    lines.iter().any(|line| is_again(line, found))
}

/// Whether a line's finding is an error, or, if `error` is false, a note.
fn is_kind(line: &Listed, error: bool) -> bool
    ensures { result ≡ is_kind error line.now }
{
    if error {
        line.found.finding.is_error()
    } else {
        !line.found.finding.is_error()
    }
}

/// The number of lines whose finding is an error, or, if `error` is false, a note.
fn count_kind(lines: &[Listed], error: bool) -> usize
    ensures { result ≡ count_by (is_kind error) lines.now }
{
    lines.iter().filter(|line| is_kind(line, error)).count()
}

/// Counts the finding at a line, if it repeats the one of the line.
fn count_at(line: &mut Listed, found: &Found)
    ensures { line.new ≡ counted found.now line.old }
{
    if is_again(line, found) {
        line.more = line.more.saturating_add(1);
        line.last = found.step;
    }
}

/// Counts the finding at each line whose finding it repeats.
fn count_again(lines: &mut [Listed], found: &Found)
    ensures { lines.new ≡ map (counted found.now) lines.old }
{
    for line in lines.iter_mut() {
        count_at(line, found);
    }
}

impl Report {
    /// A report with no finding. It allocates nothing.
    pub fn new(alloc: Global) -> Report
        ensures { result ≡ report_of [] }
    {
        Report {
            listed: Vec::new(alloc),
            errors: 0,
            notes: 0,
            omitted: 0,
        }
    }

    /// Lists a finding that repeats none that is listed, or leaves it out if 100 of its kind are listed.
    fn list(&mut self, found: Found) -> Result<(), AllocError>
        requires { list_any (is_again found) self.old.listed ≡ false }
        ensures ok { OnOk result (Lists found self.old self.new) }
        ensures err { OnErr result (self.new ≡ self.old) }
    {
        if count_kind(&self.listed, found.finding.is_error()) < MOST {
            self.listed.push(Listed {
                found,
                more: 0,
                last: found.step,
            })?;
        } else {
            self.omitted = self.omitted.saturating_add(1);
        }
        Ok(())
    }

    /// Lists a finding, counts it as a repetition, or leaves it out, without counting it as an error or a note.
    fn enter(&mut self, found: Found) -> Result<(), AllocError>
        ensures ok { OnOk result (Lists found self.old self.new) }
        ensures err { OnErr result (self.new ≡ self.old) }
    {
        if is_known(&self.listed, &found) {
            count_again(&mut self.listed, &found);
            return Ok(());
        }
        self.list(found)
    }

    /// Adds a finding to the report. It is listed if it repeats none that is listed, and fewer than 100 of its kind
    /// (errors or notes) are; otherwise it is counted as a repetition, or as left out. It is counted as an error or a
    /// note in any case. A number that is 2^64 - 1 stays.
    ///
    /// An `Err` says that an allocation failed, and that nothing has changed.
    pub fn add(&mut self, found: Found) -> Result<(), AllocError>
        ensures ok { OnOk result ((fs : List Found) → self.old ≡ report_of fs → self.new ≡ report_of (fs ++ found
            ∷ [])) }
        ensures err { OnErr result (self.new ≡ self.old) }
    {
        self.enter(found)?;
        if found.finding.is_error() {
            self.errors = self.errors.saturating_add(1);
        } else {
            self.notes = self.notes.saturating_add(1);
        }
        Ok(())
    }

    /// The findings that are listed, in the order in which they happened, each with its repetitions.
    pub fn listed(&self) -> &[Listed]
        ensures { result.now ≡ self.now.listed }
    {
        &self.listed
    }

    /// How many errors were added, listed or not; at 2^64 - 1 the number stays.
    pub fn errors(&self) -> u64
        ensures { result ≡ self.now.errors }
    {
        self.errors
    }

    /// How many notes were added, listed or not; at 2^64 - 1 the number stays.
    pub fn notes(&self) -> u64
        ensures { result ≡ self.now.notes }
    {
        self.notes
    }

    /// How many findings were added that are neither listed nor repeat one that is; at 2^64 - 1 the number stays.
    pub fn omitted(&self) -> u64
        ensures { result ≡ self.now.omitted }
    {
        self.omitted
    }
}
