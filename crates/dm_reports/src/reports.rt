//! The text of the report of `dm check`. Each function appends its text to `out`; an `Err` is a failed allocation.

ghost use Rattle.std.specs.Prelude.{◌≡◌, ◌++◌, OnOk};
ghost use Rattle.std.specs.List.{flat_map};
ghost use Rattle.dm_reports.specs.Reports.{again_line, left_out_line, lines_text, report_text, summary_text, omitted_line};

use crate::texts::{put_counted, put_found, put_number, put_repeated};
use dm_findings::{Listed, Report};
use std::alloc::AllocError;

/// Appends a line for each of these findings, in their order.
///
/// # Errors
///
/// `AllocError` if an allocation fails.
pub fn put_lines(out: &mut Vec<u8>, lines: &[Listed]) -> Result<(), AllocError>
    ensures { OnOk result (out.new.items ≡ out.old.items ++ lines_text lines.now) }
{
    for line in lines {
        put_found(out, &line.found)?;
    }
    Ok(())
}

/// Appends the line about the further occurrences of a finding, if there are any.
fn put_again(out: &mut Vec<u8>, line: &Listed) -> Result<(), AllocError>
    ensures { OnOk result (out.new.items ≡ out.old.items ++ again_line line.now) }
{
    if line.more == 0 {
        return Ok(());
    }
    put_repeated(out, line)
}

/// Appends a line about each finding that occurs again, in their order.
fn put_all_again(out: &mut Vec<u8>, lines: &[Listed]) -> Result<(), AllocError>
    ensures { OnOk result (out.new.items ≡ out.old.items ++ flat_map again_line lines.now) }
{
    for line in lines {
        put_again(out, line)?;
    }
    Ok(())
}

/// Appends the line about findings that are left out: how many they are.
fn put_left_out(out: &mut Vec<u8>, omitted: u64) -> Result<(), AllocError>
    ensures { OnOk result (out.new.items ≡ out.old.items ++ left_out_line omitted) }
{
    out.extend_from_slice(b"omitted: ")?;
    put_counted(out, omitted, b"finding")?;
    out.extend_from_slice(b"\n")
}

/// Appends the line about the findings that are left out, if there are any.
///
/// # Errors
///
/// `AllocError` if an allocation fails.
pub fn put_omitted(out: &mut Vec<u8>, omitted: u64) -> Result<(), AllocError>
    ensures { OnOk result (out.new.items ≡ out.old.items ++ omitted_line omitted) }
{
    if omitted == 0 {
        return Ok(());
    }
    put_left_out(out, omitted)
}

/// Appends what follows the lines of the findings that a report lists: a line for each of them that is repeated; a line
/// about those that it leaves out, if there are any; and a line with the numbers of all errors and notes.
///
/// # Errors
///
/// `AllocError` if an allocation fails.
#[tactic(auto, unfolding(crate::specs::Reports::summary_text))]
pub fn put_summary(out: &mut Vec<u8>, report: &Report) -> Result<(), AllocError>
    ensures { OnOk result (out.new.items ≡ out.old.items ++ summary_text report.now) }
{
    put_all_again(out, report.listed())?;
    put_omitted(out, report.omitted())?;
    out.extend_from_slice(b"errors: ")?;
    put_number(out, report.errors())?;
    out.extend_from_slice(b", notes: ")?;
    put_number(out, report.notes())?;
    out.extend_from_slice(b"\n")
}

/// Appends the text of a report: a line for each finding that it lists, in the order in which they happened, and its
/// summary.
///
/// # Errors
///
/// `AllocError` if an allocation fails.
#[tactic(auto, unfolding(crate::specs::Reports::report_text))]
pub fn put_report(out: &mut Vec<u8>, report: &Report) -> Result<(), AllocError>
    ensures { OnOk result (out.new.items ≡ out.old.items ++ report_text report.now) }
{
    put_lines(out, report.listed())?;
    put_summary(out, report)
}
