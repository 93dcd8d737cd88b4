//! Appending to a list of findings.

ghost use Rattle.std.specs.Prelude.{◌≡◌, ◌++◌, ◌∷◌, [], OnOk};

use dm_findings::Finding;
use std::alloc::AllocError;

/// Appends a finding to `out`. An `Err` is a failed allocation.
pub fn append_finding(out: &mut Vec<Finding>, finding: Finding) -> Result<(), AllocError>
    ensures { OnOk result (out.new.items ≡ out.old.items ++ finding ∷ []) }
{
    out.push(finding)?;
    Ok(())
}
