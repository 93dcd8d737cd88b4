//! What the program prints of its calls.
use anyhow::Result;

/// Reports a call in which an allocation failed. It is `as_said` if the call returned that error, and all
/// of the state afterwards is what the call's contract says.
pub(crate) fn tell_refused(rt: &impl Print, call: &str, as_said: bool) -> Result<()> {
    let left = if as_said { "memory" } else { "changed" };
    println!(rt; "{call}: {left}")?;
    Ok(())
}

/// Prints what a call returned.
pub(crate) fn tell(rt: &impl Print, call: &str, answer: &str) -> Result<()> {
    println!(rt; "{call}: {answer}")?;
    Ok(())
}
