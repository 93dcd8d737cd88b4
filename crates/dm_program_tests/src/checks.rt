//! The comparisons that the tests use. (They are functions, because an assertion's messages are costly to prove: here
//! they are proved once.)
use std::fmt::Debug;
use std::process::Abort;

/// Compares two values; `what` names them in the message.
pub(crate) fn same<T: PartialEq + Debug + Copy>(rt: &impl Abort, what: &str, found: T, wanted: T) {
    assert_eq!(rt; found, wanted, "{what}");
}

/// Compares two values of a row; `what` names them in the message.
pub(crate) fn same_of<T: PartialEq + Debug + Copy>(
    rt: &impl Abort,
    row: &str,
    what: &str,
    found: T,
    wanted: T,
) {
    assert_eq!(rt; found, wanted, "{row}: {what}");
}
