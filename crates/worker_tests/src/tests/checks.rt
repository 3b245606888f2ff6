//! The assertion that tests share: it fails with the name of its row.
use std::process::Abort;

/// Fails the test if the row does not hold.
pub(super) fn check(rt: &impl Abort, row: &str, holds: bool) {
    assert!(rt; holds, "{row}");
}
