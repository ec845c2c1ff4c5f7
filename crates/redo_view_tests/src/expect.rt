//! The assertion of the tests. It is generic, so it is proved once and not for each type that is compared.
use std::fmt::Debug;
use std::process::Abort;

/// Asserts that a value is the wanted one. A failure also prints the case.
pub fn expect_eq<T: PartialEq + Debug + Copy, C: Debug + Copy>(
    rt: &impl Abort,
    found: T,
    want: T,
    case: C,
) {
    assert_eq!(rt; found, want, "{case:?}");
}
