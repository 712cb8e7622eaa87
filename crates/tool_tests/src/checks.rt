//! Assertions as calls: a test body with inline assertions takes many times longer to prove.
use std::fmt::Debug;
use std::process::Abort;

/// Aborts the test if the values differ.
pub fn equal<T: PartialEq + Debug + Drop>(rt: &impl Abort, got: T, want: T) {
    assert_eq!(rt; got, want);
}
