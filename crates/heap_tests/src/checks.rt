//! Asserts in functions of their own: the prover takes many times longer for a body that contains them.
ghost use Rattle.std.specs.Prelude.{IsTrue};

use std::fmt::Debug;
use std::process::Abort;

/// Ends the test if the two differ.
pub fn equal<T: PartialEq + Debug + Drop>(rt: &impl Abort, got: T, want: T) {
    assert_eq!(rt; got, want);
}

/// Ends the test if the two differ, and reports `at`.
pub fn equal_at<T: PartialEq + Debug + Drop>(rt: &impl Abort, got: T, want: T, at: usize) {
    assert_eq!(rt; got, want, "at {at}");
}

/// Ends the test if the words differ.
pub fn equal_words(rt: &impl Abort, got: &[u64], want: &[u64]) {
    assert_eq!(rt; got, want);
}

/// Ends the test if the bytes differ.
pub fn equal_bytes(rt: &impl Abort, got: &[u8], want: &[u8]) {
    assert_eq!(rt; got, want);
}

/// Ends the test if this doesn't hold.
pub fn holds(rt: &impl Abort, is: bool)
    ensures { IsTrue is }
{
    assert!(rt; is);
}

/// Ends the test if this doesn't hold, and reports `at`.
pub fn holds_at(rt: &impl Abort, is: bool, at: usize) {
    assert!(rt; is, "at {at}");
}
