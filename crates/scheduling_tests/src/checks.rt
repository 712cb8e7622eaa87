//! Assertions as functions, because an assertion written out in a test makes its proof many times slower.
ghost use Rattle.std.specs.Prelude.{IsTrue};

use std::fmt::Debug;
use std::process::Abort;

/// Fails the test if the two differ.
pub fn equal<T: PartialEq + Debug + Drop>(rt: &impl Abort, got: T, want: T) {
    assert_eq!(rt; got, want);
}

/// Fails the test if the two differ, and names the row.
pub fn equal_at<T: PartialEq + Debug + Drop>(rt: &impl Abort, got: T, want: T, row: usize) {
    assert_eq!(rt; got, want, "in row {row}");
}

/// Fails the test if the items differ.
pub fn equal_items<T: PartialEq + Debug>(rt: &impl Abort, got: &[T], want: &[T]) {
    assert_eq!(rt; got, want);
}

/// Fails the test if the condition is false.
pub fn holds(rt: &impl Abort, is: bool)
    ensures { IsTrue is }
{
    assert!(rt; is);
}

/// Fails the test unless each result is true or this fault, and at least one is true.
pub fn expect_memory_fault<F: PartialEq + Debug + Copy>(
    rt: &impl Abort,
    answers: [Result<bool, F>; 2],
    memory: F,
) {
    for answer in &answers {
        assert!(rt; *answer == Ok(true) || *answer == Err(memory));
    }
    assert!(rt; answers.contains(&Ok(true)));
}
