//! What a test asks of values, by calls in place of macros (CONTRIBUTING.md, "What costs the prover").

use std::fmt::Debug;
use std::process::Abort;

/// Stops the test where two values differ, and says what they are.
pub fn same<T: PartialEq + Debug + Copy>(rt: &impl Abort, found: T, wanted: T) {
    assert_eq!(rt; found, wanted);
}

/// Stops the test where this is not so.
pub fn holds(rt: &impl Abort, is_so: bool) {
    assert!(rt; is_so);
}
