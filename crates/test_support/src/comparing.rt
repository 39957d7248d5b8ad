//! Values that are compared and dropped.

/// Whether both are the same. Where they are dropped, the proof needs none of their variants.
pub fn are_same<T: PartialEq + Drop>(given: T, want: T) -> bool {
    given == want
}
