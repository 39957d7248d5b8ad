//! Places: where a field has its bytes.

/// Where bytes stand in others: from a place on, and up to another. Both are counted from the front of those others.
///
/// ```
/// let password = &input[place.from..place.to];
/// ```
#[derive(Clone, Copy, Debug, PartialEq, Eq)]
pub struct Place {
    /// How many bytes are before it.
    pub from: usize,
    /// How many bytes are before its end.
    pub to: usize,
}
