//! Numbers that name sessions.

/// The number of a session in an engine: 0 to 4294967295. The caller chooses it, and uses it for one session alone, also where that session
/// was forgotten. No frame carries it.
///
/// ```
/// let begin = Input::Begin(SessionNo(0), SessionSettings::new());
/// ```
#[derive(Clone, Copy, Debug, PartialEq, Eq, PartialOrd, Ord, Hash)]
pub struct SessionNo(pub u32);
