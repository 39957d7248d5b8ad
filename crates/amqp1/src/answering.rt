//! What answers a Begin of the peer's, by the bytes that ask for it.

ghost use Rattle.std.specs.Prelude.{◌≡◌};
ghost use Rattle.std.specs.Option.{option_map};
ghost use Rattle.amqp1.specs.Answering.{IfNone, NamesSettings, begin_parts};
ghost use Rattle.amqp1.specs.Reading.{Reads};

use crate::asking::settings_of;
use crate::reading;
use amqp_session::SessionSettings;
use amqp_types::{Begin, ReadError};
use std::alloc::Global;

/// The number of a session, the bytes of the Begin that names its settings, and the peer's frame behind its size. `None` exactly where the bytes do
/// not have this form.
pub(crate) fn parts(input: &[u8]) -> Option<(u32, &[u8], &[u8])>
    ensures { option_map (λ x. (x.0, x.1.now, x.2.now)) result ≡ begin_parts input.now }
{
    let (session, after) = reading::number(input)?;
    let (count, rest) = reading::number(after)?;
    let count = count as usize;
    if rest.len() < count {
        return None;
    }
    let (text, frame) = rest.split_at(count);
    Some((session, text, frame))
}

/// The settings that the Begin of these bytes names. `Malformed` exactly where they are no Begin, or one that answers another; `OutOfMemory` where
/// memory is refused.
pub(crate) fn settings(alloc: Global, text: &[u8]) -> Result<SessionSettings, ReadError>
    ensures { Reads (NamesSettings text.now) result }
{
    match reading::begin(alloc, text) {
        Ok(begin) => of_none(begin),
        Err(error) => Err(error),
    }
}

/// The settings of a Begin that answers none.
fn of_none(begin: Begin) -> Result<SessionSettings, ReadError>
    ensures { IfNone begin result }
{
    if begin.remote_channel.is_some() {
        drop(begin);
        return Err(ReadError::Malformed);
    }
    Ok(settings_of(begin))
}
