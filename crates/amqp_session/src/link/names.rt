//! The live links by name.

ghost use Rattle.std.specs.Prelude.{◌≡◌, ◌<◌, Option, None, option_copied, option_map, is_some, IsSome, IfNone, IfSome, string_bytes};
ghost use Rattle.std.specs.FinMap as map;
ghost use Rattle.indexmap.specs.IndexMap.{spare, hasher_of};
ghost use Rattle.amqp_session.specs.declared.link.AttachedLink.{AttachedLink};
ghost use Rattle.amqp_session.specs.Links.{names_of};
ghost use Rattle.amqp_session.specs.Linking.{AttachAsked, WaitAsked, IsWaited, AttachRefused};
ghost use Rattle.amqp_session.specs.Room.{NotLacking};

use super::{AttachedLink, LiveLink};
use crate::error::{LinkRelayError, SessionInnerError};
use crate::keys::KeyHash;
use crate::numbers::{InputHandle, OutputHandle};
use crate::relay::LinkRelay;
use amqp_types::Attach;
use indexmap::IndexMap;

/// The output handle of a live link.
pub(super) fn handle_of<R: Drop>(
    names: &IndexMap<String, LiveLink<R>, KeyHash>,
    name: &str,
) -> Option<OutputHandle>
    ensures { result ≡ option_map (λ n. n.handle) (map.get (names_of names.now.entries) name.now) }
{
    match names.get(name) {
        None => None,
        Some(link) => Some(link.handle),
    }
}

/// The live link of a name. It is looked for first at the index where it may be.
pub(super) fn of<'a, R: Drop>(
    names: &'a IndexMap<String, LiveLink<R>, KeyHash>,
    hint: usize,
    name: &str,
) -> Option<&'a LiveLink<R>>
    ensures { option_copied result ≡ map.get (names_of names.now.entries) name.now }
{
    if let Some((found, link)) = names.get_index(hint) {
        if found.as_str() == name {
            return Some(link);
        }
    }
    names.get(name)
}

/// Whether a relay waits for the link.
fn is_waited<R: Drop>(link: &LiveLink<R>) -> bool
    ensures { result ≡ is_some link.now.waiting }
{
    link.waiting.is_some()
}

/// Why the attach of a name is refused before a relay is asked: no live link has the name, or no relay waits for it.
pub(super) fn refusal<R: Drop>(
    names: &IndexMap<String, LiveLink<R>, KeyHash>,
    name: &str,
) -> Option<SessionInnerError>
    ensures none { IfNone result (IsWaited (map.get (names_of names.now.entries) name.now)) }
    ensures some { IfSome result (λ e. (old : Option (AttachedLink R)) → AttachRefused old (map.get (names_of names.now.entries) name.now) e) }
    ensures memory { IfSome result NotLacking }
{
    match names.get(name) {
        None => Some(SessionInnerError::RemoteAttachingLinkNameNotFound),
        Some(link) => {
            if is_waited(link) {
                None
            } else {
                Some(SessionInnerError::HandleInUse)
            }
        }
    }
}

/// A link becomes live by a name that no live link has. Its room was made before.
pub(super) fn put<R: Drop>(
    names: &mut IndexMap<String, LiveLink<R>, KeyHash>,
    name: String,
    link: LiveLink<R>,
)
    requires room { 0 < spare names.old }
    requires free { map.get (names_of names.old.entries) (string_bytes name) ≡ None }
    ensures put { names_of names.new.entries ≡ map.insert (names_of names.old.entries) (string_bytes name) link }
    ensures hasher { hasher_of names.new ≡ hasher_of names.old }
{
    names.insert(name, link).unwrap();
}

/// A live link is gone, and is handed back with the relay that waits.
pub(super) fn remove<R: Drop>(
    names: &mut IndexMap<String, LiveLink<R>, KeyHash>,
    name: &str,
) -> Option<LiveLink<R>>
    ensures removed { names_of names.new.entries ≡ map.remove (names_of names.old.entries) name.now }
    ensures left { result ≡ map.get (names_of names.old.entries) name.now }
    ensures hasher { hasher_of names.new ≡ hasher_of names.old }
{
    let left = names.swap_remove(name);
    left
}

/// Asks the relay that waits for a link: on success it waits no longer, and the link has this input handle.
fn ask<R: LinkRelay>(
    link: &mut LiveLink<R>,
    attach: Attach,
    input: InputHandle,
) -> Result<AttachedLink<R>, LinkRelayError>
    requires { IsSome link.old.waiting }
    ensures { WaitAsked R.gives.attach_gives link.old attach input result link.new }
{
    let mut relay = link.waiting.take().unwrap();
    match relay.on_incoming_attach(attach) {
        Ok(()) => {
            link.input = Some(input);
            Ok(AttachedLink {
                handle: link.handle,
                relay,
            })
        }
        Err(error) => {
            link.waiting = Some(relay);
            Err(error)
        }
    }
}

/// Asks the relay that waits under the name of an attach: on success it waits no longer, and its link has this input handle.
pub(super) fn attach<R: LinkRelay>(
    names: &mut IndexMap<String, LiveLink<R>, KeyHash>,
    attach: Attach,
    input: InputHandle,
) -> Result<AttachedLink<R>, LinkRelayError>
    requires { IsWaited (map.get (names_of names.old.entries) attach.name) }
    ensures asked { AttachAsked R.gives.attach_gives (names_of names.old.entries) attach input result (names_of names.new.entries) }
    ensures hasher { hasher_of names.new ≡ hasher_of names.old }
{
    let link = names.get_mut(attach.name.as_str()).unwrap();
    ask(link, attach, input)
}
