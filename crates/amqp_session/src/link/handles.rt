//! The output handles that are taken. The one that was freed last is given out first.

ghost use Rattle.std.specs.Prelude.{◌≡◌, true, IsSome, is_some, Some, None, option_copied, string_bytes};
ghost use Rattle.std.specs.FinMap as map;
ghost use Rattle.slab.specs.Slab.{HasRoomFor};
ghost use Rattle.amqp_session.specs.Links.{handles_of};
ghost use Rattle.amqp_session.specs.Linking.{live_name, is_awaited};

use slab::Slab;

/// How a handle is taken.
#[derive(Drop)]
pub enum HandleSlot {
    /// By the live link of this name.
    Live(String),
    /// Its last link is gone, and the peer's answer to the detach is awaited.
    Awaited,
}

/// The handle that is given out next.
pub(super) fn next(handles: &Slab<HandleSlot>) -> usize
    ensures { result ≡ handles.now.vacant_key }
{
    handles.vacant_key()
}

/// The name of the live link that has the handle. `None` where none has it.
pub(super) fn name_of(handles: &Slab<HandleSlot>, handle: u32) -> Option<&str>
    ensures { option_copied result ≡ live_name (map.get (handles_of handles.now) handle) }
{
    match handles.get(handle as usize) {
        None => None,
        Some(HandleSlot::Awaited) => None,
        Some(HandleSlot::Live(name)) => Some(name.as_str()),
    }
}

/// Whether a live link has the handle.
pub(super) fn is_live(handles: &Slab<HandleSlot>, handle: u32) -> bool
    ensures { result ≡ is_some (live_name (map.get (handles_of handles.now) handle)) }
{
    match handles.get(handle as usize) {
        None => false,
        Some(HandleSlot::Awaited) => false,
        Some(HandleSlot::Live(_)) => true,
    }
}

/// Whether the peer's answer is awaited for the handle.
pub(super) fn awaits(handles: &Slab<HandleSlot>, handle: u32) -> bool
    ensures { result ≡ is_awaited (map.get (handles_of handles.now) handle) }
{
    match handles.get(handle as usize) {
        None => false,
        Some(HandleSlot::Awaited) => true,
        Some(HandleSlot::Live(_)) => false,
    }
}

/// Takes a free handle for the live link of a name. Its room was made before.
pub(super) fn take(handles: &mut Slab<HandleSlot>, name: String) -> usize
    requires { HasRoomFor handles.old 1 }
    ensures next { result ≡ handles.old.vacant_key }
    ensures free { map.get (handles_of handles.old) result ≡ None }
    ensures taken { handles_of handles.new ≡ map.insert (handles_of handles.old) result (Some (string_bytes name)) }
{
    handles.insert_reserved(HandleSlot::Live(name))
}

/// Frees the handle of a live link, and gives the link's name.
pub(super) fn release(handles: &mut Slab<HandleSlot>, handle: u32) -> String
    requires { IsSome (live_name (map.get (handles_of handles.old) handle)) }
    ensures name { live_name (map.get (handles_of handles.old) handle) ≡ Some (string_bytes result) }
    ensures freed { handles_of handles.new ≡ map.remove (handles_of handles.old) handle }
    ensures next { handles.new.vacant_key ≡ handle }
    ensures room { HasRoomFor handles.new 1 }
{
    match handles.remove(handle as usize) {
        HandleSlot::Live(name) => name,
        HandleSlot::Awaited => unreachable!(),
    }
}

/// The handle of a live link stays taken until the peer answers, and the link's name is given.
pub(super) fn leave(handles: &mut Slab<HandleSlot>, handle: u32) -> String
    requires { IsSome (live_name (map.get (handles_of handles.old) handle)) }
    ensures name { live_name (map.get (handles_of handles.old) handle) ≡ Some (string_bytes result) }
    ensures awaited { handles_of handles.new ≡ map.insert (handles_of handles.old) handle None }
{
    let name = release(handles, handle);
    handles.insert_reserved(HandleSlot::Awaited);
    name
}

/// A handle for which the peer's answer was awaited is free, and given out next.
pub(super) fn free(handles: &mut Slab<HandleSlot>, handle: u32)
    ensures freed { handles_of handles.new ≡ map.remove (handles_of handles.old) handle }
    ensures next { is_awaited (map.get (handles_of handles.old) handle) ≡ true → handles.new.vacant_key ≡ handle }
{
    handles.try_remove(handle as usize);
}
