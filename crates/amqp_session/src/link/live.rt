//! The calls of a session for its links: allotment, release, attach and detach.

ghost use Rattle.std.specs.Prelude.{◌≡◌, ◌<◌, ◌^◌, Option, Some, None, IfOk, IfErr, IfSome, IfNone, OnOk, OnErr, if◌then◌else◌, is_some, option_map, string_bytes};
ghost use Rattle.std.specs.FinMap as map;
ghost use Rattle.amqp_session.specs.Links.{put_at, attached_at};
ghost use Rattle.amqp_session.specs.Linking.{named_at, link_at, name_at, output_at, input_handle_at, while_under, linked, IsFull, Releases, Leaves, Attaches, Detaches, awaits};
ghost use Rattle.amqp_session.specs.Relay.{AttachQuestion, DetachQuestion};
ghost use Rattle.amqp_session.specs.Room.{AttachLacks, LacksPlace, has_accepted};

use super::handles::{self, HandleSlot};
use super::leaving::Leaving;
use super::{AttachedLink, Links, LiveLink, inputs, names};
use crate::error::{AllocLinkError, SessionInnerError};
use crate::keys;
use crate::numbers::{InputHandle, OutputHandle};
use crate::relay::LinkRelay;
use amqp_memory::{more_in_map, more_in_slab, text_again};
use amqp_types::{Attach, Detach};

impl<R: LinkRelay> Links<R> {
    /// The output handle of the live link of a name.
    pub(crate) fn output_handle(&self, name: &str) -> Option<OutputHandle>
        ensures { result ≡ option_map (λ n. n.handle) (named_at name.now self.now) }
    {
        names::handle_of(&self.names, name)
    }

    /// The output handle of the live link that is attached under an input handle.
    pub(crate) fn output_handle_of(&self, input: InputHandle) -> Option<OutputHandle>
        ensures { result ≡ output_at input.0 self.now }
    {
        match keys::get(&self.inputs, &self.hints, input.0) {
            None => None,
            Some(link) => self.while_live(link.handle),
        }
    }

    /// The input handle under which the live link of an output handle is attached: the peer's last attach gave it.
    pub(crate) fn input_handle_of(&self, output: OutputHandle) -> Option<InputHandle>
        ensures { result ≡ input_handle_at output.0 self.now }
    {
        let Some(name) = handles::name_of(&self.handles, output.0) else {
            return None;
        };
        let Some(link) = names::of(&self.names, output.0 as usize, name) else {
            return None;
        };
        match link.input {
            None => None,
            Some(input) => self.while_under(link.handle, input),
        }
    }

    /// An input handle, while the link of this output handle is attached under it.
    fn while_under(&self, output: OutputHandle, input: InputHandle) -> Option<InputHandle>
        ensures { result ≡ while_under output (Some input) self.now }
    {
        match keys::get(&self.inputs, &self.hints, input.0) {
            None => None,
            Some(link) => {
                if link.handle.0 == output.0 {
                    Some(input)
                } else {
                    None
                }
            }
        }
    }

    /// A handle, while a live link has it.
    fn while_live(&self, handle: OutputHandle) -> Option<OutputHandle>
        ensures { result ≡ if is_some (name_at handle.0 self.now) then Some handle else None }
    {
        if handles::is_live(&self.handles, handle.0) {
            Some(handle)
        } else {
            None
        }
    }

    /// Allots an output handle for a link of this name, which no live link has. Its relay, if any, waits for the peer's attach,
    /// or is left where the allotment is refused.
    pub(crate) fn allot(
        &mut self,
        name: String,
        waiting: Option<R>,
    ) -> Leaving<Result<OutputHandle, AllocLinkError>, Option<R>>
        requires { named_at (string_bytes name) self.old ≡ None }
        ensures free { IfOk result.answer (λ h. map.get self.old.handles h.0 ≡ None) }
        ensures fits { IfOk result.answer (λ h. h.0 < 2 ^ 32) }
        ensures ok { IfOk result.answer (λ h. self.new ≡ record (linked (string_bytes name) h waiting None self.old) { next = self.new.next }) }
        ensures full { IfErr result.answer (λ e. IsFull self.old e) }
        ensures next { IfOk result.answer (λ h. h.0 ≡ self.old.next) }
        ensures err { OnErr result.answer (self.new ≡ self.old) }
        ensures left { OnErr result.answer (result.left ≡ waiting) }
        ensures none { OnOk result.answer (result.left ≡ None) }
    {
        if handles::next(&self.handles) > u32::MAX as usize {
            return Leaving::of(Err(AllocLinkError::HandlesExhausted), waiting);
        }
        let Ok(copy) = text_again(&name) else {
            return Leaving::of(Err(AllocLinkError::OutOfMemory), waiting);
        };
        let Ok(()) = more_in_slab(&mut self.handles, 1) else {
            return Leaving::of(Err(AllocLinkError::OutOfMemory), waiting);
        };
        let Ok(()) = more_in_map(&mut self.names, 1) else {
            return Leaving::of(Err(AllocLinkError::OutOfMemory), waiting);
        };
        let handle = OutputHandle(handles::take(&mut self.handles, copy) as u32);
        let link = LiveLink {
            handle,
            waiting,
            input: None,
        };
        names::put(&mut self.names, name, link);
        Leaving::of(Ok(handle), None)
    }

    /// Releases the live link of a handle, and says whether there was one.
    pub(crate) fn release(&mut self, handle: u32) -> Leaving<bool, Option<LiveLink<R>>>
        ensures step { Releases self.old handle result.answer self.new }
        ensures left { result.left ≡ link_at handle self.old }
    {
        if !handles::is_live(&self.handles, handle) {
            return Leaving::of(false, None);
        }
        let name = handles::release(&mut self.handles, handle);
        let left = names::remove(&mut self.names, name.as_str());
        Leaving::of(true, left)
    }

    /// Takes the live link of a handle away. The handle then waits for the peer's answer, or is free. Says whether a detach goes
    /// out.
    pub(crate) fn leave(
        &mut self,
        handle: u32,
        expects_echo: bool,
    ) -> Leaving<bool, Option<LiveLink<R>>>
        ensures step { Leaves self.old handle expects_echo result.answer self.new }
        ensures left { result.left ≡ link_at handle self.old }
    {
        if !expects_echo {
            let released = self.release(handle);
            return Leaving::of(true, released.left);
        }
        if !handles::is_live(&self.handles, handle) {
            return Leaving::of(false, None);
        }
        let name = handles::leave(&mut self.handles, handle);
        let left = names::remove(&mut self.names, name.as_str());
        Leaving::of(true, left)
    }

    /// Allots an output handle for a link of this name, which no live link has, and puts its relay under the input handle at
    /// once. The relay that stood there is left, or this one, where the allotment is refused.
    pub(crate) fn allot_attached(
        &mut self,
        name: String,
        relay: R,
        input: InputHandle,
    ) -> Leaving<Result<OutputHandle, AllocLinkError>, Option<R>>
        requires { named_at (string_bytes name) self.old ≡ None }
        ensures free { IfOk result.answer (λ h. map.get self.old.handles h.0 ≡ None) }
        ensures fits { IfOk result.answer (λ h. h.0 < 2 ^ 32) }
        ensures ok { IfOk result.answer (λ h. self.new ≡ record (put_at input.0
            (record { handle = h; relay = relay }) (linked (string_bytes name) h None (Some input) self.old)) { next = self.new.next }) }
        ensures full { IfErr result.answer (λ e. IsFull self.old e) }
        ensures next { IfOk result.answer (λ h. h.0 ≡ self.old.next) }
        ensures err { OnErr result.answer (self.new ≡ self.old) }
        ensures left { OnErr result.answer (result.left ≡ Some relay) }
        ensures replaced { OnOk result.answer (result.left ≡ option_map (λ a. a.relay) (attached_at input.0 self.old)) }
    {
        if handles::next(&self.handles) > u32::MAX as usize {
            return Leaving::of(Err(AllocLinkError::HandlesExhausted), Some(relay));
        }
        let Ok(copy) = text_again(&name) else {
            return Leaving::of(Err(AllocLinkError::OutOfMemory), Some(relay));
        };
        let Ok(()) = more_in_slab(&mut self.handles, 1) else {
            return Leaving::of(Err(AllocLinkError::OutOfMemory), Some(relay));
        };
        let Ok(()) = more_in_map(&mut self.names, 1) else {
            return Leaving::of(Err(AllocLinkError::OutOfMemory), Some(relay));
        };
        let Ok(()) = inputs::make_place(&mut self.inputs, &self.hints, input) else {
            return Leaving::of(Err(AllocLinkError::OutOfMemory), Some(relay));
        };
        let handle = OutputHandle(handles::take(&mut self.handles, copy) as u32);
        let link = LiveLink {
            handle,
            waiting: None,
            input: Some(input),
        };
        names::put(&mut self.names, name, link);
        let attached = AttachedLink { handle, relay };
        let replaced = keys::put(&mut self.inputs, &mut self.hints, input.0, attached);
        Leaving::of(Ok(handle), relay_of(replaced))
    }

    /// Asks the relay that waits under the name of an attach, and puts it under the input handle where it accepts. The relay that
    /// stood there is left. `None` where memory is refused for its place, and nothing changes.
    pub(crate) fn attach(
        &mut self,
        attach: Attach,
    ) -> Leaving<Option<Result<(), SessionInnerError>>, Option<AttachedLink<R>>>
        ensures none { IfNone result.answer ((self.new ≡ self.old) × LacksPlace self.old attach) }
        ensures step { IfSome result.answer (λ r. (asked : Option (AttachQuestion R))
            × Attaches R.gives.attach_gives self.old attach asked r self.new) }
        ensures memory { IfSome result.answer (λ r. AttachLacks R.gives.attach_gives attach r) }
        ensures left { result.left ≡ if has_accepted result.answer then attached_at attach.handle self.old else None }
    {
        if let Some(error) = names::refusal(&self.names, attach.name.as_str()) {
            drop(attach);
            return Leaving::of(Some(Err(error)), None);
        }
        let input = InputHandle::from(attach.handle);
        let Ok(()) = inputs::make_place(&mut self.inputs, &self.hints, input) else {
            drop(attach);
            return Leaving::of(None, None);
        };
        match names::attach(&mut self.names, attach, input) {
            Err(error) => Leaving::of(Some(Err(SessionInnerError::from(error))), None),
            Ok(link) => {
                let replaced = keys::put(&mut self.inputs, &mut self.hints, input.0, link);
                Leaving::of(Some(Ok(())), replaced)
            }
        }
    }

    /// Takes away the relay under the input handle of a detach, if there is one, and asks it. It is left as the question leaves
    /// it.
    pub(crate) fn detach(&mut self, detach: Detach) -> Leaving<Option<Detach>, Option<R>>
        ensures { (asked : Option (DetachQuestion R))
            × Detaches R.gives.detach_gives self.old detach asked result.answer self.new
            × (result.left ≡ option_map (λ q. q.after) asked) }
    {
        let input = InputHandle::from(detach.handle);
        let Some(link) = keys::take(&mut self.inputs, &mut self.hints, input.0) else {
            return Leaving::of(None, None);
        };
        let awaited = self.answer(link.handle);
        let AttachedLink { handle, mut relay } = link;
        let answer = relay.on_incoming_detach(handle, detach, !awaited);
        Leaving::of(answer, Some(relay))
    }

    /// Whether the peer's answer was awaited for a handle, which is then free.
    fn answer(&mut self, handle: OutputHandle) -> bool
        ensures answer { result ≡ awaits handle.0 self.old }
        ensures freed { self.new ≡ record self.old {
          handles =
              if awaits handle.0 self.old then map.remove self.old.handles handle.0 else self.old.handles;
          next = if awaits handle.0 self.old then handle.0 else self.old.next;
        } }
    {
        let awaited = handles::awaits(&self.handles, handle.0);
        if awaited {
            handles::free(&mut self.handles, handle.0);
        }
        awaited
    }
}

/// The relay of a link.
fn relay_of<R: Drop>(link: Option<AttachedLink<R>>) -> Option<R>
    ensures { result ≡ option_map (λ a. a.relay) link }
{
    match link {
        None => None,
        Some(link) => Some(link.relay),
    }
}
