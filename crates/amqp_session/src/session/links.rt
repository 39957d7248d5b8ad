//! The calls of a session for its links (AMQP 1.0 part 2, section 2.6).

ghost use Rattle.std.specs.Prelude.{◌≡◌, Option, option_map, string_bytes, OnOk, IfErr, IfSome, IfNone};
ghost use Rattle.amqp_session.specs.Linking.{named_at, output_at, input_handle_at, has_ended, why_unallotted, MayAllot, AllotRefused, AllocateLinkStep, AllocateIncomingStep, DeallocateStep, TakeAttachStep, TakeDetachStep, SendAttachStep, SendDetachStep};
ghost use Rattle.amqp_session.specs.Relay.{AttachQuestion, DetachQuestion};
ghost use Rattle.amqp_session.specs.Room.{AttachLacks, LacksPlace};

use super::Session;
use crate::error::{AllocLinkError, SessionInnerError};
use crate::frame::{SessionFrame, SessionFrameBody};
use crate::numbers::{InputHandle, OutputHandle};
use crate::relay::LinkRelay;
use crate::stop::SessionStopReason;
use amqp_types::{Attach, Detach, SessionState};

/// Whether the session has ended, or is ending.
fn has_ended(state: SessionState) -> bool
    ensures { result ≡ has_ended state }
{
    matches!(
        state,
        SessionState::EndSent | SessionState::EndReceived | SessionState::Discarding
    )
}

impl<R: LinkRelay> Session<R> {
    /// The output handle of the live link of a name. `None` where no live link has the name.
    pub fn output_handle(&self, name: &str) -> Option<OutputHandle>
        ensures { result ≡ option_map (λ n. n.handle) (named_at name.now self.now.view.links) }
    {
        self.links.output_handle(name)
    }

    /// The output handle of the live link that is attached under an input handle: the peer's attach came on it. `None` where no link is
    /// attached there, and where this side has detached it.
    pub fn output_handle_of(&self, input: InputHandle) -> Option<OutputHandle>
        ensures { result ≡ output_at input.0 self.now.view.links }
    {
        self.links.output_handle_of(input)
    }

    /// The input handle of the live link of an output handle: the peer's last attach gave it, and the link is attached there. `None`
    /// where no live link has the output handle, where the peer has not attached the link, where it has detached it, and where it has
    /// given the input handle to another link since (AMQP 1.0 part 2, section 2.6.2).
    pub fn input_handle_of(&self, output: OutputHandle) -> Option<InputHandle>
        ensures { result ≡ input_handle_at output.0 self.now.view.links }
    {
        self.links.input_handle_of(output)
    }

    /// Allots an output handle for a link of this name, in `Mapped`. The relay, if any, waits under the name for the peer's attach. Without
    /// one the peer's attach is refused `HandleInUse`.
    ///
    /// Outside `Mapped`, `SessionStopped` with the reason that is recorded; without one, `SessionStopped` with `Ended` where
    /// an End was sent or received, and else `SessionNotMapped`. `DuplicatedLinkName` where a live link has the name.
    /// `HandlesExhausted` where no handle of four bytes is left. `OutOfMemory` where memory is refused. Nothing changes then.
    pub fn allocate_link(
        &mut self,
        name: String,
        relay: Option<R>,
    ) -> Result<OutputHandle, AllocLinkError>
        ensures step { AllocateLinkStep self.old.view (string_bytes name) relay result self.new.view }
        ensures walk { self.new.last_walk ≡ self.old.last_walk }
        ensures reads { self.new.reads ≡ self.old.reads }
    {
        if let Err(error) = self.may_allot(name.as_str()) {
            return Err(error);
        }
        self.links.allot(name, relay).answer()
    }

    /// Allots an output handle for a link of this name, and puts its relay under the input handle of the peer's attach at once:
    /// none waits under the name. Refused as [`Session::allocate_link`] is.
    pub fn allocate_incoming_link(
        &mut self,
        name: String,
        relay: R,
        input_handle: InputHandle,
    ) -> Result<OutputHandle, AllocLinkError>
        ensures step { AllocateIncomingStep self.old.view (string_bytes name) relay input_handle result self.new.view }
        ensures walk { self.new.last_walk ≡ self.old.last_walk }
        ensures reads { self.new.reads ≡ self.old.reads }
    {
        if let Err(error) = self.may_allot(name.as_str()) {
            return Err(error);
        }
        self.links
            .allot_attached(name, relay, input_handle)
            .answer()
    }

    /// Releases the live link of an output handle with its name, and says whether there was one: `false` changes nothing. Takes no memory.
    pub fn deallocate_link(&mut self, handle: OutputHandle) -> bool
        ensures step { DeallocateStep self.old.view handle result self.new.view }
        ensures walk { self.new.last_walk ≡ self.old.last_walk }
        ensures reads { self.new.reads ≡ self.old.reads }
    {
        self.links.release(handle.0).answer()
    }

    /// Takes the peer's attach: the relay that waits under its name is asked, and is put under the input handle where it
    /// accepts. An input handle that is in use goes to the new link.
    ///
    /// `RemoteAttachingLinkNameNotFound` where no live link has the name, and `HandleInUse` where no relay waits under it.
    /// `OutOfMemory` where memory is refused: it is taken before the relay is asked, and for an input handle alone that is not in use. An error
    /// of the relay is passed on, and the relay goes on to wait.
    pub fn on_incoming_attach(&mut self, attach: Attach) -> Result<(), SessionInnerError>
        ensures step { (asked : Option (AttachQuestion R))
            × TakeAttachStep R.gives.attach_gives self.old.view attach asked result self.new.view }
        ensures walk { self.new.last_walk ≡ self.old.last_walk }
        ensures reads { self.new.reads ≡ self.old.reads }
    {
        match self.on_incoming_attach_if_room(attach) {
            Some(answer) => answer,
            None => Err(SessionInnerError::OutOfMemory),
        }
    }

    /// [`Session::on_incoming_attach`], but where memory is refused for the place under the input handle: then the answer is `None`, and
    /// nothing has changed, so that the attach may come again. Else `OutOfMemory` is an error of the relay alone.
    pub fn on_incoming_attach_if_room(
        &mut self,
        attach: Attach,
    ) -> Option<Result<(), SessionInnerError>>
        ensures none { IfNone result ((self.new ≡ self.old) × LacksPlace self.old.view.links attach) }
        ensures step { IfSome result (λ r. (asked : Option (AttachQuestion R))
            × TakeAttachStep R.gives.attach_gives self.old.view attach asked r self.new.view) }
        ensures memory { IfSome result (λ r. AttachLacks R.gives.attach_gives attach r) }
        ensures walk { self.new.last_walk ≡ self.old.last_walk }
        ensures reads { self.new.reads ≡ self.old.reads }
    {
        self.links.attach(attach).answer()
    }

    /// Takes the peer's detach: the link leaves its input handle, and its relay learns whether the peer began the detach. It did where
    /// this side awaits no answer to a detach of its own. Where it awaits one, the output handle is free from now on. The relay's answer is
    /// handed back, to be sent. For an input handle without a link the answer is `None`, and nothing changes. Takes no memory, and never
    /// fails.
    pub fn on_incoming_detach(
        &mut self,
        detach: Detach,
    ) -> Result<Option<Detach>, SessionInnerError>
        ensures step { (asked : Option (DetachQuestion R))
            × TakeDetachStep R.gives.detach_gives self.old.view detach asked result self.new.view }
        ensures walk { self.new.last_walk ≡ self.old.last_walk }
        ensures reads { self.new.reads ≡ self.old.reads }
    {
        Ok(self.links.detach(detach).answer())
    }

    /// The frame of an attach. Takes no memory, and changes nothing. Its handle is the one that [`Session::allocate_link`] gave: that is
    /// not checked.
    pub fn on_outgoing_attach(&self, attach: Attach) -> SessionFrame
        ensures { SendAttachStep self.now.view attach result self.now.view }
    {
        SessionFrame::new(self.outgoing_channel.0, SessionFrameBody::Attach(attach))
    }

    /// Detaches the link of an output handle, and gives the frame. Where the peer is to answer, the handle stays taken until
    /// the answer comes, and a handle without a live link gives no frame. Takes no memory, and never fails.
    pub fn on_outgoing_detach(
        &mut self,
        detach: Detach,
        expects_echo: bool,
    ) -> Result<Option<SessionFrame>, SessionInnerError>
        ensures step { SendDetachStep self.old.view detach expects_echo result self.new.view }
        ensures walk { self.new.last_walk ≡ self.old.last_walk }
        ensures reads { self.new.reads ≡ self.old.reads }
    {
        let leaving = self.links.leave(detach.handle.0, expects_echo);
        if !leaving.answer() {
            return Ok(None);
        }
        Ok(Some(SessionFrame::new(self.outgoing_channel.0, SessionFrameBody::Detach(detach))))
    }

    /// Whether a link of this name may be allotted.
    fn may_allot(&self, name: &str) -> Result<(), AllocLinkError>
        ensures ok { OnOk result (MayAllot self.now.view name.now) }
        ensures err { IfErr result (λ e. AllotRefused self.now.view name.now e) }
    {
        if !self.can_send() {
            return Err(self.why_unallotted());
        }
        if self.links.output_handle(name).is_some() {
            return Err(AllocLinkError::DuplicatedLinkName);
        }
        Ok(())
    }

    /// Why no link is allotted outside `Mapped`.
    fn why_unallotted(&self) -> AllocLinkError
        ensures { result ≡ why_unallotted self.now.view.state self.now.view.session_stop }
    {
        if let Some(reason) = self.session_stop {
            return AllocLinkError::SessionStopped(reason);
        }
        if has_ended(self.state) {
            return AllocLinkError::SessionStopped(SessionStopReason::Ended);
        }
        AllocLinkError::SessionNotMapped
    }
}
