//! What this side says of its links: flows, and Detaches.

ghost use Rattle.std.specs.Prelude.{◌≡◌, Some, true};
ghost use Rattle.amqp_links.specs.Session.{life_of};
ghost use Rattle.amqp_endpoints.specs.Flowing.{AsksDetach, AsksFlow, Detaches, DetachesFor, RequestsDetach};
ghost use Rattle.amqp_endpoints.specs.Flowing.{SaysFlow, SaysPrepared, awaits, is_attaching, is_done, waits_for};

use super::SessionEndpoint;
use crate::event::LinkAnswer;
use crate::fitting::fits;
use crate::flows::{detach_of, flow_of};
use crate::place::LinkPlace;
use amqp_driver::{Asked, Stream};
use amqp_engine::Input;
use amqp_links::{End, FlowWish, Life, PreparedFlow};
use amqp_session::LinkRelay;
use amqp_types::{Detach, Error};

/// Whether a request was done.
pub(super) fn is_done(asked: &Asked) -> bool
    ensures { result ≡ is_done asked.now }
{
    matches!(asked, Asked::Done)
}

/// Whether the link of this end may be detached, and if so, whether the peer's Detach is to come after this side's. Where this side's is still to be sent, it
/// owes one.
fn waits_for(end: End, owes: bool) -> Option<bool>
    ensures { result ≡ waits_for (life_of end) owes }
{
    match end.life() {
        Life::Attaching | Life::Refused | Life::Attached => Some(true),
        Life::Detaching => { if owes { Some(true) } else { None } }
        Life::Detached => { if owes { Some(false) } else { None } }
    }
}

/// Whether the peer's Attach is still to come for the link of this end.
fn is_attaching(end: Option<End>) -> bool
    ensures { result ≡ is_attaching end }
{
    let Some(end) = end else {
        return false;
    };
    matches!(end.life(), Life::Attaching)
}

impl SessionEndpoint {
    /// A flow of the link that has this handle is sent, for this wish: a receiver grants credit, drains, or renews by its rule; either end answers what the peer
    /// asked for (AMQP 1.0 part 2, sections 2.6.7 and 2.7.4). [`LinkAnswer::NotWanted`] where no flow is, and nothing changes then: no end has the handle, it is
    /// not attached, it is a sender's and the wish a receiver's, no credit is to be renewed, or nothing is to be answered.
    ///
    /// The link stands as after the flow where the answer is [`Asked::Done`]. Of any other answer it stands as before, and the call may be made again. A sender's
    /// is [`LinkAnswer::HeldBack`] while transfers of the link wait for the peer's window: the peer would count them as used up.
    pub fn say<R: LinkRelay>(
        &mut self,
        stream: &mut Stream<R>,
        handle: u32,
        wish: FlowWish,
    ) -> LinkAnswer
        ensures { SaysFlow R.gives self.old stream.old handle wish result stream.new self.new }
    {
        match self.links.prepare_flow(handle, wish) {
            Some(prepared) => self.say_or_wait(stream, handle, &prepared),
            None => LinkAnswer::NotWanted,
        }
    }

    /// The flow that was prepared is requested, unless it would overtake transfers of the link.
    fn say_or_wait<R: LinkRelay>(
        &mut self,
        stream: &mut Stream<R>,
        handle: u32,
        prepared: &PreparedFlow,
    ) -> LinkAnswer
        ensures { SaysPrepared (Some prepared.now) R.gives self.old stream.old handle result stream.new self.new }
    {
        if self.is_held_back(stream, handle) {
            self.hold_back(handle)
        } else {
            LinkAnswer::Asked(self.ask_flow(stream, handle, prepared))
        }
    }

    fn ask_flow<R: LinkRelay>(
        &mut self,
        stream: &mut Stream<R>,
        handle: u32,
        prepared: &PreparedFlow,
    ) -> Asked
        ensures { AsksFlow R.gives self.old stream.old handle prepared.now result stream.new self.new }
    {
        let flow = flow_of(handle, prepared.said());
        let asked = stream.request(Input::Flow(self.session, flow));
        if is_done(&asked) {
            self.links.finish_flow(prepared);
        }
        asked
    }

    /// A Detach of the link that has this handle is sent, with an error or without: nothing is sent or told on it from then on (section 2.6.5). `closed` ends
    /// the link for good (section 2.6.6). [`LinkAnswer::NotWanted`] where no end has the handle, or this side's Detach was sent before.
    ///
    /// The link stands as after it where the answer is [`Asked::Done`]. Of any other answer it stands as before, and the call may be made again. It is
    /// [`LinkAnswer::HeldBack`] while transfers of the link wait for the peer's window: they would go out under a handle that is detached. So it is while the
    /// peer's Attach is still to come, which would be answered by nobody: [`LinkEvent::Attached`] tells that it may be made again. It is [`Asked::TooLarge`],
    /// and nothing is requested, where the error does not fit the peer's frame.
    pub fn detach<R: LinkRelay>(
        &mut self,
        stream: &mut Stream<R>,
        handle: u32,
        closed: bool,
        error: Option<Error>,
    ) -> LinkAnswer
        ensures { Detaches R.gives self.old stream.old handle closed error result stream.new self.new }
    {
        if is_attaching(self.links.end(handle)) {
            drop(error);
            return LinkAnswer::HeldBack;
        }
        self.detach_once(stream, handle, closed, error)
    }

    /// The same of a link whose Attach of the peer's has come.
    fn detach_once<R: LinkRelay>(
        &mut self,
        stream: &mut Stream<R>,
        handle: u32,
        closed: bool,
        error: Option<Error>,
    ) -> LinkAnswer
        ensures { DetachesFor (awaits self.old handle) R.gives self.old stream.old handle closed error result stream.new self.new }
    {
        match self.awaits(handle) {
            Some(waits) => self.detach_or_wait(stream, handle, closed, error, waits),
            None => {
                drop(error);
                LinkAnswer::NotWanted
            }
        }
    }

    /// The Detach is requested, unless it would overtake transfers of the link.
    fn detach_or_wait<R: LinkRelay>(
        &mut self,
        stream: &mut Stream<R>,
        handle: u32,
        closed: bool,
        error: Option<Error>,
        waits: bool,
    ) -> LinkAnswer
        ensures { DetachesFor (Some waits) R.gives self.old stream.old handle closed error result stream.new self.new }
    {
        if self.is_held_back(stream, handle) {
            drop(error);
            self.hold_back(handle)
        } else {
            LinkAnswer::Asked(self.ask_detach(stream, handle, closed, error, waits))
        }
    }

    /// Whether the peer's Detach is to come after this side's, where this side's may be sent.
    pub(super) fn awaits(&self, handle: u32) -> Option<bool>
        ensures { result ≡ awaits self.now handle }
    {
        let end = self.links.end(handle)?;
        waits_for(end, self.places.get(handle).owes)
    }

    pub(super) fn ask_detach<R: LinkRelay>(
        &mut self,
        stream: &mut Stream<R>,
        handle: u32,
        closed: bool,
        error: Option<Error>,
        waits: bool,
    ) -> Asked
        ensures { AsksDetach R.gives self.old stream.old handle closed error waits result stream.new self.new }
    {
        let detach = detach_of(handle, closed, error);
        if fits(detach.encoded_len(), stream.engine().max_piece_len()) {
            self.request_detach(stream, handle, detach, waits)
        } else {
            drop(detach);
            Asked::TooLarge
        }
    }

    fn request_detach<R: LinkRelay>(
        &mut self,
        stream: &mut Stream<R>,
        handle: u32,
        detach: Detach,
        waits: bool,
    ) -> Asked
        ensures { RequestsDetach true R.gives self.old stream.old handle detach waits result stream.new self.new }
    {
        let asked = stream.request(Input::Detach(self.session, detach, waits));
        if is_done(&asked) {
            drop(self.links.detach(handle));
            let place = self.places.get(handle);
            self.places.put(
                handle,
                LinkPlace {
                    owes: false,
                    ..place
                },
            );
        }
        asked
    }
}
