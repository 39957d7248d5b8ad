//! Transfers that are to be sent on a session's links.

ghost use Rattle.std.specs.Prelude.{◌≡◌};
ghost use Rattle.amqp_endpoints.specs.Sending.{AsksPart, Finishes, PostsHead, PostsLast, PostsPart, SendsDelivery};
ghost use Rattle.amqp_endpoints.specs.Sending.{end_of, is_first_of, lets_go, number_of, numbered, one_more, sent_place, settles_own, whole_head};
ghost use Rattle.amqp_endpoints.specs.Places.{PutsPlace};

use super::SessionEndpoint;
use amqp_driver::flag::{self, is_set};
use amqp_driver::{Sent, Status, Stream, TransferHead};
use amqp_links::{End, PartEnd, PreparedPart, SendPartError, SentPart};
use amqp_session::LinkRelay;
use amqp_types::Role;

/// A transfer that was accepted.
#[derive(Clone, Copy, Debug, PartialEq, Eq)]
#[must_use]
pub struct SentDelivery {
    /// The number of its delivery.
    pub number: u32,
    /// What was given with the delivery, where this transfer settles or aborts it, and it was unsettled before.
    pub settled: Option<u64>,
}

/// Why a transfer is not sent. The link stands as before.
#[derive(Clone, Copy, Debug, PartialEq, Eq)]
pub enum SendFailure {
    /// The link does not allow it, or there is no memory to keep its delivery. Nothing has changed.
    Link(SendPartError),
    /// The stream refuses it, by the number of [`Sent::refusal`].
    Refused(u32),
    /// The stream did not take it, for this reason: [`Status::NoMemory`], [`Status::Short`] or [`Status::Over`].
    Stopped(Status),
}

/// Where the delivery ends.
fn end_of(flags: u16) -> PartEnd
    ensures { result ≡ end_of flags }
{
    if is_set(flags, flag::ABORTED) {
        PartEnd::Aborted
    } else if is_set(flags, flag::MORE) {
        PartEnd::More
    } else {
        PartEnd::Last
    }
}

/// Whether a transfer on the link of this end begins a delivery.
fn is_first_of(end: Option<End>) -> bool
    ensures { result ≡ is_first_of end }
{
    let Some(end) = end else {
        return false;
    };
    match end {
        End::Sending(link) => link.under_way().is_none(),
        End::Receiving(_) => false,
    }
}

/// Whether a transfer settles a delivery that an earlier one began: it says so, or it aborts it.
fn settles_own(part: SentPart, is_first: bool) -> bool
    ensures { result ≡ settles_own part is_first }
{
    !is_first && (part.settled || matches!(part.end, PartEnd::Aborted))
}

/// These flags, with that of the first transfer of a delivery or without it.
fn numbered(flags: u16, is_first: bool) -> u16
    ensures { result ≡ numbered flags is_first }
{
    let others = flags / 2 * 2;
    if is_first {
        others + flag::NUMBERED
    } else {
        others
    }
}

impl SessionEndpoint {
    /// Sends a transfer on the link of the session that `head.link` names: a delivery, or a part of one, whose tag and payload stand in `bytes`. It begins a
    /// delivery where none is under way on the link, and takes one of its credit then; else it goes on with that one. The head's session and whether it is the
    /// first transfer are the endpoint's to say: what stands there is passed over. [`Driver::cut`](amqp_driver::Driver::cut) cuts a longer payload. `given` is
    /// kept with a delivery that is unsettled from its first transfer on, and given back with it (AMQP 1.0 part 2, sections 2.6.7, 2.6.12 and 2.6.14).
    /// Where a later transfer settles or aborts it, the session lets it go first.
    ///
    /// # Errors
    /// Each [`SendFailure`] says when.
    pub fn send<R: LinkRelay>(
        &mut self,
        stream: &mut Stream<R>,
        head: &TransferHead,
        bytes: &[u8],
        given: u64,
    ) -> Result<SentDelivery, SendFailure>
        ensures { SendsDelivery R.gives self.old stream.old head.now bytes.now given result stream.new self.new }
    {
        let is_first = is_first_of(self.links.end(head.link));
        let part = SentPart {
            number: self.number_of(stream, head.link, is_first),
            size: u64::from(head.payload),
            end: end_of(head.flags),
            settled: is_set(head.flags, flag::SETTLED),
            given,
        };
        let lets_go = self.lets_go(part, is_first);
        match self.links.prepare_send(head.link, part) {
            Ok(prepared) => self.ask_part(stream, head, bytes, is_first, lets_go, &prepared),
            Err(error) => Err(SendFailure::Link(error)),
        }
    }

    /// Whether a transfer settles a delivery that is unsettled.
    fn lets_go(&self, part: SentPart, is_first: bool) -> bool
        ensures { result ≡ lets_go self.now part is_first }
    {
        settles_own(part, is_first) && self.links.sent(part.number).is_some()
    }

    /// The number of the delivery that a transfer on this link begins, or goes on with.
    fn number_of<R: LinkRelay>(&self, stream: &Stream<R>, link: u32, is_first: bool) -> u32
        ensures { result ≡ number_of self.now stream.now link is_first }
    {
        if !is_first {
            return self.places.get(link).begun;
        }
        match stream.engine().session(self.session) {
            Some(session) => session.next_delivery_number(),
            None => 0,
        }
    }

    /// The transfer that was prepared is handed to the stream.
    fn ask_part<R: LinkRelay>(
        &mut self,
        stream: &mut Stream<R>,
        head: &TransferHead,
        bytes: &[u8],
        is_first: bool,
        lets_go: bool,
        prepared: &PreparedPart,
    ) -> Result<SentDelivery, SendFailure>
        ensures { AsksPart lets_go R.gives self.old stream.old head.now bytes.now is_first prepared.now result stream.new self.new }
    {
        let number = prepared.part().number;
        match self.post_part(stream, head, bytes, is_first, lets_go, number) {
            Ok(()) => Ok(self.finish(head.link, prepared)),
            Err(failure) => {
                self.links.cancel_send(prepared);
                Err(failure)
            }
        }
    }

    /// The stream is handed the transfer of a delivery that has this number, once the session has let that go, where it is to.
    fn post_part<R: LinkRelay>(
        &self,
        stream: &mut Stream<R>,
        head: &TransferHead,
        bytes: &[u8],
        is_first: bool,
        lets_go: bool,
        number: u32,
    ) -> Result<(), SendFailure>
        ensures { PostsPart lets_go R.gives self.now stream.old head.now bytes.now is_first number result stream.new }
    {
        if lets_go {
            self.post_last(stream, head, bytes, number)
        } else {
            self.post(stream, head, bytes, is_first)
        }
    }

    /// The session lets the delivery go, and the stream is handed the transfer that settles it.
    fn post_last<R: LinkRelay>(
        &self,
        stream: &mut Stream<R>,
        head: &TransferHead,
        bytes: &[u8],
        number: u32,
    ) -> Result<(), SendFailure>
        ensures { PostsLast R.gives self.now stream.old head.now bytes.now number result stream.new }
    {
        if self.let_one_go(stream, Role::Sender, number) {
            self.post(stream, head, bytes, false)
        } else {
            Err(SendFailure::Stopped(Status::NoMemory))
        }
    }

    /// The stream is handed the head, of this session, and the first of its delivery or not.
    fn post<R: LinkRelay>(
        &self,
        stream: &mut Stream<R>,
        head: &TransferHead,
        bytes: &[u8],
        is_first: bool,
    ) -> Result<(), SendFailure>
        ensures { PostsHead R.gives self.now stream.old head.now bytes.now is_first result stream.new }
    {
        let whole = self.whole_head(head, is_first);
        let mut sent = [Sent {
            number: 0,
            refusal: 0,
        }];
        let posted = stream.send(&[whole], bytes, &mut sent);
        match posted.status {
            Status::Done => {
                let why = sent[0].refusal;
                if why == 0 {
                    Ok(())
                } else {
                    Err(SendFailure::Refused(why))
                }
            }
            status => Err(SendFailure::Stopped(status)),
        }
    }

    /// The head with the endpoint's session, and as the first of its delivery or not.
    fn whole_head(&self, head: &TransferHead, is_first: bool) -> TransferHead
        ensures { result ≡ whole_head self.now head.now is_first }
    {
        TransferHead {
            session: self.session.0,
            flags: numbered(head.flags, is_first),
            ..*head
        }
    }

    /// The transfer that was prepared is accepted.
    fn finish(&mut self, link: u32, prepared: &PreparedPart) -> SentDelivery
        ensures { Finishes self.old link prepared.now result self.new }
    {
        let number = prepared.part().number;
        let settled = self.links.finish_send(prepared);
        self.note_sent(link, number, prepared.is_first());
        SentDelivery { number, settled }
    }

    /// A transfer was sent on the link: of this delivery, which begins by it or not.
    fn note_sent(&mut self, link: u32, number: u32, is_first: bool)
        ensures place { PutsPlace self.old.places link (sent_place self.old link number is_first) self.new.places }
        ensures rest { self.new ≡ record self.old { places = self.new.places; sent = one_more self.old.sent } }
    {
        self.sent = self.sent.saturating_add(1);
        self.places.note_sent(link, number, is_first, self.sent);
    }
}
