//! Requests, and transfers that are to be sent.

ghost use Rattle.std.specs.Prelude.{◌≡◌, ◌≤◌, ◌+◌, Some, IfOk, OnErr, drop, take};
ghost use Rattle.std.specs.Option.{option_map};
ghost use Rattle.amqp_memory.specs.Refusal.{SomeRefused};
ghost use Rattle.amqp_types.specs.Transfer.{widest};
ghost use Rattle.amqp_frames.specs.Cut.{room_beside};
ghost use Rattle.amqp_engine.specs.declared.engine.input.Input.TheVariants as given;
ghost use Rattle.amqp_driver.specs.Driver.{Mirrors};
ghost use Rattle.amqp_driver.specs.Heads.{FindsInput, has, has_room, number_in, refused_as, tag_in};
ghost use Rattle.amqp_driver.specs.Requests.{AskedWell, Requests};
ghost use Rattle.amqp_driver.specs.Sending.{Handles, Sends, SendsTransfer, size_of};
ghost use Rattle.amqp_driver.specs.Told.{session_at};

use super::Driver;
use super::telling::counted;
use crate::asked::{Asked, asked_of, has_own};
use crate::copied::Copied;
use crate::flag;
use crate::head::{
    Broken, Sent, TAG_TOO_LONG, TOO_LONG, TransferHead, UNATTACHED, has, left_behind,
    refused_behind, size_of, transfer_of,
};
use crate::refusals::refusal_number;
use crate::status::{Posted, Status};
use amqp_connection::SessionNo;
use amqp_engine::Input;
use amqp_session::{InputHandle, LinkRelay, OutputHandle};
use amqp_types::{DeliveryTag, Transfer};
use bytes::Bytes;
use std::alloc::AllocError;

fn posted(status: Status, taken: usize, used: usize) -> Posted
    ensures { result ≡ record { status = status; taken = taken; used = used } }
{
    Posted {
        status,
        taken,
        used,
    }
}

fn refused(why: u32) -> Sent
    ensures { result ≡ refused_as why }
{
    Sent {
        number: 0,
        refusal: why,
    }
}

/// The tag of a transfer, if it has one, whose bytes begin at this place.
fn tag_of(
    head: &TransferHead,
    copied: &Copied,
    bytes: &[u8],
    at: usize,
) -> Result<Option<DeliveryTag>, AllocError>
    requires copy { Mirrors copied.now bytes.now }
    requires from { copied.now.start ≤ at }
    requires to { at + size_of head.now ≤ copied.now.end }
    ensures ok { IfOk result (λ x. option_map (λ t. t.0) x ≡ tag_in head.now (take (size_of head.now) (drop at bytes.now))) }
    ensures refused { OnErr result SomeRefused }
{
    if !has(head.flags, flag::TAGGED) {
        return Ok(None);
    }
    let tag = copied.part(bytes, at, at + head.tag_size as usize)?;
    Ok(Some(DeliveryTag(tag)))
}

/// The tag and the payload of a transfer, whose bytes begin at this place.
fn parts_of(
    head: &TransferHead,
    copied: &Copied,
    bytes: &[u8],
    at: usize,
) -> Result<(Option<DeliveryTag>, Bytes), AllocError>
    requires copy { Mirrors copied.now bytes.now }
    requires from { copied.now.start ≤ at }
    requires to { at + size_of head.now ≤ copied.now.end }
    ensures ok { IfOk result (λ x. (option_map (λ t. t.0) x.0 ≡ tag_in head.now (take (size_of head.now) (drop at bytes.now)))
        × (x.1 ≡ drop head.now.tag_size (take (size_of head.now) (drop at bytes.now)))) }
    ensures refused { OnErr result SomeRefused }
{
    let tag = tag_of(head, copied, bytes, at)?;
    let middle = at + head.tag_size as usize;
    let payload = copied.part(bytes, middle, middle + head.payload as usize)?;
    Ok((tag, payload))
}

impl<R: LinkRelay> Driver<R> {
    /// Runs one request, or one received frame, and says what became of it. What it hands out waits in [`Driver::out`]. [`Driver::run`]
    /// takes many.
    ///
    /// ```
    /// match driver.request(Input::Begin(SessionNo(0), SessionSettings::new())) {
    ///     Asked::Done => {}
    ///     Asked::Refused(error) => report(error),
    ///     Asked::TooLarge | Asked::NoMemory => {}
    /// }
    /// ```
    pub fn request(&mut self, input: Input<R>) -> Asked
        ensures { Requests R.gives self.old input result self.new }
    {
        let answer = self
            .engine
            .run_one(input, &mut self.out, &mut self.returned);
        let own = has_own(self.returned.as_slice());
        self.unfit = counted(self.unfit, &self.returned);
        self.returned.clear();
        asked_of(answer, own)
    }

    /// Sends transfers, each of one frame, in order: of each the head stands in `heads`, and its tag and its payload in `bytes`, one after the
    /// other. What became of it goes to the next place of `sent`: of an accepted first transfer the number of its delivery, which it keeps
    /// also where the session holds it back (AMQP 1.0 part 2, section 2.6.12); of a refused one why. A refused one changes nothing, and the
    /// next one is taken. A payload that is longer than [`Engine::payload_room`](amqp_engine::Engine::payload_room) goes in parts, by a
    /// head for each, as [`Driver::cut`] makes them: `NUMBERED` the first alone, and `MORE` all but the last. Where a part with `MORE` is
    /// refused, the later parts of its delivery in the call are refused as it was, unless that of another link breaks off between. What goes
    /// out waits in [`Driver::out`].
    ///
    /// It stops where all were taken (`Done`), where all places of `sent` are written (`Full`), where the bytes end before those of the next
    /// transfer do (`Short`), or where memory was refused and the next transfer was not taken (`NoMemory`: some of what waited in the engine
    /// may be sent, and nothing else has changed). What is not taken is given again.
    ///
    /// ```
    /// let head = TransferHead { session: 0, link: record.output, format: 0, payload: 5, flags: flag::NUMBERED + flag::TAGGED, tag_size: 1 };
    /// let mut sent = [Sent { number: 0, refusal: 0 }];
    /// let posted = driver.send(&[head], b"1hello", &mut sent);
    /// ```
    pub fn send(&mut self, heads: &[TransferHead], bytes: &[u8], sent: &mut [Sent]) -> Posted
        ensures { Sends R.gives self.old heads.now bytes.now sent.old result.status result.taken result.used self.new sent.new }
    {
        let mut copied = Copied::none();
        let mut broken = None;
        let mut taken = 0;
        let mut used = 0;
        'heads: loop {
            if taken == heads.len() {
                return posted(Status::Done, taken, used);
            }
            if taken == sent.len() {
                return posted(Status::Full, taken, used);
            }
            let head = heads[taken];
            let size = size_of(&head);
            if bytes.len() - used < size {
                return posted(Status::Short, taken, used);
            }
            let most = sent.len() - taken;
            copied = match copied.holding(
                self.alloc,
                bytes,
                used,
                used + size,
                &heads[taken..],
                most,
            ) {
                Ok(copied) => copied,
                Err(_) => return posted(Status::NoMemory, taken, used),
            };
            let Some(told) = self.send_one(&head, broken, &copied, bytes, used) else {
                return posted(Status::NoMemory, taken, used);
            };
            broken = left_behind(broken, &head, told);
            sent[taken] = told;
            taken += 1;
            used += size;
        }
    }

    /// Handles one transfer, whose bytes begin at this place, behind what the one before it left. `None` where memory was refused and it was
    /// not taken.
    fn send_one(
        &mut self,
        head: &TransferHead,
        broken: Option<Broken>,
        copied: &Copied,
        bytes: &[u8],
        at: usize,
    ) -> Option<Sent>
        requires copy { Mirrors copied.now bytes.now }
        requires from { copied.now.start ≤ at }
        requires to { at + size_of head.now ≤ copied.now.end }
        ensures { Handles R.gives self.old broken head.now (take (size_of head.now) (drop at bytes.now)) result self.new }
    {
        if let Some(why) = refused_behind(broken, head) {
            return Some(refused(why));
        }
        if head.tag_size > 32 {
            return Some(refused(TAG_TOO_LONG));
        }
        let session = SessionNo(head.session);
        let Some(input) = self.input_handle_of(session, OutputHandle(head.link)) else {
            return Some(refused(UNATTACHED));
        };
        let Ok((tag, payload)) = parts_of(head, copied, bytes, at) else {
            return None;
        };
        let transfer = transfer_of(head, tag);
        if !self.has_room(&transfer, head.payload) {
            drop(transfer);
            drop(payload);
            return Some(refused(TOO_LONG));
        }
        self.send_transfer(head, input, transfer, payload)
    }

    /// Whether so many bytes of payload fit one frame beside a transfer.
    fn has_room(&self, transfer: &Transfer, payload: u32) -> bool
        ensures { result ≡ has_room (room_beside (widest transfer.now) self.now.engine.limit) payload }
    {
        match self.engine.payload_room(transfer) {
            Some(room) => payload <= room,
            None => false,
        }
    }

    /// Runs the transfer of a head, and says what became of it. `None` where memory was refused and it was not taken.
    fn send_transfer(
        &mut self,
        head: &TransferHead,
        input: InputHandle,
        transfer: Transfer,
        payload: Bytes,
    ) -> Option<Sent>
        ensures { SendsTransfer R.gives self.old head.now input transfer payload result self.new }
    {
        let number = self.number_of(head);
        match self.ask_transfer(head, input, transfer, payload) {
            Asked::NoMemory | Asked::Over => None,
            Asked::Refused(error) => {
                let sent = refused(refusal_number(&error));
                drop(error);
                Some(sent)
            }
            Asked::Done | Asked::TooLarge => Some(Sent { number, refusal: 0 }),
        }
    }

    /// Requests the transfer of a head, as [`Driver::request`] does.
    #[inline(always)]
    fn ask_transfer(
        &mut self,
        head: &TransferHead,
        input: InputHandle,
        transfer: Transfer,
        payload: Bytes,
    ) -> Asked
        ensures asked { Requests R.gives self.old (given.Transfer (record { 0 = head.now.session }) input transfer payload (has head.now.flags 1)) result self.new }
        ensures memory { AskedWell result }
    {
        let answer = self.engine.run_transfer(
            SessionNo(head.session),
            input,
            transfer,
            payload,
            has(head.flags, flag::NUMBERED),
            &mut self.out,
            &mut self.returned,
        );
        let own = has_own(self.returned.as_slice());
        self.unfit = counted(self.unfit, &self.returned);
        self.returned.clear();
        asked_of(answer, own)
    }

    /// The peer's handle of the link that has this handle of this side's, for [`Input::Transfer`](amqp_engine::Input::Transfer). `None`
    /// where no such link is attached, in a session that is mapped; any handle, where the engine refuses each transfer of the session.
    ///
    /// ```
    /// let input = driver.input_handle_of(SessionNo(0), OutputHandle(record.output));
    /// ```
    pub fn input_handle_of(&self, session: SessionNo, link: OutputHandle) -> Option<InputHandle>
        ensures { FindsInput (session_at self.now.engine (Some session.0)) link.0 result }
    {
        let Some(session) = self.engine.session(session) else {
            return Some(InputHandle(0));
        };
        match session.input_handle_of(link) {
            Some(handle) => Some(handle),
            None if session.can_send() => None,
            None => Some(InputHandle(0)),
        }
    }

    /// The number that the delivery of a head gets, where it is the first transfer. Else 0.
    fn number_of(&self, head: &TransferHead) -> u32
        ensures { result ≡ number_in (session_at self.now.engine (Some head.now.session)) (has head.now.flags 1) }
    {
        if !has(head.flags, flag::NUMBERED) {
            return 0;
        }
        match self.engine.session(SessionNo(head.session)) {
            Some(session) => session.next_delivery_number(),
            None => 0,
        }
    }
}
