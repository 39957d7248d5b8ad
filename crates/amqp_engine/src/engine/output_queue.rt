//! Frames that wait to be put out. They come from one call, and waiting takes no memory of its own.

ghost use Rattle.std.specs.Prelude.{◌≡◌, [], ◌∷◌, List, Some, map, IfSome, IsTrue, is_some};
ghost use Rattle.amqp_session.specs.Items.{first_frame, item_frames};
ghost use Rattle.amqp_engine.specs.Waits.{body_of, frame_of, sent, disposition_frame, after_frames, waits, has_frames, InFront, FirstIs, TakesFirst};
ghost use Rattle.amqp_engine.specs.Inner.Putting.{DropsFirst};

use amqp_frames::{Frame, FrameBody};
use amqp_session::{OutgoingChannel, SessionFrame, SessionFrameBody, SessionOutgoingItem};
use amqp_types::Disposition;
use std::collections::VecDeque;
use std::marker::Model;
use std::mem;

/// What waits after the first frame: frames of a session, or dispositions, each of which becomes a frame on the channel.
#[derive(Drop)]
enum Backlog {
    Nothing,
    Frames(VecDeque<SessionFrame>),
    Dispositions(OutgoingChannel, VecDeque<Disposition>),
}

/// The frames that wait, oldest first.
#[derive(Drop)]
pub(crate) struct OutputQueue {
    front: Option<Frame>,
    after: Backlog,
}

impl Model for OutputQueue {
    ghost use Rattle.std.specs.Prelude.{List};
    ghost use Rattle.amqp_frames.specs.declared.frame.Frame.{Frame};
    ghost use Rattle.amqp_engine.specs.Waits.{waits, after_frames, InFront};

    ghost Value = { List Frame };

    ghost view = { λ w. waits w.front (after_frames w.after) };

    ghost invariant = { λ w. InFront w.front (after_frames w.after) };
}

/// What a session's frame says, as the connection sends it.
#[inline(always)]
fn body_of(body: SessionFrameBody) -> FrameBody
    ensures { result ≡ body_of body }
{
    match body {
        SessionFrameBody::Attach(attach) => FrameBody::Attach(attach),
        SessionFrameBody::Flow(flow) => FrameBody::Flow(flow),
        SessionFrameBody::Transfer {
            performative,
            payload,
        } => FrameBody::Transfer {
            performative,
            payload,
        },
        SessionFrameBody::Disposition(disposition) => FrameBody::Disposition(disposition),
        SessionFrameBody::Detach(detach) => FrameBody::Detach(detach),
        SessionFrameBody::Begin(begin) => FrameBody::Begin(begin),
        SessionFrameBody::End(end) => FrameBody::End(end),
    }
}

/// A session's frame, as the connection sends it.
#[inline(always)]
fn frame_of(frame: SessionFrame) -> Frame
    ensures { result ≡ frame_of frame }
{
    Frame::new(frame.channel, body_of(frame.body))
}

/// Whether there is a list of what waits, of which nothing is left.
fn is_used_up(after: &Backlog) -> bool
    ensures { IsTrue result → after_frames after.now ≡ [] }
{
    match after {
        Backlog::Nothing => false,
        Backlog::Frames(frames) => frames.is_empty(),
        Backlog::Dispositions(_, dispositions) => dispositions.is_empty(),
    }
}

/// Gives back the room of what waited once none of it does.
fn give_back(after: &mut Backlog)
    ensures { after_frames after.new ≡ after_frames after.old }
{
    if is_used_up(after) {
        set(after, Backlog::Nothing);
    }
}

/// The first of those that wait after the first frame, taken out. The room of the last one goes with it.
fn next_of(after: &mut Backlog) -> Option<Frame>
    ensures same { waits result (after_frames after.new) ≡ sent (after_frames after.old) }
    ensures front { InFront result (after_frames after.new) }
{
    let next = first_of(after);
    give_back(after);
    next
}

/// The first of those that wait after the first frame, taken out of their list.
fn first_of(after: &mut Backlog) -> Option<Frame>
    ensures same { waits result (after_frames after.new) ≡ sent (after_frames after.old) }
    ensures front { InFront result (after_frames after.new) }
{
    match after {
        Backlog::Nothing => None,
        Backlog::Frames(frames) => frames.pop_front().map(frame_of),
        Backlog::Dispositions(channel, dispositions) => {
            let disposition = dispositions.pop_front()?;
            Some(Frame::new(channel.0, FrameBody::Disposition(disposition)))
        }
    }
}

/// Overwrites a place. What stood there is dropped without being moved.
#[inline(always)]
fn set<T: Drop>(place: &mut T, next: T)
    ensures { place.new ≡ next }
{
    *place = next;
}

/// Puts this frame of a session in front.
#[inline(always)]
fn place(front: &mut Option<Frame>, frame: SessionFrame)
    ensures { front.new ≡ Some (frame_of frame) }
{
    let channel = frame.channel;
    match frame.body {
        SessionFrameBody::Transfer {
            performative,
            payload,
        } => set(
            front,
            Some(Frame::new(
                channel,
                FrameBody::Transfer {
                    performative,
                    payload,
                },
            )),
        ),
        body => place_other(front, channel, body),
    }
}

// No part of `place`, which would pay at its entry for the size of these locals, as a transfer does not need.
#[inline(never)]
fn place_other(front: &mut Option<Frame>, channel: u16, body: SessionFrameBody)
    ensures { front.new ≡ Some (frame_of (record { channel = channel; body = body })) }
{
    set(front, Some(Frame::new(channel, body_of(body))));
}

impl OutputQueue {
    /// No frame waits.
    #[inline(always)]
    pub(crate) fn none() -> OutputQueue
        ensures { result ≡ [] }
    {
        OutputQueue {
            front: None,
            after: Backlog::Nothing,
        }
    }

    /// One frame waits.
    #[inline(always)]
    pub(crate) fn one(frame: Frame) -> OutputQueue
        ensures { result ≡ frame ∷ [] }
    {
        OutputQueue {
            front: Some(frame),
            after: Backlog::Nothing,
        }
    }

    /// These frames wait.
    #[inline(never)]
    fn from_first(frames: Backlog) -> OutputQueue
        ensures { result ≡ sent (after_frames frames) }
    {
        let mut after = frames;
        let front = next_of(&mut after);
        OutputQueue { front, after }
    }

    /// From now on these frames wait, and no others.
    #[inline(always)]
    pub(crate) fn put(&mut self, frames: OutputQueue)
        ensures { self.new ≡ frames }
    {
        let OutputQueue { front, after } = frames;
        set(&mut self.front, front);
        set(&mut self.after, after);
    }

    /// Whether frames wait.
    #[inline(always)]
    pub(crate) fn has_frames(&self) -> bool
        ensures { result ≡ has_frames self.now }
    {
        self.front.is_some()
    }

    /// The first frame.
    #[inline(always)]
    pub(crate) fn first(&self) -> Option<&Frame>
        ensures some { is_some result ≡ has_frames self.now }
        ensures first { IfSome result (λ f. FirstIs f.now self.now) }
    {
        self.front.as_ref()
    }

    /// Takes the first frame out.
    pub(crate) fn take(&mut self) -> Option<Frame>
        ensures { TakesFirst self.old result self.new }
    {
        let next = next_of(&mut self.after);
        mem::replace(&mut self.front, next)
    }

    /// Drops the first frame without moving it.
    #[inline(always)]
    pub(crate) fn discard(&mut self)
        ensures { DropsFirst self.old self.new }
    {
        match self.after {
            Backlog::Nothing => set(&mut self.front, None),
            _ => self.advance(),
        }
    }

    /// The next of those that wait takes the place of the first frame.
    #[inline(never)]
    fn advance(&mut self)
        ensures { DropsFirst self.old self.new }
    {
        set(&mut self.front, next_of(&mut self.after));
    }

    /// Takes the frames that a session hands out, where none waits: they wait from now on.
    #[inline(always)]
    pub(crate) fn put_item(&mut self, item: Option<SessionOutgoingItem>)
        requires { self.old ≡ [] }
        ensures { self.new ≡ sent (item_frames item) }
    {
        match item {
            None => {},
            Some(SessionOutgoingItem::SingleFrame(frame)) => self.put_frame(frame),
            Some(SessionOutgoingItem::MultipleFrames(frames)) => self.put_frames(frames),
        }
    }

    /// Takes the frame that a session hands out, if any, where none waits: it waits from now on.
    #[inline(always)]
    pub(crate) fn put_first(&mut self, frame: Option<SessionFrame>)
        requires { self.old ≡ [] }
        ensures { self.new ≡ sent (first_frame frame) }
    {
        match frame {
            None => {},
            Some(frame) => self.put_frame(frame),
        }
    }

    /// From now on this frame of a session waits, and no other.
    #[inline(always)]
    pub(crate) fn put_frame(&mut self, frame: SessionFrame)
        ensures { self.new ≡ frame_of frame ∷ [] }
    {
        place(&mut self.front, frame);
        // An assignment copies what stood there out and drops it by a call, also where it is nothing.
        match self.after {
            Backlog::Nothing => {},
            _ => set(&mut self.after, Backlog::Nothing),
        }
    }

    #[inline(never)]
    fn put_frames(&mut self, frames: Vec<SessionFrame>)
        ensures { self.new ≡ sent frames.items }
    {
        self.put(OutputQueue::from_first(Backlog::Frames(VecDeque::from(frames))));
    }

    /// From now on these dispositions wait, each as a frame on this channel.
    #[inline(never)]
    pub(crate) fn put_dispositions(
        &mut self,
        channel: OutgoingChannel,
        dispositions: VecDeque<Disposition>,
    )
        ensures { self.new ≡ sent (map (disposition_frame channel.0) dispositions.items) }
    {
        self.put(OutputQueue::from_first(Backlog::Dispositions(channel, dispositions)));
    }
}
