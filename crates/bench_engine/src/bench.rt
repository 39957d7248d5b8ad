//! The measured engine, with what it is given and what it answers.

use crate::relay::Relay;
use bytes::Bytes;
use fe2o3_amqp::{
    Answer, ConnectionState, Engine, Input, Open, Piece, Refusal, SendBuffer, SessionNo,
};
use std::alloc::{AllocError, Global};
use std::collections::VecDeque;

/// What the engine does with the inputs that are measured.
#[derive(Clone, Copy, PartialEq)]
pub enum Part {
    /// It runs them, and gives a list of answers.
    Answers,
    /// It runs them, and sends into one buffer.
    Into,
    /// It drops them.
    Idle,
}

/// What is to be done.
#[derive(Drop)]
pub struct Plan {
    pub count: u32,
    pub batch: u32,
    pub open: u32,
    pub sessions: u16,
    pub part: Part,
    pub peer_open: Bytes,
    pub transfer: Bytes,
    pub payload: Bytes,
    pub tag: Bytes,
}

/// What was seen of the answers.
#[derive(Clone, Copy)]
pub struct Seen {
    /// How many inputs were accepted.
    pub done: u64,
    /// How many were refused.
    pub refused: u64,
    /// How many frames came out, in answers.
    pub frames: u64,
    /// A sum over their pieces; of a buffer, how many bytes it was sent.
    pub sum: u64,
}

/// An engine, the inputs that it is to be given next, and its last answers.
#[derive(Drop)]
pub struct Bench {
    engine: Engine<Relay>,
    inputs: VecDeque<Input<Relay>>,
    answers: Vec<Answer>,
    out: SendBuffer,
    refusals: Vec<Refusal>,
    seen: Seen,
    part: Part,
}

impl Seen {
    fn new() -> Seen {
        Seen {
            done: 0,
            refused: 0,
            frames: 0,
            sum: 0,
        }
    }

    fn see_done(&mut self) {
        self.done = self.done.wrapping_add(1);
    }

    fn see_refused(&mut self) {
        self.refused = self.refused.wrapping_add(1);
    }

    fn see_frame(&mut self, pieces: &[Piece]) {
        self.frames = self.frames.wrapping_add(1);
        for piece in pieces {
            self.sum = self.sum.wrapping_add(of_piece(piece));
        }
    }

    fn see(&mut self, answer: &Answer) {
        match answer {
            Answer::Done => self.see_done(),
            Answer::Out(pieces) => self.see_frame(pieces.as_slice()),
            Answer::Refused(_) | Answer::TooLarge(_) => self.see_refused(),
        }
    }

    #[inline(never)]
    fn see_all(&mut self, answers: &[Answer]) {
        for answer in answers {
            self.see(answer);
        }
    }
}

/// What is seen of a piece.
#[inline(never)]
pub fn of_piece(piece: &Piece) -> u64 {
    piece.head().len() as u64 ^ piece.payload().len() as u64
}

/// An Open without a name, and without limits of its own.
fn open(alloc: Global) -> Open {
    Open {
        container_id: String::new(alloc),
        hostname: None,
        max_frame_size: u32::MAX,
        channel_max: u16::MAX,
        idle_time_out: None,
        outgoing_locales: None,
        incoming_locales: None,
        offered_capabilities: None,
        desired_capabilities: None,
        properties: None,
    }
}

impl Bench {
    /// An engine without sessions. An idle one is only set up.
    pub fn new(alloc: Global, part: Part) -> Bench {
        Bench {
            engine: Engine::new(alloc, ConnectionState::HeaderExchange, open(alloc)),
            inputs: VecDeque::new(alloc),
            answers: Vec::new(alloc),
            out: SendBuffer::new(alloc),
            refusals: Vec::new(alloc),
            seen: Seen::new(),
            part,
        }
    }

    pub fn seen(&self) -> Seen {
        self.seen
    }

    /// How many deliveries are open in the first session.
    pub fn open(&self) -> usize {
        match self.engine.session(SessionNo(0)) {
            Some(session) => session.open_deliveries(),
            None => 0,
        }
    }

    /// Puts an input after the others.
    #[inline(never)]
    pub fn give(&mut self, input: Input<Relay>) -> Result<(), AllocError> {
        self.inputs.push_back(input)?;
        Ok(())
    }

    /// How many inputs there are.
    pub fn given(&self) -> usize {
        self.inputs.len()
    }

    /// Runs the inputs, and looks at what comes of them.
    pub fn run(&mut self) -> anyhow::Result<()> {
        match self.part {
            Part::Into => self.run_into(),
            _ => self.run_to_answers(),
        }
    }

    /// Runs the inputs, and looks at the answers where they stand.
    #[inline(never)]
    fn run_to_answers(&mut self) -> anyhow::Result<()> {
        self.engine.run(&mut self.inputs, &mut self.answers)?;
        self.seen.see_all(self.answers.as_slice());
        self.answers.clear();
        Ok(())
    }

    /// Runs the inputs, and takes the chunks off that are to be sent.
    #[inline(never)]
    fn run_into(&mut self) -> anyhow::Result<()> {
        let given = self.inputs.len() as u64;
        self.engine
            .run_into(&mut self.inputs, &mut self.out, &mut self.refusals)?;
        let refused = self.refusals.len() as u64;
        self.seen.done = self.seen.done.wrapping_add(given.wrapping_sub(refused));
        self.seen.refused = self.seen.refused.wrapping_add(refused);
        self.refusals.clear();
        for _ in 0..u64::MAX {
            let len = self.out.chunk().len();
            if len == 0 {
                return Ok(());
            }
            self.seen.sum = self.seen.sum.wrapping_add(len as u64);
            self.out.advance(len);
        }
        Ok(())
    }

    /// Runs the inputs that are measured; an idle engine drops them.
    pub fn take(&mut self) -> anyhow::Result<()> {
        if self.part != Part::Idle {
            return self.run();
        }
        self.inputs.clear();
        Ok(())
    }
}
