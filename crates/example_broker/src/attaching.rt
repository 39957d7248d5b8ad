//! Links: what the broker answers to an Attach of the client's.

use crate::broker::Broker;
use crate::faults::attach_fault;
use crate::giving::Consumer;
use crate::senders::{MOST_MESSAGE, Sender};
use amqp_driver::{PlainRelay, Record, flag, marked_name};
use amqp_events::{Policy, Recorded};
use fe2o3_amqp::{
    Attach, ErrorCondition, FrameBody, Handle, Input, InputHandle, ReceiverSettleMode, Role,
    SessionNo,
};
use std::io::{self, ErrorKind};

/// How many links there may be.
const MOST_LINKS: usize = 256;

/// The `outcome` of an Attach that has a source and a target.
const BOTH_TERMINI: u8 = 3;

impl Broker {
    /// A link of the client's: it is allotted under its name and the client's role, and the client's Attach is answered.
    pub fn take_attach(&mut self, record: &Record) -> io::Result<()> {
        if let Some(fault) = self.why_not_attached(record) {
            self.fault = Some(fault);
            return Ok(());
        }
        match self.body_in(record)? {
            Some(FrameBody::Attach(theirs)) => self.attach(record, theirs),
            other => {
                drop(other);
                self.fault = Some(ErrorCondition::DecodeError);
                Ok(())
            }
        }
    }

    /// What the client may not do by an Attach: use a handle twice, or have too many links.
    fn why_not_attached(&self, record: &Record) -> Option<ErrorCondition> {
        let session = self.stream.engine().session(SessionNo(record.session))?;
        if session
            .output_handle_of(InputHandle(record.input))
            .is_some()
        {
            return Some(ErrorCondition::HandleInUse);
        }
        if self.senders.len().saturating_add(self.consumers.len()) >= MOST_LINKS {
            return Some(ErrorCondition::ResourceLimitExceeded);
        }
        None
    }

    /// Allots a link, and answers the Attach.
    fn attach(&mut self, record: &Record, theirs: Attach) -> io::Result<()> {
        let name = match marked_name(self.alloc, theirs.role, theirs.name.as_str()) {
            Ok(name) => name,
            Err(error) => {
                drop(theirs);
                return Err(io::Error::from(error));
            }
        };
        self.allot(record, name.clone()?);
        let answer = answer_to(theirs, our_role(record));
        let Some(endpoint) = self.sessions.get_mut(&record.session) else {
            drop(answer);
            return Ok(());
        };
        match endpoint.attach_under(&mut self.stream, name.as_str(), answer, None) {
            Ok(handle) => self.add(record, handle.0),
            Err(error) => {
                self.fault = attach_fault(error);
                Ok(())
            }
        }
    }

    /// Allots a link under this name. The session keeps nothing of what comes on it: what is unsettled the endpoint knows.
    fn allot(&mut self, record: &Record, name: String) {
        let mut policy = Policy::new(our_role(record), ReceiverSettleMode::First);
        policy.recorded = Recorded::Never;
        let asked = self.stream.request(Input::AllocateIncomingLink(
            SessionNo(record.session),
            name,
            PlainRelay::new(policy),
            InputHandle(record.input),
        ));
        self.note(Some(asked));
    }

    /// The link is attached. One without a source or a target is none that messages go over: it is detached.
    fn add(&mut self, record: &Record, handle: u32) -> io::Result<()> {
        match our_role(record) {
            Role::Sender => self.consumers.push(Consumer::new(record, handle))?,
            Role::Receiver => self.senders.push(Sender::new(record, handle))?,
        }
        self.tell_wanted(record, handle)?;
        if record.outcome == BOTH_TERMINI {
            return Ok(());
        }
        self.detach(record.session, handle, ErrorCondition::InvalidField)
    }

    fn tell_wanted(&mut self, record: &Record, handle: u32) -> io::Result<()> {
        let Some(endpoint) = self.sessions.get_mut(&record.session) else {
            return Ok(());
        };
        match endpoint.on_wanted(record, handle) {
            Ok(_) => Ok(()),
            Err(_) => Err(io::Error::from(ErrorKind::OutOfMemory)),
        }
    }

    /// Ends a link for this reason.
    pub fn detach(&mut self, session: u32, handle: u32, why: ErrorCondition) -> io::Result<()> {
        let error = why.to_error(self.alloc)?;
        let Some(endpoint) = self.sessions.get_mut(&session) else {
            drop(error);
            return Ok(());
        };
        let answer = endpoint.detach(&mut self.stream, handle, true, Some(error));
        self.note_said(answer);
        Ok(())
    }
}

/// This side's role on a link, by the client's Attach.
fn our_role(record: &Record) -> Role {
    if flag::is_set(record.flags, flag::RECEIVER) {
        Role::Sender
    } else {
        Role::Receiver
    }
}

/// The Attach that answers one of the client's: the same link, from its other end.
fn answer_to(theirs: Attach, role: Role) -> Attach {
    let most = match role {
        Role::Sender => None,
        Role::Receiver => Some(MOST_MESSAGE),
    };
    Attach {
        snd_settle_mode: theirs.snd_settle_mode,
        rcv_settle_mode: theirs.rcv_settle_mode,
        source: theirs.source,
        target: theirs.target,
        max_message_size: most,
        ..Attach::new(theirs.name, Handle(0), role)
    }
}
