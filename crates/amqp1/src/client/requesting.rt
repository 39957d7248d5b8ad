//! Requests.

ghost use Rattle.std.specs.Prelude.{◌≡◌, ◌≤◌, length};
ghost use Rattle.amqp1.specs.declared.status.Status.TheVariants.{Done};
ghost use Rattle.amqp1.specs.Asked.{AllotsOn, Answers, PerformsDispose, RunsFound, RunsOne};
ghost use Rattle.amqp1.specs.Linking.{link_said};
ghost use Rattle.amqp1.specs.Client.{PerformsLink, ShowsHandle, handle_in};
ghost use Rattle.amqp1.specs.LinkCalls.{attached_as, last_attached, last_settled, settled_status};
ghost use Rattle.amqp1.specs.Occupant.{last_said, said_status};
ghost use Rattle.amqp1.specs.Refused.{last_by};
ghost use Rattle.amqp1.specs.Status.{status_of};

use super::Client;
use crate::finding::found;
use crate::linking::{self, LinkAsked};
use crate::operation::Operation;
use crate::refused::Refused;
use crate::status::{Status, status_of};
use crate::writing::write;
use crate::{asking, disposing};
use amqp_connection::SessionNo;
use amqp_driver::{Asked, PlainRelay};
use amqp_endpoints::{AttachError, LinkAnswer};
use amqp_engine::Input;
use amqp_session::{LinkRelay, OutputHandle};
use amqp_types::ReadError;

impl Client {
    /// Has the engine take one request. `BadArgument` exactly where the bytes do not have the operation's form: then, and where memory for the
    /// input is refused, nothing changes.
    pub(super) fn ask(&mut self, operation: Operation, input: &[u8]) -> Status
        ensures { Answers ⟦<PlainRelay as LinkRelay>⟧.gives operation input.now self.old result self.new }
    {
        match asking::asked(self.alloc, operation, input) {
            Ok(input) => self.run_found(input),
            Err(ReadError::Malformed) => Status::BadArgument,
            Err(ReadError::OutOfMemory) => Status::NoMemory,
        }
    }

    /// Runs an input, unless it is a transfer whose link is not attached.
    fn run_found(&mut self, input: Input<PlainRelay>) -> Status
        ensures { RunsFound ⟦<PlainRelay as LinkRelay>⟧.gives self.old input result self.new }
    {
        match found(self.stream.driver(), input) {
            Some(input) => self.run(input),
            None => {
                self.last = Refused::unattached();
                Status::Refused
            }
        }
    }

    /// Runs one input.
    fn run(&mut self, input: Input<PlainRelay>) -> Status
        ensures { RunsOne ⟦<PlainRelay as LinkRelay>⟧.gives self.old input result self.new }
    {
        let asked = self.stream.request(input);
        self.note(asked)
    }

    /// The status of a request. Its refusal is kept, if it is one.
    pub(super) fn note(&mut self, asked: Asked) -> Status
        ensures status { result ≡ status_of asked }
        ensures noted { self.new ≡ record self.old { last = last_by self.old.last self.old.stream.driver.engine.connection.state asked } }
    {
        let status = status_of(&asked);
        match asked {
            Asked::TooLarge => self.last = Refused::too_large(),
            Asked::Over => self.last = Refused::over(),
            Asked::Refused(error) => {
                let state = *self.stream.engine().connection().local_state();
                self.last = Refused::of(error, state);
            }
            Asked::Done | Asked::NoMemory => {}
        }
        status
    }

    /// The status of a request of a link's, if one was made. Its refusal is kept, if it is one.
    pub(super) fn note_said(&mut self, answer: LinkAnswer) -> Status
        ensures status { result ≡ said_status answer }
        ensures noted { self.new ≡ record self.old { last = last_said self.old.last self.old.stream.driver.engine.connection.state answer } }
    {
        match answer {
            LinkAnswer::Asked(asked) => self.note(asked),
            LinkAnswer::HeldBack => Status::HeldBack,
            LinkAnswer::NotWanted => Status::Nothing,
        }
    }

    /// The status of a disposition. `BadArgument` where its outcome is none; a refusal is kept.
    pub(super) fn note_settled(&mut self, asked: Option<Asked>) -> Status
        ensures status { result ≡ settled_status asked }
        ensures noted { self.new ≡ record self.old { last = last_settled self.old.last self.old.stream.driver.engine.connection.state asked } }
    {
        match asked {
            Some(asked) => self.note(asked),
            None => Status::BadArgument,
        }
    }

    /// The handle of a link that is attached, or the status of one that is not. The refusal of its Attach is kept, if it is one.
    pub(super) fn note_attached(
        &mut self,
        attached: Result<OutputHandle, AttachError>,
    ) -> Result<OutputHandle, Status>
        ensures told { result ≡ attached_as attached }
        ensures noted { self.new ≡ record self.old { last = last_attached self.old.last self.old.stream.driver.engine.connection.state attached } }
    {
        match attached {
            Ok(handle) => Ok(handle),
            Err(AttachError::NoLink) => Err(Status::NoLink),
            Err(AttachError::InUse) => Err(Status::InUse),
            Err(AttachError::OutOfMemory) => Err(Status::NoMemory),
            Err(AttachError::Asked(asked)) => Err(self.note(asked)),
        }
    }

    /// Has the engine take a disposition by numbers.
    pub(super) fn dispose(&mut self, input: &[u8]) -> Status
        ensures { PerformsDispose ⟦<PlainRelay as LinkRelay>⟧.gives self.old input.now result self.new }
    {
        let Some(asked) = disposing::asked(input) else {
            return Status::BadArgument;
        };
        if !disposing::has_state(asked.outcome) {
            return Status::BadArgument;
        }
        let answer = self.stream.dispose(
            SessionNo(asked.session),
            asked.role,
            asked.first,
            asked.last,
            asked.settled,
            asked.outcome,
        );
        match answer {
            Some(answer) => self.note(answer),
            None => Status::BadArgument,
        }
    }

    /// Has the engine allot a handle to a link, and writes the handle.
    pub(super) fn link(
        &mut self,
        operation: Operation,
        input: &[u8],
        output: &mut [u8],
    ) -> (Status, usize)
        ensures { PerformsLink ⟦<PlainRelay as LinkRelay>⟧.gives operation self.old input.now output.old result.0 result.1 self.new output.new }
    {
        let Some(asked) = linking::asked(operation, input) else {
            return (Status::BadArgument, 0);
        };
        if output.len() < 4 {
            return (Status::TooSmall, 4);
        }
        match self.allot(&asked) {
            Status::Done => self.show_handle(&asked, output),
            status => (status, 0),
        }
    }

    /// Allots a handle to a link.
    fn allot(&mut self, asked: &LinkAsked<'_>) -> Status
        ensures { AllotsOn ⟦<PlainRelay as LinkRelay>⟧.gives (link_said asked.now) self.old result self.new }
    {
        match linking::input_of(self.alloc, asked) {
            Ok(input) => self.run(input),
            Err(_) => Status::NoMemory,
        }
    }

    /// Writes the handle of a link, for which there is room. Nothing where the engine has no link of that name.
    fn show_handle(&self, asked: &LinkAsked<'_>, output: &mut [u8]) -> (Status, usize)
        requires { 4 ≤ length output.old }
        ensures done { result.0 ≡ Done }
        ensures shown { ShowsHandle (handle_in self.now.stream.driver.engine (link_said asked.now)) output.old result.1 output.new }
    {
        match self
            .stream
            .engine()
            .output_handle(SessionNo(asked.session), asked.name)
        {
            Some(handle) => write(output, &handle.0.to_be_bytes()),
            None => (Status::Done, 0),
        }
    }
}
