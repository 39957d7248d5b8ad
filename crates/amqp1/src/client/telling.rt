//! What is taken, and told.

ghost use Rattle.std.specs.Prelude.{◌≡◌, IsTrue};
ghost use Rattle.amqp1.specs.Client.{PerformsBare, PerformsOutput, PerformsSessionOf, PerformsSessionState, PerformsPayloadRoom, PerformsRefusalText, only_tells, over_number};
ghost use Rattle.amqp1.specs.Telling.{room_text};
ghost use Rattle.amqp1.specs.Writing.{Writes};

use super::Client;
use crate::operation::Operation;
use crate::status::{Status, flushed_status};
use crate::taking::take;
use crate::writing::write;
use crate::{reading, telling};
use amqp_driver::PlainRelay;
use amqp_session::LinkRelay;
use amqp_types::{ReadError, Transfer};

/// 1 where it is over.
fn over_number(is_over: bool) -> u8
    ensures { result ≡ over_number is_over }
{
    if is_over { 1 } else { 0 }
}

impl Client {
    /// Takes bytes that are to be sent. `NoMemory` where some waits in the engine still: what was taken is to be sent all the same.
    pub(super) fn output(&mut self, output: &mut [u8]) -> (Status, usize)
        ensures { PerformsOutput ⟦<PlainRelay as LinkRelay>⟧.gives self.old output.old result.0 result.1 self.new output.new }
    {
        let status = flushed_status(self.stream.flush());
        let written = take(&mut self.stream, output);
        (status, written)
    }

    /// The operations that only look, and change nothing.
    pub(super) fn tell(&mut self, operation: Operation, output: &mut [u8]) -> (Status, usize)
        requires { IsTrue (only_tells operation) }
        ensures { PerformsBare ⟦<PlainRelay as LinkRelay>⟧.gives operation self.old output.old result.0 result.1 self.new output.new }
    {
        let engine = self.stream.engine();
        match operation {
            Operation::Refusal => telling::refusal(&self.last, &mut self.scratch, output),
            Operation::RemoteOpen => {
                telling::remote_open(engine.connection().remote_open(), &mut self.scratch, output)
            }
            Operation::MaxPieceLen => write(output, &engine.max_piece_len().to_be_bytes()),
            Operation::Unfit => write(output, &self.stream.driver().unfit().to_be_bytes()),
            Operation::IsOver => write(output, &[over_number(self.stream.is_over())]),
            _ => write(
                output,
                &[telling::state_number(*engine.connection().local_state())],
            ),
        }
    }

    /// Writes the session to which a channel of the peer's leads.
    pub(super) fn session_of(&self, input: &[u8], output: &mut [u8]) -> (Status, usize)
        ensures { PerformsSessionOf self.now input.now output.old result.0 result.1 self.now output.new }
    {
        if input.len() != 2 {
            return (Status::BadArgument, 0);
        }
        let channel = u16::from_be_bytes([input[0], input[1]]);
        telling::session_of(self.stream.engine(), channel, output)
    }

    /// Writes the state of a session.
    pub(super) fn session_state(&self, input: &[u8], output: &mut [u8]) -> (Status, usize)
        ensures { PerformsSessionState self.now input.now output.old result.0 result.1 self.now output.new }
    {
        if input.len() != 4 {
            return (Status::BadArgument, 0);
        }
        let number = u32::from_be_bytes([input[0], input[1], input[2], input[3]]);
        telling::session_state(self.stream.engine(), number, output)
    }

    /// Writes what a refusal of a record is called, and what answers it.
    pub(super) fn refusal_text(&mut self, input: &[u8], output: &mut [u8]) -> (Status, usize)
        ensures { PerformsRefusalText self.old input.now output.old result.0 result.1 self.new output.new }
    {
        if input.len() != 4 {
            return (Status::BadArgument, 0);
        }
        let number = u32::from_be_bytes([input[0], input[1], input[2], input[3]]);
        telling::refusal_lines(number, &mut self.scratch, output)
    }

    /// Writes how many bytes of payload go out in one frame beside a transfer.
    pub(super) fn payload_room(&self, input: &[u8], output: &mut [u8]) -> (Status, usize)
        ensures { PerformsPayloadRoom self.now input.now output.old result.0 result.1 self.now output.new }
    {
        match reading::transfer(self.alloc, input) {
            Ok(transfer) => self.room_beside(transfer, output),
            Err(ReadError::Malformed) => (Status::BadArgument, 0),
            Err(ReadError::OutOfMemory) => (Status::NoMemory, 0),
        }
    }

    fn room_beside(&self, transfer: Transfer, output: &mut [u8]) -> (Status, usize)
        ensures { Writes (room_text self.now.stream.driver.engine transfer) output.old result.0 result.1 output.new }
    {
        let room = self.stream.engine().payload_room(&transfer);
        drop(transfer);
        match room {
            Some(room) => write(output, &room.to_be_bytes()),
            None => (Status::Done, 0),
        }
    }
}
