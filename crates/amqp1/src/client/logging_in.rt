//! The calls of SASL.

ghost use Rattle.std.specs.Prelude.{◌≡◌};
ghost use Rattle.amqp1.specs.LoggingIn.{PerformsChallenge, PerformsLogin, PerformsRespond, sasl_last, sasl_status};

use super::Client;
use crate::logging_in::login_of;
use crate::refused::Refused;
use crate::status::{Status, sasl_status};
use amqp_sasl::OpeningError;

impl Client {
    /// Answers a client that asked to be let in. `BadArgument` exactly where the bytes do not have the operation's form.
    pub(super) fn login(&mut self, input: &[u8]) -> Status
        ensures { PerformsLogin self.old input.now result self.new }
    {
        let Some((code, additional)) = login_of(input) else {
            return Status::BadArgument;
        };
        let answer = self.stream.login(code, additional);
        self.note_sasl(answer)
    }

    /// Sends a challenge, which is all the bytes.
    pub(super) fn challenge(&mut self, input: &[u8]) -> Status
        ensures { PerformsChallenge self.old input.now result self.new }
    {
        let answer = self.stream.challenge(input);
        self.note_sasl(answer)
    }

    /// Sends a response, which is all the bytes.
    pub(super) fn respond(&mut self, input: &[u8]) -> Status
        ensures { PerformsRespond self.old input.now result self.new }
    {
        let answer = self.stream.respond(input);
        self.note_sasl(answer)
    }

    /// The status of a call of SASL. Its refusal is kept, if it is one.
    fn note_sasl(&mut self, answer: Result<(), OpeningError>) -> Status
        ensures status { result ≡ sasl_status answer }
        ensures noted { self.new ≡ record self.old { last = sasl_last self.old.last answer } }
    {
        let status = sasl_status(&answer);
        match answer {
            Err(OpeningError::WrongTime) => self.last = Refused::wrong_time(),
            Err(OpeningError::TooLarge) => self.last = Refused::too_large(),
            Ok(()) | Err(OpeningError::OutOfMemory) => {}
        }
        status
    }
}
