//! Dispositions by the numbers of deliveries, and what waits to be sent.

ghost use Rattle.std.specs.Prelude.{◌≡◌, [], OnOk, OnErr};
ghost use Rattle.amqp_memory.specs.Refusal.{SomeRefused};
ghost use Rattle.amqp_driver.specs.Driver.{SendsOnly};
ghost use Rattle.amqp_driver.specs.Settling.{Disposes, state_of};

use super::Driver;
use super::telling::counted;
use crate::asked::Asked;
use amqp_connection::SessionNo;
use amqp_engine::Input;
use amqp_session::LinkRelay;
use amqp_types::{Disposition, Role};
use amqp_values::Raw;
use std::alloc::AllocError;
use std::collections::VecDeque;

/// The state of deliveries, by the number that records have for it. `None` of any other number.
fn state_of(outcome: u8) -> Option<Option<Raw>>
    ensures { result ≡ state_of outcome }
{
    match outcome {
        0 => Some(None),
        1 => Some(Some(Raw::accepted())),
        3 => Some(Some(Raw::released())),
        4 => Some(Some(Raw::modified())),
        _ => None,
    }
}

impl<R: LinkRelay> Driver<R> {
    /// Requests a disposition of the deliveries of a session from the first number to the last (AMQP 1.0 part 2, section 2.7.6), and says
    /// what became of it. The role is this side's: `Receiver` of deliveries that came, as those of transfers in records.
    ///
    /// The state is that of an outcome, by its number in records: 0 for none, 1 accepted, 3 released, 4 modified. `None` for any other
    /// number, and nothing changes: a disposition with another state, as a rejected one with its error, goes by [`Driver::request`].
    ///
    /// ```
    /// let asked = driver.dispose(SessionNo(0), Role::Receiver, record.first, record.first, true, 1);
    /// ```
    pub fn dispose(
        &mut self,
        session: SessionNo,
        role: Role,
        first: u32,
        last: u32,
        settled: bool,
        outcome: u8,
    ) -> Option<Asked>
        ensures { Disposes R.gives self.old session.0 role first last settled (state_of outcome) result self.new }
    {
        let state = state_of(outcome)?;
        let disposition = Disposition {
            role,
            first,
            last: Some(last),
            settled,
            state,
            batchable: false,
        };
        Some(self.request(Input::Disposition(session, disposition)))
    }

    /// Sends what waits in the engine, to [`Driver::out`]: where memory was refused before, frames wait there. `AllocError` where memory is
    /// refused again, and some still wait.
    pub fn flush(&mut self) -> Result<(), AllocError>
        ensures sent { SendsOnly R.gives self.old self.new }
        ensures all { OnOk result (self.new.engine.waiting ≡ []) }
        ensures left { OnErr result (¬ (self.new.engine.waiting ≡ [])) }
        ensures refused { OnErr result SomeRefused }
    {
        let mut none: VecDeque<Input<R>> = VecDeque::new(self.alloc);
        let ran = self
            .engine
            .run_into(&mut none, &mut self.out, &mut self.returned);
        drop(none);
        self.unfit = counted(self.unfit, &self.returned);
        self.returned.clear();
        match ran {
            Ok(()) => Ok(()),
            Err(_) => Err(AllocError),
        }
    }
}
