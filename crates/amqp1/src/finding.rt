//! The link of a transfer: it is named by this side's handle alone, and the peer's is found.

ghost use Rattle.amqp1.specs.Finding.{Finds};

use amqp_driver::Driver;
use amqp_engine::Input;
use amqp_session::{LinkRelay, OutputHandle};

/// The input, with the peer's handle of its link where it is a transfer. `None` where no such link is attached, in a session that is mapped.
pub(crate) fn found<R: LinkRelay>(driver: &Driver<R>, input: Input<R>) -> Option<Input<R>>
    ensures { Finds driver.now.engine input result }
{
    match input {
        Input::Transfer(session, _, transfer, payload, first) => {
            let link = OutputHandle(transfer.handle.0);
            let Some(handle) = driver.input_handle_of(session, link) else {
                drop(transfer);
                drop(payload);
                return None;
            };
            Some(Input::Transfer(session, handle, transfer, payload, first))
        }
        other => Some(other),
    }
}
