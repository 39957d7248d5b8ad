//! Links: the input of the engine that allots a handle to one.

ghost use Rattle.std.specs.Prelude.{◌≡◌, IfOk, OnErr, Option, ℕ};
ghost use Rattle.amqp_memory.specs.Refusal.{SomeRefused};
ghost use Rattle.amqp1.specs.declared.linking.LinkAsked.{LinkAsked};
ghost use Rattle.amqp1.specs.Linking.{Allots, FindsLink, FindsPolicy, link_said};

use crate::operation::Operation;
use crate::reading;
use amqp_connection::SessionNo;
use amqp_driver::PlainRelay;
use amqp_engine::Input;
use amqp_events::Policy;
use amqp_memory::text_of;
use amqp_session::InputHandle;
use amqp_types::{ReceiverSettleMode, Role};
use std::alloc::{AllocError, Global};

/// A link that is to be allotted a handle.
#[derive(Clone, Copy)]
pub(crate) struct LinkAsked<'a> {
    /// The session.
    pub(crate) session: u32,
    /// The handle on which its attach came, if it came.
    pub(crate) input: Option<u32>,
    /// The end on which this side stands.
    pub(crate) role: Role,
    /// How the receiver settles.
    pub(crate) mode: ReceiverSettleMode,
    /// The name.
    pub(crate) name: &'a str,
}

/// The link that an operation's bytes ask for. `None` exactly where they do not have the operation's form, and for an operation that allots none.
pub(crate) fn asked(operation: Operation, input: &[u8]) -> Option<LinkAsked<'_>>
    ensures { FindsLink operation input.now result }
{
    let (session, rest) = reading::number(input)?;
    match operation {
        Operation::Link => named(session, None, rest),
        Operation::LinkOn => {
            let (handle, rest) = reading::number(rest)?;
            named(session, Some(handle), rest)
        }
        _ => None,
    }
}

/// The link by its policy and its name.
fn named(session: u32, input: Option<u32>, bytes: &[u8]) -> Option<LinkAsked<'_>>
    ensures { FindsPolicy session input bytes.now result }
{
    let (role, after) = reading::byte(bytes)?;
    let (mode, rest) = reading::byte(after)?;
    let role = reading::role(role)?;
    let mode = reading::mode(mode)?;
    match std::str::from_utf8(rest) {
        Ok(name) => Some(LinkAsked {
            session,
            input,
            role,
            mode,
            name,
        }),
        Err(_) => None,
    }
}

/// The engine's input, with a relay that answers by the link's policy. `AllocError` where memory is refused.
pub(crate) fn input_of(
    alloc: Global,
    asked: &LinkAsked<'_>,
) -> Result<Input<PlainRelay>, AllocError>
    ensures ok { IfOk result (Allots (link_said asked.now)) }
    ensures refused { OnErr result SomeRefused }
{
    let name = text_of(alloc, asked.name)?;
    let number = SessionNo(asked.session);
    let relay = PlainRelay::new(Policy::new(asked.role, asked.mode));
    Ok(match asked.input {
        None => Input::AllocateLink(number, name, Some(relay)),
        Some(handle) => { Input::AllocateIncomingLink(number, name, relay, InputHandle(handle)) }
    })
}
