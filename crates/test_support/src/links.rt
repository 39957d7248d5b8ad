//! What attaches a link, gives it credit, and detaches it.

use amqp_session::LinkFlow;
use amqp_types::{Attach, Detach, Handle, Role};

/// The attach of a link of this name under this handle, in this role, and nothing else.
pub fn attach_of(name: String, handle: u32, role: Role) -> Attach {
    Attach::new(name, Handle(handle), role)
}

/// The flow of the link of this handle with this credit, which asks for an echo or not.
pub fn link_flow_of(handle: u32, credit: u32, echo: bool) -> LinkFlow {
    LinkFlow {
        link_credit: Some(credit),
        echo,
        ..LinkFlow::new(Handle(handle))
    }
}

/// The detach that closes the link of this handle, without an error.
pub fn detach_of(handle: u32) -> Detach {
    Detach {
        closed: true,
        ..Detach::new(Handle(handle))
    }
}
