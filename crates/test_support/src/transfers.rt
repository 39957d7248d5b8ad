//! Transfers, dispositions, and the states that these carry.

use amqp_types::{DeliveryTag, Disposition, Handle, Raw, Role, Transfer};
use bytes::Bytes;

/// A transfer on the link of this handle, with a tag or none, and nothing else.
pub fn transfer_of(handle: u32, tag: Option<&'static [u8]>) -> Transfer {
    let delivery_tag = match tag {
        Some(tag) => Some(DeliveryTag(Bytes::from_static(tag))),
        None => None,
    };
    Transfer {
        delivery_tag,
        ..Transfer::new(Handle(handle))
    }
}

/// A disposition from `first` to `last`, of a peer in this role, with a state or none.
pub fn disposition_of(
    role: Role,
    first: u32,
    last: Option<u32>,
    settled: bool,
    state: Option<Raw>,
) -> Disposition {
    Disposition {
        last,
        settled,
        state,
        ..Disposition::new(role, first)
    }
}

/// The value at the front of these bytes, if there is one.
pub fn raw_of(bytes: &'static [u8]) -> Option<Raw> {
    match Raw::read(Bytes::from_static(bytes)) {
        Ok((raw, _rest)) => Some(raw),
        Err(_error) => None,
    }
}
