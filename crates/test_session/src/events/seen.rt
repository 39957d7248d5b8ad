//! An event in short, so that it can be compared.

use amqp_events::{Event, EventBody, LinkNames};

/// What an event says. A text is told by its first byte, and 0 stands for none.
#[derive(Clone, Copy, PartialEq)]
pub enum Seen {
    /// No event waits.
    Nothing,
    Attached(LinkNames, u8),
    Flow(LinkNames, Option<u32>),
    /// The delivery's number, and the payload.
    Transfer(LinkNames, Option<u32>, u8),
    /// Whether it is settled, and the tag.
    Disposition(LinkNames, bool, u8),
    Detached(LinkNames, bool),
}

fn first(text: &[u8]) -> u8 {
    if text.is_empty() { 0 } else { text[0] }
}

fn said(event: &Event) -> Seen {
    let link = event.link;
    match &event.body {
        EventBody::Attached(attach) => Seen::Attached(link, first(attach.name.as_bytes())),
        EventBody::Flow(flow) => Seen::Flow(link, flow.link_credit),
        EventBody::Transfer {
            performative,
            payload,
        } => Seen::Transfer(link, performative.delivery_id, first(payload.as_slice())),
        EventBody::Disposition { settled, tag, .. } => {
            Seen::Disposition(link, *settled, first(tag.0.as_slice()))
        }
        EventBody::Detached {
            remote_initiated,
            ..
        } => Seen::Detached(link, *remote_initiated),
    }
}

/// What is seen of an event, which ends here.
pub fn show(event: Option<Event>) -> Seen {
    match event {
        None => Seen::Nothing,
        Some(event) => {
            let told = said(&event);
            drop(event);
            told
        }
    }
}
