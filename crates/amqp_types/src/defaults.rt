//! Performatives by their mandatory fields. Each other field has the standard's default, or is absent where the standard has none
//! (AMQP 1.0 part 2, section 2.7). All fields are public, so that the rest is set afterwards.

ghost use Rattle.std.specs.Prelude.{◌≡◌, string_bytes};
ghost use Rattle.amqp_types.specs.Defaults.{plain_attach, plain_begin, plain_detach, plain_disposition};
ghost use Rattle.amqp_types.specs.Defaults.{plain_error, plain_flow, plain_open, plain_transfer};

use crate::definitions::{Handle, ReceiverSettleMode, Role, SenderSettleMode};
use crate::error::Error;
use crate::performatives::{Attach, Begin, Detach, Disposition, Flow, Open, Transfer};
use amqp_values::Symbol;

impl Open {
    /// An Open of the container of this name. The largest frame is 4294967295 bytes and the highest channel 65535 (section 2.7.1): who
    /// takes less than that sets the fields. All else is absent.
    pub fn new(container_id: String) -> Open
        ensures { result ≡ plain_open (string_bytes container_id) }
    {
        Open {
            container_id,
            hostname: None,
            max_frame_size: u32::MAX,
            channel_max: u16::MAX,
            idle_time_out: None,
            outgoing_locales: None,
            incoming_locales: None,
            offered_capabilities: None,
            desired_capabilities: None,
            properties: None,
        }
    }
}

impl Begin {
    /// A Begin with the number of the first transfer that goes out, and both windows, in transfers. It answers no other Begin, and the
    /// highest handle is 4294967295 (section 2.7.2). An engine makes its Begins itself, from the settings of a session.
    pub fn new(next_outgoing_id: u32, incoming_window: u32, outgoing_window: u32) -> Begin
        ensures { result ≡ plain_begin next_outgoing_id incoming_window outgoing_window }
    {
        Begin {
            remote_channel: None,
            next_outgoing_id,
            incoming_window,
            outgoing_window,
            handle_max: Handle(u32::MAX),
            offered_capabilities: None,
            desired_capabilities: None,
            properties: None,
        }
    }
}

impl Attach {
    /// An Attach of the link of this name, under this handle. Its sender settles as it likes (mixed), its receiver first (section 2.7.3). A
    /// sender sets `initial_delivery_count` too: the standard wants it there.
    pub fn new(name: String, handle: Handle, role: Role) -> Attach
        ensures { result ≡ plain_attach (string_bytes name) handle.0 role }
    {
        Attach {
            name,
            handle,
            role,
            snd_settle_mode: SenderSettleMode::Mixed,
            rcv_settle_mode: ReceiverSettleMode::First,
            source: None,
            target: None,
            unsettled: None,
            incomplete_unsettled: false,
            initial_delivery_count: None,
            max_message_size: None,
            offered_capabilities: None,
            desired_capabilities: None,
            properties: None,
        }
    }
}

impl Flow {
    /// A Flow of a session alone: no link is named, nothing is drained, and no answer is wanted (section 2.7.4). `next_incoming_id` is
    /// there where the peer's Begin has come. Windows are counted in transfers.
    pub fn new(
        next_incoming_id: Option<u32>,
        incoming_window: u32,
        next_outgoing_id: u32,
        outgoing_window: u32,
    ) -> Flow
        ensures { result ≡ plain_flow next_incoming_id incoming_window next_outgoing_id outgoing_window }
    {
        Flow {
            next_incoming_id,
            incoming_window,
            next_outgoing_id,
            outgoing_window,
            handle: None,
            delivery_count: None,
            link_credit: None,
            available: None,
            drain: false,
            echo: false,
            properties: None,
        }
    }
}

impl Transfer {
    /// A whole, unsettled transfer on the link of this handle (section 2.7.5). The first one of a delivery needs a `delivery_tag` too. A
    /// session numbers it: `delivery_id` is set when it goes out.
    pub fn new(handle: Handle) -> Transfer
        ensures { result ≡ plain_transfer handle.0 }
    {
        Transfer {
            handle,
            delivery_id: None,
            delivery_tag: None,
            message_format: None,
            settled: None,
            more: false,
            rcv_settle_mode: None,
            state: None,
            resume: false,
            aborted: false,
            batchable: false,
        }
    }
}

impl Disposition {
    /// A Disposition of one delivery, by this end of its link, that settles nothing and names no state (section 2.7.6).
    pub fn new(role: Role, first: u32) -> Disposition
        ensures { result ≡ plain_disposition role first }
    {
        Disposition {
            role,
            first,
            last: None,
            settled: false,
            state: None,
            batchable: false,
        }
    }
}

impl Detach {
    /// A Detach of the link of this handle, which may be attached again, and for no error (section 2.7.7).
    pub fn new(handle: Handle) -> Detach
        ensures { result ≡ plain_detach handle.0 }
    {
        Detach {
            handle,
            closed: false,
            error: None,
        }
    }
}

impl Error {
    /// An error of this condition alone (section 2.8.14).
    pub fn new(condition: Symbol) -> Error
        ensures { result ≡ plain_error condition }
    {
        Error {
            condition,
            description: None,
            info: None,
        }
    }
}
