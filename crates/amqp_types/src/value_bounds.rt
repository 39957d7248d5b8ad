//! Code for the prover alone, which does nothing at run time: the bounds that a value has by its type.

ghost use Rattle.std.specs.Prelude.{◌≡◌, ◌<◌, ◌^◌, IfSome, string_bytes};
ghost use Rattle.std.specs.Option.{option_map};
ghost use Rattle.std.specs.Str.{IsUtf8};
ghost use Rattle.amqp_values.specs.Raw.{IsRaw, IsMap};
ghost use Rattle.amqp_values.specs.Inner.Held.{AreSymbols};
ghost use Rattle.amqp_types.specs.Inner.Held.{IsShort, IsWord, IsLong, ErrorHeld, OpenHeld, BeginHeld, AttachHeld};
ghost use Rattle.amqp_types.specs.Inner.Held.{FlowHeld, TransferHeld, DispositionHeld, DetachHeld, EndHeld, CloseHeld, Held};

use crate::definitions::Handle;
use crate::error::Error;
use crate::performatives::{
    Attach, Begin, Close, Detach, Disposition, End, Flow, Open, Performative, Transfer,
};
use amqp_values::{Fields, Raw, Symbol};

fn text(text: &String)
    ensures { IsUtf8 (string_bytes text.now) }
{
    let _text = text.as_str();
}

fn optional_text(value: &Option<String>)
    ensures { IfSome (option_map string_bytes value.now) IsUtf8 }
{
    if let Some(value) = value {
        text(value);
    }
}

fn short(_number: u16)
    ensures { IsShort _number }
{}

fn optional_short(number: Option<u16>)
    ensures { IfSome number IsShort }
{
    if let Some(number) = number {
        short(number);
    }
}

fn word(_number: u32)
    ensures { IsWord _number }
{}

fn optional_word(number: Option<u32>)
    ensures { IfSome number IsWord }
{
    if let Some(number) = number {
        word(number);
    }
}

fn long(_number: u64)
    ensures { IsLong _number }
{}

fn optional_long(number: Option<u64>)
    ensures { IfSome number IsLong }
{
    if let Some(number) = number {
        long(number);
    }
}

fn optional_handle(handle: Option<Handle>)
    ensures { IfSome (option_map (λ h. h.0) handle) IsWord }
{
    if let Some(handle) = handle {
        word(handle.0);
    }
}

fn symbols(symbols: &[Symbol])
    ensures { AreSymbols symbols.now }
{
    for symbol in symbols {
        let _text = symbol.as_str();
    }
}

fn optional_symbols(value: &Option<Vec<Symbol>>)
    ensures { IfSome (option_map (λ v. v.items) value.now) AreSymbols }
{
    if let Some(value) = value {
        symbols(value.as_slice());
    }
}

fn optional_value(value: &Option<Raw>)
    ensures { IfSome value.now IsRaw }
{
    if let Some(value) = value {
        let _bytes = value.bytes();
    }
}

fn optional_fields(value: &Option<Fields>)
    ensures { IfSome value.now IsMap }
{
    if let Some(value) = value {
        let _raw = value.raw();
    }
}

fn error(error: &Error)
    ensures { ErrorHeld error.now }
{
    let _condition = error.condition.as_str();
    optional_text(&error.description);
    optional_fields(&error.info);
}

fn optional_error(value: &Option<Error>)
    ensures { IfSome value.now ErrorHeld }
{
    if let Some(value) = value {
        error(value);
    }
}

pub(crate) fn open(p: &Open)
    ensures { OpenHeld p.now }
{
    text(&p.container_id);
    optional_text(&p.hostname);
    word(p.max_frame_size);
    short(p.channel_max);
    optional_word(p.idle_time_out);
    optional_symbols(&p.outgoing_locales);
    optional_symbols(&p.incoming_locales);
    optional_symbols(&p.offered_capabilities);
    optional_symbols(&p.desired_capabilities);
    optional_fields(&p.properties);
}

pub(crate) fn begin(p: &Begin)
    ensures { BeginHeld p.now }
{
    optional_short(p.remote_channel);
    word(p.next_outgoing_id);
    word(p.incoming_window);
    word(p.outgoing_window);
    word(p.handle_max.0);
    optional_symbols(&p.offered_capabilities);
    optional_symbols(&p.desired_capabilities);
    optional_fields(&p.properties);
}

pub(crate) fn attach(p: &Attach)
    ensures { AttachHeld p.now }
{
    text(&p.name);
    word(p.handle.0);
    optional_value(&p.source);
    optional_value(&p.target);
    optional_fields(&p.unsettled);
    optional_word(p.initial_delivery_count);
    optional_long(p.max_message_size);
    optional_symbols(&p.offered_capabilities);
    optional_symbols(&p.desired_capabilities);
    optional_fields(&p.properties);
}

pub(crate) fn flow(p: &Flow)
    ensures { FlowHeld p.now }
{
    optional_word(p.next_incoming_id);
    word(p.incoming_window);
    word(p.next_outgoing_id);
    word(p.outgoing_window);
    optional_handle(p.handle);
    optional_word(p.delivery_count);
    optional_word(p.link_credit);
    optional_word(p.available);
    optional_fields(&p.properties);
}

pub(crate) fn transfer(p: &Transfer)
    ensures { TransferHeld p.now }
{
    word(p.handle.0);
    optional_word(p.delivery_id);
    optional_word(p.message_format);
    optional_value(&p.state);
}

pub(crate) fn disposition(p: &Disposition)
    ensures { DispositionHeld p.now }
{
    word(p.first);
    optional_word(p.last);
    optional_value(&p.state);
}

pub(crate) fn detach(p: &Detach)
    ensures { DetachHeld p.now }
{
    word(p.handle.0);
    optional_error(&p.error);
}

pub(crate) fn end(p: &End)
    ensures { EndHeld p.now }
{
    optional_error(&p.error);
}

pub(crate) fn close(p: &Close)
    ensures { CloseHeld p.now }
{
    optional_error(&p.error);
}

/// Each field keeps the bounds of its type.
pub(crate) fn performative(performative: &Performative)
    ensures { Held performative.now }
{
    match performative {
        Performative::Open(p) => open(p),
        Performative::Begin(p) => begin(p),
        Performative::Attach(p) => attach(p),
        Performative::Flow(p) => flow(p),
        Performative::Transfer(p) => transfer(p),
        Performative::Disposition(p) => disposition(p),
        Performative::Detach(p) => detach(p),
        Performative::End(p) => end(p),
        Performative::Close(p) => close(p),
    }
}
