//! Fields, borrowed for writing: an absent field and one that has its default are null.

ghost use Rattle.std.specs.Prelude.{◌≡◌, string_bytes};
ghost use Rattle.std.specs.Option.{option_map};
ghost use Rattle.amqp_values.specs.Writing.{optional_text, uint_or, ushort_or, uint_text, ubyte_text};
ghost use Rattle.amqp_values.specs.Writing.{ushort_text, boolean_text, string_text, binary_text, symbols_text};
ghost use Rattle.amqp_types.specs.Definitions.{flag_text, value_text, role_text};
ghost use Rattle.amqp_types.specs.Definitions.{receiver_mode_text, sender_mode_or_mixed, receiver_mode_or_first};

use crate::definitions::{DeliveryTag, Handle, ReceiverSettleMode, Role, SenderSettleMode};
use amqp_values::{Binary, Fields, Raw, StringRef, Symbol, Symbols, Verbatim};

#[inline(always)]
pub(crate) fn uint_or(n: u32, default: u32) -> Option<u32>
    ensures { optional_text uint_text result ≡ uint_or default n }
{
    if n == default { None } else { Some(n) }
}

#[inline(always)]
pub(crate) fn ushort_or(n: u16, default: u16) -> Option<u16>
    ensures { optional_text ushort_text result ≡ ushort_or default n }
{
    if n == default { None } else { Some(n) }
}

/// A flag: true, or null.
#[inline(always)]
pub(crate) fn true_or_null(set: bool) -> Option<bool>
    ensures { optional_text boolean_text result ≡ flag_text set }
{
    if set { Some(true) } else { None }
}

#[inline(always)]
pub(crate) fn optional_string(text: &Option<String>) -> Option<StringRef<'_>>
    ensures { optional_text (λ s. string_text s.0.now) result ≡ optional_text string_text (option_map string_bytes text.now) }
{
    match text {
        Some(text) => Some(StringRef(text.as_str())),
        None => None,
    }
}

#[inline(always)]
pub(crate) fn optional_symbols(symbols: &Option<Vec<Symbol>>) -> Option<Symbols<'_>>
    ensures { optional_text (λ s. symbols_text s.0.now) result ≡ optional_text symbols_text (option_map (λ v. v.items) symbols.now) }
{
    match symbols {
        Some(symbols) => Some(Symbols(symbols.as_slice())),
        None => None,
    }
}

#[inline(always)]
pub(crate) fn optional_value(value: &Option<Raw>) -> Option<Verbatim<'_>>
    ensures { optional_text (λ v. v.0.now) result ≡ optional_text value_text value.now }
{
    match value {
        Some(value) => Some(Verbatim(value.bytes())),
        None => None,
    }
}

#[inline(always)]
pub(crate) fn optional_fields(fields: &Option<Fields>) -> Option<Verbatim<'_>>
    ensures { optional_text (λ v. v.0.now) result ≡ optional_text value_text fields.now }
{
    match fields {
        Some(fields) => Some(Verbatim(fields.raw().bytes())),
        None => None,
    }
}

#[inline(always)]
pub(crate) fn optional_tag(tag: &Option<DeliveryTag>) -> Option<Binary<'_>>
    ensures { optional_text (λ b. binary_text b.0.now) result ≡ optional_text binary_text (option_map (λ t. t.0) tag.now) }
{
    match tag {
        Some(tag) => Some(Binary(tag.0.as_slice())),
        None => None,
    }
}

#[inline(always)]
pub(crate) fn optional_handle(handle: Option<Handle>) -> Option<u32>
    ensures { optional_text uint_text result ≡ optional_text uint_text (option_map (λ h. h.0) handle) }
{
    match handle {
        Some(handle) => Some(handle.0),
        None => None,
    }
}

#[inline(always)]
pub(crate) fn role(role: Role) -> bool
    ensures { boolean_text result ≡ role_text role }
{
    match role {
        Role::Sender => false,
        Role::Receiver => true,
    }
}

#[inline(always)]
pub(crate) fn sender_mode(mode: SenderSettleMode) -> Option<u8>
    ensures { optional_text ubyte_text result ≡ sender_mode_or_mixed mode }
{
    match mode {
        SenderSettleMode::Unsettled => Some(0),
        SenderSettleMode::Settled => Some(1),
        SenderSettleMode::Mixed => None,
    }
}

#[inline(always)]
pub(crate) fn receiver_mode(mode: ReceiverSettleMode) -> Option<u8>
    ensures { optional_text ubyte_text result ≡ receiver_mode_or_first mode }
{
    match mode {
        ReceiverSettleMode::First => None,
        ReceiverSettleMode::Second => Some(1),
    }
}

#[inline(always)]
pub(crate) fn optional_receiver_mode(mode: Option<ReceiverSettleMode>) -> Option<u8>
    ensures { optional_text ubyte_text result ≡ optional_text receiver_mode_text mode }
{
    match mode {
        None => None,
        Some(ReceiverSettleMode::First) => Some(0),
        Some(ReceiverSettleMode::Second) => Some(1),
    }
}
