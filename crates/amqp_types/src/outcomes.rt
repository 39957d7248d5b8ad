//! The outcome of a delivery that was refused (AMQP 1.0 part 3, section 3.4.3).

ghost use Rattle.std.specs.Prelude.{◌≡◌, ◌<◌, ◌^◌, IfOk, IfErr, OnErr, Err, length};
ghost use Rattle.amqp_memory.specs.Refusal.{SomeRefused};
ghost use Rattle.amqp_values.specs.declared.error.ReadError.TheVariants.{Malformed, OutOfMemory};
ghost use Rattle.amqp_values.specs.Raw.{IsRaw};
ghost use Rattle.amqp_types.specs.Defaults.{rejected_text};

use crate::error::Error;
use crate::error_ref::ErrorRef;
use amqp_memory::{buffer_with, frozen};
use amqp_values::{Raw, ReadError, codes, described_len, field_list, put_described};
use bytes::Bytes;
use std::alloc::{AllocError, Global};

/// The outcome rejected, for this error. The other outcomes are [`Raw::accepted`], [`Raw::released`] and [`Raw::modified`].
///
/// `Malformed` where no value can hold it: the `info` of the error is nested too deeply inside it (a value has a depth of at most 64), or
/// the text has more than 4294967295 bytes. `OutOfMemory` where memory is refused.
pub fn rejected(alloc: Global, error: &Error) -> Result<Raw, ReadError>
    ensures text { IfOk result (λ raw. raw ≡ rejected_text error.now) }
    ensures malformed { result ≡ Err Malformed → length (rejected_text error.now) < 2 ^ 32 → IsRaw (rejected_text error.now) → ⊥ }
    ensures refused { IfErr result (λ e. e ≡ OutOfMemory → SomeRefused) }
{
    let fields = field_list![ErrorRef(error)];
    let len = described_len(&fields);
    if len > u128::from(u32::MAX) {
        return Err(ReadError::Malformed);
    }
    match Raw::of_bytes(text_of(alloc, error, len as usize)?) {
        Some(outcome) => Ok(outcome),
        None => Err(ReadError::Malformed),
    }
}

/// The text of the outcome, which has this length.
fn text_of(alloc: Global, error: &Error, len: usize) -> Result<Bytes, AllocError>
    requires len_is { len ≡ length (rejected_text error.now) }
    requires fits { len < 2 ^ 32 }
    ensures text { IfOk result (λ text. text ≡ rejected_text error.now) }
    ensures refused { OnErr result SomeRefused }
{
    let mut text = buffer_with(alloc, len)?;
    put_described(
        codes::REJECTED,
        &field_list![ErrorRef(error)],
        len,
        &mut text,
    );
    Ok(frozen(text)?)
}
