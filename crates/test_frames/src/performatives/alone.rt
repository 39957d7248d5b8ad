//! Each performative by itself: the length of its text, its text put into a buffer with room for it, and a limit.

ghost use Rattle.std.specs.Prelude.{◌≡◌, ◌≤◌, ◌<◌, ◌^◌, length};
ghost use Rattle.amqp_types.specs.Performatives.{performative_text};

use crate::given::delivery;
use crate::performatives::digits::read;
use crate::same::same;
use amqp_types::laws::text_is_read;
use amqp_types::{Close, Performative, Transfer, TransferFragment, WriteError};
use bytes::BytesMut;
use std::alloc::Global;
use std::test::Fail;

/// One of each kind, in its canonical text.
const TEXTS: [&'static str; 9] = [
    "005310c00401a10161",
    "005311c00704600001434343",
    "005312c00603a101614341",
    "005313c006044043435207",
    "005314c006034340a00107",
    "005315c0050441434041",
    "005316c003024341",
    "005317c00a0100531dc00401a30178",
    "00531845",
];

/// The length that `encoded_len` of that kind answers.
fn len(performative: &Performative) -> u128 {
    match performative {
        Performative::Open(p) => p.encoded_len(),
        Performative::Begin(p) => p.encoded_len(),
        Performative::Attach(p) => p.encoded_len(),
        Performative::Flow(p) => p.encoded_len(),
        Performative::Transfer(p) => p.encoded_len(),
        Performative::Disposition(p) => p.encoded_len(),
        Performative::Detach(p) => p.encoded_len(),
        Performative::End(p) => p.encoded_len(),
        Performative::Close(p) => p.encoded_len(),
    }
}

/// Puts the text, as the performative of that kind does.
fn put(performative: &Performative, len: usize, out: &mut BytesMut)
    requires len_is { len ≡ length (performative_text performative.now) }
    requires room { length (performative_text performative.now) ≤ out.old.spare }
    requires fits { length (performative_text performative.now) < 2 ^ 32 }
{
    match performative {
        Performative::Open(p) => p.put(len, out),
        Performative::Begin(p) => p.put(len, out),
        Performative::Attach(p) => p.put(len, out),
        Performative::Flow(p) => p.put(len, out),
        Performative::Transfer(p) => p.put(len, out),
        Performative::Disposition(p) => p.put(len, out),
        Performative::Detach(p) => p.put(len, out),
        Performative::End(p) => p.put(len, out),
        Performative::Close(p) => p.put(len, out),
    }
}

/// The digits of the text that `put` appends; its length has to be the one that `encoded_len` answers.
fn put_alone(alloc: Global, performative: &Performative) -> Result<String, Fail> {
    let len = performative.encoded_len();
    if 1000 < len {
        return Err("a long text".into());
    }
    let mut out = BytesMut::with_capacity(alloc, len as usize)?;
    put(performative, len as usize, &mut out);
    Ok(hex::encode(alloc, out.as_slice())?)
}

/// Whether `put` appends the text that was read, of the length that `encoded_len` answers.
fn is_put(alloc: Global, digits: &str) -> Result<bool, Fail> {
    let performative = read(alloc, digits)?;
    let is_put = is_put_as(alloc, &performative, digits);
    drop(performative);
    is_put
}

fn is_put_as(alloc: Global, performative: &Performative, want: &str) -> Result<bool, Fail> {
    text_is_read(performative);
    let len = len(performative);
    let text = put_alone(alloc, performative)?;
    Ok(text.as_str() == want && len == (text.len() / 2) as u128)
}

#[test]
fn each_performative_puts_its_text(rt: HostRuntime) -> Result<(), Fail> {
    for digits in TEXTS {
        same(&rt, (digits, is_put(rt.alloc(), digits)?), (digits, true));
    }
    Ok(())
}

fn put_in(alloc: Global, transfer: &Transfer, text: TransferFragment) -> Result<String, Fail> {
    let len = transfer.encoded_len_in(text);
    if 1000 < len {
        return Err("a long text".into());
    }
    let mut out = BytesMut::with_capacity(alloc, len as usize)?;
    transfer.put_in(text, len as usize, &mut out);
    Ok(hex::encode(alloc, out.as_slice())?)
}

/// Whether this text of the transfer has these digits, and the length that is said of it.
fn is_cut_as(alloc: Global, text: TransferFragment, want: &str) -> Result<bool, Fail> {
    let transfer = delivery(0);
    let said = put_in(alloc, &transfer, text);
    let len = transfer.encoded_len_in(text);
    drop(transfer);
    let said = said?;
    Ok(said.as_str() == want && len == (said.len() / 2) as u128)
}

#[test]
fn the_texts_of_a_transfer_that_is_cut(rt: HostRuntime) -> Result<(), Fail> {
    let rows = [
        (TransferFragment::Whole, "005314c00b054343a004000000014342"),
        (
            TransferFragment::First,
            "005314c00c064343a00400000001434241",
        ),
        (TransferFragment::Middle, "005314c00706434040404041"),
        (TransferFragment::Last, "005314c0020143"),
    ];
    for (text, want) in rows {
        same(
            &rt,
            (want, is_cut_as(rt.alloc(), text, want)?),
            (want, true),
        );
    }
    Ok(())
}

#[test]
fn a_text_above_the_limit_is_not_written(rt: HostRuntime) {
    let close = Performative::Close(Close { error: None });
    let mut out = BytesMut::new(rt.alloc());
    let below = close.write(&mut out, 3);
    let is_left = out.is_empty();
    let at = close.write(&mut out, 4);
    let is_close = out.as_slice() == [0x00, 0x53, 0x18, 0x45].as_slice();
    drop(close);
    drop(out);
    let is_refused = below == Err(WriteError::TooLarge);
    let is_written = at == Ok(());
    same(&rt, [is_refused, is_left, is_written, is_close], [true; 4]);
}
