//! Performatives made by their mandatory fields, and the outcome rejected.

use crate::performatives::digits::written;
use crate::same::{holds, same};
use amqp_types::{
    Attach, Begin, Close, Detach, Disposition, Error, Fields, Flow, Handle, Open, Performative,
    Raw, ReadError, Role, Symbol, Transfer, rejected,
};
use bytes::BytesMut;
use std::alloc::Global;
use std::test::Fail;

fn text(alloc: Global, text: &str) -> Result<String, Fail> {
    Ok(String::from_str(alloc, text)?)
}

/// An error of the condition "x".
fn error(alloc: Global) -> Result<Error, Fail> {
    Ok(Error::new(Symbol::new(text(alloc, "x")?).ok_or("no symbol")?))
}

/// Whether this is written as the digits say.
fn is_written(alloc: Global, performative: Performative, digits: &str) -> Result<bool, Fail> {
    let written = written(alloc, &performative);
    drop(performative);
    Ok(written?.as_str() == digits)
}

#[test]
fn fields_that_are_not_named_are_not_written(rt: HostRuntime) -> Result<(), Fail> {
    let alloc = rt.alloc();
    let open = Performative::Open(Open::new(text(alloc, "a")?));
    holds(&rt, is_written(alloc, open, "005310c00401a10161")?);
    let begin = Performative::Begin(Begin::new(0, 8, 9));
    holds(&rt, is_written(alloc, begin, "005311c00704404352085209")?);
    let attach = Attach::new(text(alloc, "a")?, Handle(3), Role::Receiver);
    let attach = Performative::Attach(attach);
    holds(&rt, is_written(alloc, attach, "005312c00703a10161520341")?);
    let flow = Performative::Flow(Flow::new(None, 8, 0, 9));
    holds(&rt, is_written(alloc, flow, "005313c00704405208435209")?);
    Ok(())
}

#[test]
fn fields_of_deliveries_that_are_not_named_are_not_written(rt: HostRuntime) -> Result<(), Fail> {
    let alloc = rt.alloc();
    let transfer = Performative::Transfer(Transfer::new(Handle(3)));
    holds(&rt, is_written(alloc, transfer, "005314c003015203")?);
    let disposition = Performative::Disposition(Disposition::new(Role::Sender, 5));
    holds(&rt, is_written(alloc, disposition, "005315c00402425205")?);
    let detach = Performative::Detach(Detach::new(Handle(3)));
    holds(&rt, is_written(alloc, detach, "005316c003015203")?);
    let error = Some(error(alloc)?);
    let close = Performative::Close(Close { error });
    holds(
        &rt,
        is_written(alloc, close, "005318c00a0100531dc00401a30178")?,
    );
    Ok(())
}

/// A map whose one value is a list inside so many lists.
fn nested(alloc: Global, depth: u8) -> Result<Fields, Fail> {
    let mut map = BytesMut::new(alloc);
    map.extend_from_slice(&[0xc1, size(depth, 5), 2, 0xa3, 1, 0x78])?;
    for inside in (0..depth).rev() {
        map.extend_from_slice(&[0xc0, size(inside, 2), 1])?;
    }
    map.extend_from_slice(&[0x45])?;
    let raw = Raw::of_bytes(map.freeze()?).ok_or("no value")?;
    Ok(Fields::new(raw).ok_or("no map")?)
}

/// The size of what holds so many lists, and so many bytes beside them.
fn size(lists: u8, beside: u8) -> u8 {
    lists.saturating_mul(3).saturating_add(beside)
}

#[test]
fn a_rejected_delivery_has_its_error(rt: HostRuntime) -> Result<(), Fail> {
    let alloc = rt.alloc();
    let error = error(alloc)?;
    let outcome = rejected(alloc, &error)?;
    let want = [
        0x00, 0x53, 0x25, 0xc0, 0x0a, 1, 0x00, 0x53, 0x1d, 0xc0, 4, 1, 0xa3, 1, 0x78,
    ];
    same(&rt, outcome.bytes(), want.as_slice());
    drop(outcome);
    drop(error);
    Ok(())
}

#[test]
fn an_error_that_is_nested_too_deeply_is_refused(rt: HostRuntime) -> Result<(), Fail> {
    let alloc = rt.alloc();
    let mut error = error(alloc)?;
    error.info = Some(nested(alloc, 57)?);
    let shallow = rejected(alloc, &error);
    let is_accepted = shallow.is_ok();
    drop(shallow);
    error.info = Some(nested(alloc, 60)?);
    let refused = rejected(alloc, &error);
    let is_malformed = matches!(&refused, Err(ReadError::Malformed));
    drop(refused);
    drop(error);
    same(&rt, (is_accepted, is_malformed), (true, true));
    Ok(())
}
