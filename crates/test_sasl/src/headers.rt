//! Headers: the bytes of each, and what is read of bytes.

use crate::same::same;
use amqp_sasl::{Protocol, ReceivedHeader, read_header};
use std::test::Fail;

#[test]
fn each_header_has_its_bytes(rt: HostRuntime) -> Result<(), Fail> {
    same(&rt, Protocol::Amqp.header(), *b"AMQP\x00\x01\x00\x00");
    same(&rt, Protocol::Tls.header(), *b"AMQP\x02\x01\x00\x00");
    same(&rt, Protocol::Sasl.header(), *b"AMQP\x03\x01\x00\x00");
    same(&rt, Protocol::Sasl.id(), 3);
    Ok(())
}

#[test]
fn a_header_is_read_whatever_follows(rt: HostRuntime) -> Result<(), Fail> {
    let sasl = ReceivedHeader::Header(Protocol::Sasl);
    same(&rt, read_header(b"AMQP\x03\x01\x00\x00"), sasl);
    same(&rt, read_header(b"AMQP\x03\x01\x00\x00\x00\x00"), sasl);
    let tls = ReceivedHeader::Header(Protocol::Tls);
    same(&rt, read_header(b"AMQP\x02\x01\x00\x00"), tls);
    let amqp = ReceivedHeader::Header(Protocol::Amqp);
    same(&rt, read_header(b"AMQP\x00\x01\x00\x00"), amqp);
    Ok(())
}

#[test]
fn other_bytes_are_told(rt: HostRuntime) -> Result<(), Fail> {
    // the header of AMQP 0-9-1
    let old = *b"AMQP\x00\x00\x09\x01";
    same(&rt, read_header(&old), ReceivedHeader::Other(old));
    let http = ReceivedHeader::Other(*b"GET / HT");
    same(&rt, read_header(b"GET / HTTP/1.1"), http);
    same(&rt, read_header(b""), ReceivedHeader::Begun);
    same(&rt, read_header(b"AM"), ReceivedHeader::Begun);
    same(&rt, read_header(b"AMQP\x09\x09\x09"), ReceivedHeader::Begun);
    same(&rt, read_header(b"AX"), ReceivedHeader::NotAmqp);
    same(&rt, read_header(b"GET"), ReceivedHeader::NotAmqp);
    Ok(())
}
