//! What calls answer, as lines.

use amqp_links::{
    End, Entry, LinkFault, LinkFlow, PreparedPart, ReceivedPart, ReceivingLink, SendPartError,
    SendingLink, TakePartError, TransferError,
};
use std::alloc::Global;
use std::fmt;

/// One line.
pub fn line(alloc: Global, text: &str) -> anyhow::Result<String> {
    Ok(format!(in alloc; "{text}\n")?)
}

/// The name of a value, if there is one.
pub fn name<T: fmt::Debug + Drop>(alloc: Global, value: Option<T>) -> anyhow::Result<String> {
    match value {
        None => line(alloc, "none"),
        Some(value) => Ok(format!(in alloc; "{value:?}\n")?),
    }
}

/// `ok`, or the refusal.
pub fn done<E: fmt::Debug + Drop>(alloc: Global, answer: Result<(), E>) -> anyhow::Result<String> {
    match answer {
        Ok(()) => line(alloc, "ok"),
        Err(error) => Ok(format!(in alloc; "err {error:?}\n")?),
    }
}

/// What was given with a delivery, if it is given back.
pub fn given(alloc: Global, given: Option<u64>) -> anyhow::Result<String> {
    match given {
        None => line(alloc, "none"),
        Some(given) => Ok(format!(in alloc; "given {given}\n")?),
    }
}

/// An unsettled delivery, if there is one.
pub fn entry(alloc: Global, entry: Option<Entry>) -> anyhow::Result<String> {
    let Some(entry) = entry else {
        return line(alloc, "none");
    };
    let (number, link, given) = (entry.number, entry.link, entry.given);
    Ok(format!(in alloc; "entry {number} {link} {given}\n")?)
}

/// What a flow says, if one is to be sent.
pub fn flow(alloc: Global, flow: Option<LinkFlow>) -> anyhow::Result<String> {
    let Some(flow) = flow else {
        return line(alloc, "none");
    };
    let (count, credit, drain) = (flow.delivery_count, flow.link_credit, flow.drain);
    let said = format!(in alloc; "flow delivery-count={count} link-credit={credit}")?;
    match flow.available {
        None => Ok(format!(in alloc; "{said} drain={drain}\n")?),
        Some(available) => Ok(format!(in alloc; "{said} available={available} drain={drain}\n")?),
    }
}

/// How many of the credit a sender used up.
pub fn used(alloc: Global, used: Option<Result<u32, LinkFault>>) -> anyhow::Result<String> {
    match used {
        None => line(alloc, "none"),
        Some(Ok(used)) => Ok(format!(in alloc; "used {used}\n")?),
        Some(Err(fault)) => {
            let condition = fault.condition();
            Ok(format!(in alloc; "err {fault:?} {condition}\n")?)
        }
    }
}

/// What a transfer that was sent gives back.
pub fn sent(alloc: Global, answer: Result<Option<u64>, SendPartError>) -> anyhow::Result<String> {
    match answer {
        Ok(back) => given(alloc, back),
        Err(error) => Ok(format!(in alloc; "err {error:?}\n")?),
    }
}

/// What a transfer that was prepared is.
pub fn prepared(alloc: Global, prepared: &PreparedPart) -> anyhow::Result<String> {
    let part = prepared.part();
    let (number, size, end, settled, given) = (
        part.number,
        part.size,
        part.end,
        part.settled,
        part.given,
    );
    let place = place(prepared.is_first());
    Ok(format!(in alloc; "prepared {place} {number} {size} {end:?} {settled} {given}\n")?)
}

fn place(is_first: bool) -> &'static str {
    if is_first { "first" } else { "later" }
}

/// What a transfer that came is to its delivery.
pub fn taken(alloc: Global, answer: Result<ReceivedPart, TakePartError>) -> anyhow::Result<String> {
    match answer {
        Ok(part) => part_of(alloc, part),
        Err(error) => refused(alloc, error),
    }
}

fn part_of(alloc: Global, taken: ReceivedPart) -> anyhow::Result<String> {
    let part = taken.part;
    let (number, end, settled, size) = (part.number, part.end, part.settled, part.size);
    let place = place(part.is_first);
    let said = format!(in alloc; "part {place} {number} {end:?} settled={settled} size={size}")?;
    match taken.settled {
        None => Ok(format!(in alloc; "{said}\n")?),
        Some(given) => Ok(format!(in alloc; "{said} given {given}\n")?),
    }
}

/// The refusal, and the condition by which its link ends.
fn refused(alloc: Global, error: TakePartError) -> anyhow::Result<String> {
    match error {
        TakePartError::Link(TransferError::Fault(fault)) => {
            let condition = fault.condition();
            Ok(format!(in alloc; "err {error:?} {condition}\n")?)
        }
        other => Ok(format!(in alloc; "err {other:?}\n")?),
    }
}

/// Where an end stands, if there is one.
pub fn end(alloc: Global, end: &Option<End>) -> anyhow::Result<String> {
    match end {
        None => line(alloc, "none"),
        Some(End::Sending(link)) => sending(alloc, link),
        Some(End::Receiving(link)) => receiving(alloc, link),
    }
}

fn sending(alloc: Global, link: &SendingLink) -> anyhow::Result<String> {
    let (life, credit, count) = (link.life(), link.credit(), link.delivery_count());
    let said = format!(in alloc; "sending {life:?} credit={credit} delivery-count={count}")?;
    match link.under_way() {
        None => Ok(format!(in alloc; "{said}\n")?),
        Some(size) => Ok(format!(in alloc; "{said} bytes={size}\n")?),
    }
}

fn receiving(alloc: Global, link: &ReceivingLink) -> anyhow::Result<String> {
    let (life, credit) = (link.life(), link.credit());
    let said = format!(in alloc; "receiving {life:?} credit={credit}")?;
    match link.under_way() {
        None => Ok(format!(in alloc; "{said}\n")?),
        Some(number) => Ok(format!(in alloc; "{said} delivery={number}\n")?),
    }
}
