//! Which of several texts say the same performative.

use amqp_types::Performative;
use bytes::Bytes;
use std::alloc::Global;

// prover: a performative is looked at by reference, and ended by `drop(..)`.

fn read(alloc: Global, digits: &str) -> anyhow::Result<Performative> {
    let bytes = Bytes::from_vec(hex::decode(alloc, digits)?)?;
    match Performative::read(alloc, bytes) {
        Ok((performative, rest)) => {
            drop(rest);
            Ok(performative)
        }
        Err(error) => Err(error.into()),
    }
}

fn is_said(alloc: Global, one: &Performative, digits: &str) -> anyhow::Result<bool> {
    let other = read(alloc, digits)?;
    let is_same = *one == other;
    drop(other);
    Ok(is_same)
}

fn letters(alloc: Global, one: &Performative, texts: &str) -> anyhow::Result<String> {
    let mut said = String::new(alloc);
    for digits in texts.split(' ') {
        let is_same = is_said(alloc, one, digits)?;
        said.push(if is_same { '=' } else { '-' })?;
    }
    Ok(said)
}

/// A letter for each text after the first: `=` where it says the same performative as the first, and else `-`.
pub fn compare(alloc: Global, texts: &str) -> anyhow::Result<String> {
    let Some((first, others)) = texts.split_once(' ') else {
        anyhow::bail!("one text alone");
    };
    let one = read(alloc, first)?;
    let said = letters(alloc, &one, others);
    drop(one);
    said
}
