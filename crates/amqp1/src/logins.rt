//! The opening that a caller asks for: its side, its host and its logins, by sizes and the bytes that have them.

ghost use Rattle.std.specs.Prelude.{◌≡◌, ◌<◌, ◌^◌, [], IfOk, OnErr, length, string_bytes, true};
ghost use Rattle.std.specs.Option.{option_map, option_copied};
ghost use Rattle.amqp_memory.specs.Refusal.{SomeRefused};
ghost use Rattle.amqp_values.specs.Reading.{Answers};
ghost use Rattle.amqp_values.specs.Text.{is_ascii};
ghost use Rattle.amqp_sasl.specs.declared.opening.Phase.TheVariants.{Fresh};
ghost use Rattle.amqp1.specs.Logins.{all_in, client_in, front_in, login_in, name_in, opening_in, part_in, plain_in, server_in, symbol_in, text_in};

use amqp_memory::{copy_of, text_of, vector_for};
use amqp_sasl::{Login, Opening};
use amqp_types::ReadError;
use amqp_values::Symbol;
use bytes::Bytes;
use std::alloc::{AllocError, Global};

/// The size of what is not there.
const NO_SIZE: u32 = 0xffff_ffff;

/// The sizes of a login of a client, or of a mechanism that a server offers. Their bytes stand one after the other. The layout is that of C:
/// `mechanism` at 0, `response` at 4.
#[derive(Clone, Copy, Debug, PartialEq, Eq)]
#[repr(C)]
pub struct LoginHead {
    /// How many bytes the mechanism's name has.
    pub mechanism: u32,
    /// How many bytes the initial response behind it has. 4294967295 where there is none, as of a mechanism that a server offers.
    pub response: u32,
}

/// So many bytes at the front, and what follows.
#[tactic(auto, unfolding(crate::specs::Logins::front_in))]
fn front(size: u32, bytes: &[u8]) -> Option<(&[u8], &[u8])>
    ensures { option_map (λ x. (x.0.now, x.1.now)) result ≡ front_in size bytes.now }
{
    if bytes.len() < size as usize {
        None
    } else {
        Some(bytes.split_at(size as usize))
    }
}

fn all_ascii(bytes: &[u8]) -> bool
    ensures { result ≡ is_ascii bytes.now }
{
    bytes.iter().all(|b| *b < 128)
}

/// The symbol of ASCII bytes.
fn ascii_symbol(alloc: Global, bytes: &[u8]) -> Result<Symbol, AllocError>
    requires ascii { is_ascii bytes.now ≡ true }
    requires short { length bytes.now < 2 ^ 32 }
    ensures ok { IfOk result (λ s. s ≡ bytes.now) }
    ensures refused { OnErr result SomeRefused }
{
    let text = text_of(alloc, str::from_utf8(bytes).unwrap())?;
    Ok(Symbol::new(text).unwrap())
}

/// The symbol of so many bytes at the front, and what follows.
#[tactic(auto, unfolding(crate::specs::Logins::symbol_in))]
fn symbol<'a>(alloc: Global, size: u32, bytes: &'a [u8]) -> Result<(Symbol, &'a [u8]), ReadError>
    ensures { Answers (λ x. (x.0, x.1.now)) result (symbol_in size bytes.now) }
{
    let Some((text, rest)) = front(size, bytes) else {
        return Err(ReadError::Malformed);
    };
    if !all_ascii(text) {
        return Err(ReadError::Malformed);
    }
    let symbol = ascii_symbol(alloc, text)?;
    Ok((symbol, rest))
}

/// So many bytes at the front, if any are said, and what follows.
#[tactic(auto, unfolding(crate::specs::Logins::part_in))]
fn part(size: u32, bytes: &[u8]) -> Option<(Option<&[u8]>, &[u8])>
    ensures { option_map (λ x. (option_copied x.0, x.1.now)) result ≡ part_in size bytes.now }
{
    if size == NO_SIZE {
        return Some((None, bytes));
    }
    let (part, rest) = front(size, bytes)?;
    Some((Some(part), rest))
}

/// A copy of bytes, if there are any.
fn copy_if(alloc: Global, bytes: Option<&[u8]>) -> Result<Option<Bytes>, AllocError>
    ensures ok { IfOk result (λ b. b ≡ option_copied bytes.entry) }
    ensures refused { OnErr result SomeRefused }
{
    match bytes {
        None => Ok(None),
        Some(bytes) => Ok(Some(copy_of(alloc, bytes)?)),
    }
}

/// The text of so many bytes at the front, if one is said, and what follows.
#[tactic(auto, unfolding(crate::specs::Logins::text_in))]
fn text(size: u32, bytes: &[u8]) -> Option<(Option<&str>, &[u8])>
    ensures { option_map (λ x. (option_copied x.0, x.1.now)) result ≡ text_in size bytes.now }
{
    if size == NO_SIZE {
        return Some((None, bytes));
    }
    let (text, rest) = front(size, bytes)?;
    match str::from_utf8(text) {
        Ok(text) => Some((Some(text), rest)),
        Err(_) => None,
    }
}

/// The login of these sizes at the front, and what follows.
#[tactic(auto, unfolding(crate::specs::Logins::login_in))]
fn login<'a>(
    alloc: Global,
    head: &LoginHead,
    bytes: &'a [u8],
) -> Result<(Login, &'a [u8]), ReadError>
    ensures { Answers (λ x. (x.0, x.1.now)) result (login_in head.now bytes.now) }
{
    let (mechanism, after) = symbol(alloc, head.mechanism, bytes)?;
    let Some((response, rest)) = part(head.response, after) else {
        return Err(ReadError::Malformed);
    };
    let response = copy_if(alloc, response)?;
    Ok((
        Login {
            mechanism,
            response,
        },
        rest,
    ))
}

/// The mechanism of this size at the front, and what follows.
#[tactic(auto, unfolding(crate::specs::Logins::name_in))]
fn name<'a>(
    alloc: Global,
    head: &LoginHead,
    bytes: &'a [u8],
) -> Result<(Symbol, &'a [u8]), ReadError>
    ensures { Answers (λ x. (x.0, x.1.now)) result (name_in head.now bytes.now) }
{
    if head.response != NO_SIZE {
        return Err(ReadError::Malformed);
    }
    symbol(alloc, head.mechanism, bytes)
}

/// The logins of these sizes, which all the bytes are.
fn logins(alloc: Global, heads: &[LoginHead], bytes: &[u8]) -> Result<Vec<Login>, ReadError>
    ensures { Answers (λ v. v.items) result (all_in login_in heads.now bytes.now) }
{
    let mut logins = vector_for(alloc, heads, heads.len())?;
    let mut rest = bytes;
    for head in heads {
        match login(alloc, head, rest) {
            Ok((login, after)) => {
                logins.push_reserved(login);
                rest = after;
            }
            Err(error) => return Err(error),
        }
    }
    if rest.is_empty() {
        Ok(logins)
    } else {
        Err(ReadError::Malformed)
    }
}

/// The mechanisms of these sizes, which all the bytes are.
fn names(alloc: Global, heads: &[LoginHead], bytes: &[u8]) -> Result<Vec<Symbol>, ReadError>
    ensures { Answers (λ v. v.items) result (all_in name_in heads.now bytes.now) }
{
    let mut names = vector_for(alloc, heads, heads.len())?;
    let mut rest = bytes;
    for head in heads {
        match name(alloc, head, rest) {
            Ok((name, after)) => {
                names.push_reserved(name);
                rest = after;
            }
            Err(error) => return Err(error),
        }
    }
    if rest.is_empty() {
        Ok(names)
    } else {
        Err(ReadError::Malformed)
    }
}

/// A copy of a text, if there is one.
fn text_if(alloc: Global, text: Option<&str>) -> Result<Option<String>, AllocError>
    ensures ok { IfOk result (λ t. option_map string_bytes t ≡ option_copied text.entry) }
    ensures refused { OnErr result SomeRefused }
{
    match text {
        None => Ok(None),
        Some(text) => Ok(Some(text_of(alloc, text)?)),
    }
}

/// The opening of either side, without SASL.
fn plain(alloc: Global, host: u32, heads: &[LoginHead], bytes: &[u8]) -> Result<Opening, ReadError>
    ensures says { Answers (λ o. o) result (plain_in host heads.now bytes.now) }
    ensures fresh { IfOk result (λ o. o.phase ≡ Fresh) }
{
    if heads.is_empty() && bytes.is_empty() && host == NO_SIZE {
        Ok(Opening::plain(alloc))
    } else {
        Err(ReadError::Malformed)
    }
}

/// The opening of a client of SASL.
fn client(alloc: Global, host: u32, heads: &[LoginHead], bytes: &[u8]) -> Result<Opening, ReadError>
    ensures says { Answers (λ o. o) result (client_in host heads.now bytes.now) }
    ensures fresh { IfOk result (λ o. o.phase ≡ Fresh) }
{
    let Some((hostname, rest)) = text(host, bytes) else {
        return Err(ReadError::Malformed);
    };
    let logins = logins(alloc, heads, rest)?;
    let hostname = text_if(alloc, hostname)?;
    Ok(Opening::client(alloc, logins, hostname))
}

/// The opening of a server of SASL.
fn server(alloc: Global, host: u32, heads: &[LoginHead], bytes: &[u8]) -> Result<Opening, ReadError>
    ensures says { Answers (λ o. o) result (server_in host heads.now bytes.now) }
    ensures fresh { IfOk result (λ o. o.phase ≡ Fresh) }
{
    if host != NO_SIZE {
        return Err(ReadError::Malformed);
    }
    let names = names(alloc, heads, bytes)?;
    match Opening::server(alloc, names) {
        Some(opening) => Ok(opening),
        None => Err(ReadError::Malformed),
    }
}

/// The opening that a side, the size of a host, and sizes of logins say with these bytes. `Malformed` exactly where they say none.
pub(crate) fn opening(
    alloc: Global,
    side: u32,
    host: u32,
    heads: &[LoginHead],
    bytes: &[u8],
) -> Result<Opening, ReadError>
    ensures says { Answers (λ o. o) result (opening_in side host heads.now bytes.now) }
    ensures fresh { IfOk result (λ o. o.phase ≡ Fresh) }
{
    match side {
        0 => plain(alloc, host, heads, bytes),
        1 => client(alloc, host, heads, bytes),
        2 => server(alloc, host, heads, bytes),
        _ => Err(ReadError::Malformed),
    }
}
