//! Error (AMQP 1.0 part 2, section 2.8.14).

ghost use Rattle.std.specs.Prelude.{◌≡◌, List, ℕ, Option, IfOk, OnErr};
ghost use Rattle.amqp_memory.specs.Refusal.{SomeRefused};
ghost use Rattle.amqp_values.specs.Reading.{Gives};
ghost use Rattle.amqp_types.specs.Error.{error_body_at, error_table};
ghost use Rattle.amqp_types.specs.Error.{ErrorModel, error_at};

use crate::{borrowed, copies};
use amqp_values::{
    Composite, Cons2, Field, Fields, ListWalk, ReadError, Row1, StringRef, Symbol, SymbolRef,
    Verbatim, codes, described, field_list,
};
use bytes::Bytes;
use std::alloc::{AllocError, Global};
use std::fmt::{self, Display, Formatter};
use std::marker::Model;

/// Why a link, a session or a connection ended (AMQP 1.0 part 2, section 2.8.14).
///
/// ```
/// let text = String::from_str(alloc, "amqp:not-found")?;
/// if let Some(condition) = Symbol::new(text) {
///     let error = Error { condition, description: None, info: None };
/// }
/// ```
#[derive(Debug, Drop)]
pub struct Error {
    /// What went wrong. Mandatory.
    pub condition: Symbol,
    /// What went wrong, in words.
    pub description: Option<String>,
    /// More about it.
    pub info: Option<Fields>,
}

impl Model for Error {
    ghost use Rattle.std.specs.Prelude.{string_bytes};
    ghost use Rattle.std.specs.Option.{option_map};
    ghost use Rattle.amqp_types.specs.Error.{ErrorModel};

    ghost Value = { ErrorModel };

    ghost view = { λ p. record {
      condition = p.condition;
      description = option_map string_bytes p.description;
      info = p.info;
    } };
}

impl Clone for Error {
    ghost is_clone = { λ p q. q ≡ p };

    fn clone(&self) -> Result<Error, AllocError>
        ensures value { IfOk result (λ q. q ≡ self.now) }
        ensures refused { OnErr result SomeRefused }
    {
        Ok(Error {
            condition: self.condition.clone()?,
            description: copies::text(&self.description)?,
            info: copies::fields(&self.info)?,
        })
    }
}

impl PartialEq for Error {
    ghost use Rattle.std.specs.Cmp.{partial_equiv_from_equiv};
    ghost use Rattle.amqp_types.specs.Error.{error_same};

    ghost eq = { error_same.test };

    ghost laws = { partial_equiv_from_equiv error_same.laws };

    fn eq(&self, other: &Error) -> bool {
        self.condition == other.condition
            && self.description == other.description
            && self.info == other.info
    }
}

/// The condition, and what went wrong in words, if it is said.
impl Display for Error {
    fn fmt<W: fmt::Write>(&self, f: &mut Formatter<W>) -> fmt::Result {
        match &self.description {
            Some(description) => write!(f, "{}: {}", self.condition.as_str(), description.as_str()),
            None => f.write_str(self.condition.as_str()),
        }
    }
}

impl Composite for Error {
    ghost body_at = { error_body_at };

    #[tactic(auto, unfolding(crate::specs::Error::error_body_at))]
    fn read_list(alloc: Global, bytes: &mut Bytes) -> Result<Error, ReadError> {
        let (mut walk, end) = match ListWalk::enter(bytes.as_slice()) {
            Ok(entered) => entered,
            Err(error) => return Err(error),
        };
        let (text, _) = bytes.as_slice().split_at(end);
        let condition = walk.required(alloc, text, &*bytes)?;
        let description = walk.next(alloc, text, &*bytes)?;
        let info = walk.next(alloc, text, &*bytes)?;
        walk.finish(text)?;
        bytes.advance(end);
        Ok(Error {
            condition,
            description,
            info,
        })
    }
}

impl Field for Error {
    ghost Seen = { ErrorModel };

    ghost view = { λ e. e };

    ghost at = { error_at };

    #[tactic(auto, using(crate::proofs::BodyLemmas::no_error))]
    #[inline(always)]
    fn never_empty() {}

    #[tactic(auto, unfolding(crate::specs::Error::error_at))]
    fn read(
        alloc: Global,
        _code: u8,
        text: &[u8],
        place: &mut usize,
        bytes: &Bytes,
    ) -> Result<Error, ReadError> {
        *place -= 1;
        described(alloc, u64::from(codes::ERROR), text, place, bytes)
    }
}

/// The fields, borrowed for writing, by types of their own.
pub(crate) type ErrorRow<'a> = Cons2<
    SymbolRef<'a>,
    Option<StringRef<'a>>,
    Row1<Option<Verbatim<'a>>>,
>;

impl Error {
    /// The fields, borrowed for writing.
    #[tactic(auto, unfolding(crate::specs::Error::error_table))]
    #[inline(always)]
    pub(crate) fn parts(&self) -> ErrorRow<'_>
        ensures { result ≡ (error_table self.now).canonical }
    {
        field_list![
            SymbolRef(&self.condition),
            borrowed::optional_string(&self.description),
            borrowed::optional_fields(&self.info),
        ]
    }
}
