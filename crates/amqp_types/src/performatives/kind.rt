//! Which performative a descriptor names (AMQP 1.0 part 2, section 2.7).

ghost use Rattle.std.specs.Prelude.{◌≡◌, IfErr};
ghost use Rattle.amqp_values.specs.declared.error.ReadError.TheVariants.{Malformed};
ghost use Rattle.amqp_values.specs.Reading.{Gives};
ghost use Rattle.amqp_types.specs.Kinds.{kind_at, kind_of};

use amqp_values::{ReadError, codes, descriptor};
use bytes::Bytes;

/// One of the nine performatives.
#[derive(Clone, Copy, Debug, PartialEq, Eq)]
pub enum Kind {
    /// The kind of [`Open`](crate::Open), with the descriptor 0x10 (section 2.7.1).
    Open,
    /// The kind of [`Begin`](crate::Begin), with the descriptor 0x11 (section 2.7.2).
    Begin,
    /// The kind of [`Attach`](crate::Attach), with the descriptor 0x12 (section 2.7.3).
    Attach,
    /// The kind of [`Flow`](crate::Flow), with the descriptor 0x13 (section 2.7.4).
    Flow,
    /// The kind of [`Transfer`](crate::Transfer), with the descriptor 0x14 (section 2.7.5).
    Transfer,
    /// The kind of [`Disposition`](crate::Disposition), with the descriptor 0x15 (section 2.7.6).
    Disposition,
    /// The kind of [`Detach`](crate::Detach), with the descriptor 0x16 (section 2.7.7).
    Detach,
    /// The kind of [`End`](crate::End), with the descriptor 0x17 (section 2.7.8).
    End,
    /// The kind of [`Close`](crate::Close), with the descriptor 0x18 (section 2.7.9).
    Close,
}

/// The kind with this code.
#[tactic(auto, unfolding(crate::specs::Kinds::kind_of))]
fn kind_of(code: u64) -> Option<Kind>
    ensures { result ≡ kind_of code }
{
    if code > 0xff {
        return None;
    }
    match code as u8 {
        codes::OPEN => Some(Kind::Open),
        codes::BEGIN => Some(Kind::Begin),
        codes::ATTACH => Some(Kind::Attach),
        codes::FLOW => Some(Kind::Flow),
        codes::TRANSFER => Some(Kind::Transfer),
        codes::DISPOSITION => Some(Kind::Disposition),
        codes::DETACH => Some(Kind::Detach),
        codes::END => Some(Kind::End),
        codes::CLOSE => Some(Kind::Close),
        _ => None,
    }
}

impl Kind {
    /// Reads the descriptor at the front of the bytes, a number or a name, and answers the kind that it names.
    /// `Malformed` exactly where no front of the bytes is a descriptor of one of the nine.
    #[tactic(auto, unfolding(crate::specs::Kinds::kind_at))]
    #[inline(always)]
    pub fn read(bytes: &mut Bytes) -> Result<Kind, ReadError>
        ensures gives { Gives (λ k. k) result bytes.new (kind_at bytes.old) }
        ensures malformed { IfErr result (λ e. e ≡ Malformed) }
    {
        let code = descriptor(bytes)?;
        match kind_of(code) {
            Some(kind) => Ok(kind),
            None => Err(ReadError::Malformed),
        }
    }
}
