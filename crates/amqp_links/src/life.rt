//! The life of one end of a link: from its Attach to the end of it.

ghost use Rattle.std.specs.Prelude.{◌≡◌};
ghost use Rattle.amqp_links.specs.Life.{having_attached, having_detached, end_of};

/// Where one end of a link stands (AMQP 1.0 part 2, sections 2.6.3 to 2.6.6).
#[derive(Clone, Copy, Debug, PartialEq, Eq)]
pub enum Life {
    /// This side's Attach is sent, or is to be, and the peer's has not come.
    Attaching,
    /// The peer's Attach has come, with no source or target of its own: it refuses the link, and its Detach is to follow (section 2.6.3).
    Refused,
    /// Both have attached.
    Attached,
    /// This side's Detach is sent, or is to be, and the peer's has not come.
    Detaching,
    /// The peer's Detach has come.
    Detached,
}

/// What a Detach of the peer's was.
#[derive(Clone, Copy, Debug, PartialEq, Eq)]
pub enum LinkEnd {
    /// The peer refused the link: its Attach had no terminus, and this Detach says why. A Detach is to be sent in answer.
    Refused,
    /// The peer detached. A Detach is to be sent in answer.
    ByPeer,
    /// The peer answered this side's Detach.
    Answered,
    /// The link was detached already.
    Stray,
}

/// After an Attach of the peer's, which accepts the link or refuses it.
pub(crate) fn attached(life: Life, is_accepted: bool) -> Life
    ensures { result ≡ having_attached is_accepted life }
{
    match (life, is_accepted) {
        (Life::Attaching, true) => Life::Attached,
        (Life::Attaching, false) => Life::Refused,
        (life, _) => life,
    }
}

/// After a Detach of this side's.
pub(crate) fn detached(life: Life) -> Life
    ensures { result ≡ having_detached life }
{
    match life {
        Life::Detached => Life::Detached,
        _ => Life::Detaching,
    }
}

/// What a Detach of the peer's is to this life.
pub(crate) fn end_of(life: Life) -> LinkEnd
    ensures { result ≡ end_of life }
{
    match life {
        Life::Refused => LinkEnd::Refused,
        Life::Attaching | Life::Attached => LinkEnd::ByPeer,
        Life::Detaching => LinkEnd::Answered,
        Life::Detached => LinkEnd::Stray,
    }
}
