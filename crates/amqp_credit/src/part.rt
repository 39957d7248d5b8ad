//! A part of a delivery: what its transfer says of it, and what it is.

/// The `delivery-tag` of a transfer. The caller compares tags, since nothing here keeps bytes.
#[derive(Clone, Copy, Debug, PartialEq, Eq)]
pub enum PartTag {
    /// It has none.
    Absent,
    /// It has that of the delivery that is under way. Where none is, it counts as [`PartTag::New`].
    Same,
    /// It has another one.
    New,
}

/// What a transfer says of its part of a delivery (AMQP 1.0 part 2, section 2.7.5).
#[derive(Clone, Copy, Debug, PartialEq, Eq)]
pub struct PartHead {
    /// Its `delivery-id`.
    pub number: Option<u32>,
    /// Its `delivery-tag`.
    pub tag: PartTag,
    /// Its `message-format`.
    pub format: Option<u32>,
    /// Its `settled`.
    pub settled: Option<bool>,
    /// Its `more`; false where it is not set.
    pub more: bool,
    /// Its `aborted`; false where it is not set.
    pub aborted: bool,
    /// How many bytes its payload has.
    pub size: u32,
}

/// Whether a delivery ends with a part.
#[derive(Clone, Copy, Debug, PartialEq, Eq)]
pub enum PartEnd {
    /// More parts come.
    More,
    /// It is the last one: the delivery is whole.
    Last,
    /// The delivery is aborted. Its payload is to be discarded, this part's too.
    Aborted,
}

/// What a part is to its delivery.
#[derive(Clone, Copy, Debug, PartialEq, Eq)]
#[must_use]
pub struct Part {
    /// The delivery's number: the `delivery-id` of its first part.
    pub number: u32,
    /// Whether it is the first one.
    pub is_first: bool,
    /// Whether the delivery ends with it.
    pub end: PartEnd,
    /// Whether the delivery is settled so far: where a part of it says so, or it is aborted.
    pub settled: bool,
    /// How many bytes the delivery has so far, this part's too; those of a part that aborts it do not count. 2^64 - 1
    /// at most.
    pub size: u64,
}

/// Why a part is refused.
#[derive(Clone, Copy, Debug, PartialEq, Eq)]
pub enum PartError {
    /// It has no number and no tag, as a part that goes on with a delivery; but none is under way.
    NoneUnderWay,
    /// It is the first part of a delivery, and has no number.
    NoNumber,
    /// It is the first part of a delivery, and has no tag.
    NoTag,
    /// It has another number or another tag than the delivery that is under way, which has not ended.
    OtherDelivery,
    /// It has another message format than the first part of its delivery.
    OtherFormat,
    /// With it the delivery would have more bytes than `max-message-size` allows. The caller may end the link, with the
    /// error `amqp:link:message-size-exceeded`.
    TooLarge,
}
