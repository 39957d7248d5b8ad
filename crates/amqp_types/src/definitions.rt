//! The small types of the standard's definitions (AMQP 1.0 part 2, section 2.8).

ghost use Rattle.std.specs.Prelude.{◌≡◌, ◌≤◌, ◌∷◌, ℕ, List, drop, length, IfOk, IfErr, OnErr};
ghost use Rattle.amqp_memory.specs.Refusal.{SomeRefused};
ghost use Rattle.amqp_values.specs.declared.error.ReadError.TheVariants.{Malformed};
ghost use Rattle.amqp_values.specs.Reading.{Gives};
ghost use Rattle.amqp_values.specs.Number.{uint_at};
ghost use Rattle.amqp_values.specs.Text.{binary_at};
ghost use Rattle.amqp_types.specs.declared.definitions.Role.{Role};
ghost use Rattle.amqp_types.specs.declared.definitions.SenderSettleMode.{SenderSettleMode};
ghost use Rattle.amqp_types.specs.declared.definitions.ReceiverSettleMode.{ReceiverSettleMode};
ghost use Rattle.amqp_types.specs.Definitions.{role_at, sender_mode_at, receiver_mode_at};

use amqp_memory::shared;
use amqp_values::{Field, ReadError};
use bytes::Bytes;
use std::alloc::{AllocError, Global};

/// A number of four bytes.
pub type Uint = u32;

/// The number of a delivery in its session, modulo 2^32 (part 2, section 2.8.8).
pub type DeliveryNumber = u32;

/// The number of a transfer in its session, modulo 2^32 (part 2, section 2.8.9).
pub type TransferNumber = u32;

/// A number in a sequence, modulo 2^32 (part 2, section 2.8.10).
pub type SequenceNo = u32;

/// The handle of a link in its session (part 2, section 2.8.4).
///
/// ```
/// let attach = Attach::new(name, Handle(0), Role::Sender);
/// ```
#[derive(Clone, Copy, Debug, PartialEq, Eq, PartialOrd, Ord, Hash)]
pub struct Handle(pub u32);

/// The tag of a delivery on its link: any bytes, also more than the 32 that the standard allows (part 2,
/// section 2.8.7). A tag that was read shares the received bytes; none is copied.
///
/// ```
/// let tag = DeliveryTag(Bytes::from_static(b"1"));
/// ```
#[derive(Debug, Drop, PartialEq, Eq)]
pub struct DeliveryTag(pub Bytes);

impl Clone for DeliveryTag {
    ghost is_clone = { λ p q. q ≡ p };

    fn clone(&self) -> Result<DeliveryTag, AllocError>
        ensures value { IfOk result (λ q. q ≡ self.now) }
        ensures refused { OnErr result SomeRefused }
    {
        Ok(DeliveryTag(shared(&self.0)?))
    }
}

/// One of the two ends of a link (part 2, section 2.8.1).
#[derive(Clone, Copy, Debug, PartialEq, Eq)]
pub enum Role {
    /// Written as the boolean false.
    Sender,
    /// Written as the boolean true.
    Receiver,
}

/// How the sending end of a link settles (part 2, section 2.8.2).
#[derive(Clone, Copy, Debug, PartialEq, Eq)]
pub enum SenderSettleMode {
    /// 0: the sender sends all deliveries unsettled.
    Unsettled,
    /// 1: the sender sends all deliveries settled.
    Settled,
    /// 2: the sender may send both; the default.
    Mixed,
}

/// How the receiving end of a link settles (part 2, section 2.8.3).
#[derive(Clone, Copy, Debug, PartialEq, Eq)]
pub enum ReceiverSettleMode {
    /// 0: the receiver settles spontaneously; the default.
    First,
    /// 1: the receiver settles after it has sent its disposition and the sender has settled.
    Second,
}

impl Field for Handle {
    ghost Seen = { ℕ };

    ghost view = { λ h. h.0 };

    ghost at = { uint_at };

    #[inline(always)]
    fn never_empty() {
        u32::never_empty();
    }

    #[inline(always)]
    fn read(
        alloc: Global,
        code: u8,
        text: &[u8],
        place: &mut usize,
        bytes: &Bytes,
    ) -> Result<Handle, ReadError>
        requires { place.old ≤ length text.now }
        ensures value { Gives (λ h. h.0) result (drop place.new text.now) (uint_at (code ∷ drop place.old text.now)) }
        ensures bound { place.new ≤ length text.now }
        ensures malformed { IfErr result (λ e. e ≡ Malformed) }
    {
        Ok(Handle(u32::read(alloc, code, text, place, bytes)?))
    }
}

impl Field for DeliveryTag {
    ghost Seen = { List ℕ };

    ghost view = { λ t. t.0 };

    ghost at = { binary_at };

    #[inline(always)]
    fn never_empty() {
        Bytes::never_empty();
    }

    #[inline(always)]
    fn read(
        alloc: Global,
        code: u8,
        text: &[u8],
        place: &mut usize,
        bytes: &Bytes,
    ) -> Result<DeliveryTag, ReadError> {
        Ok(DeliveryTag(Bytes::read(alloc, code, text, place, bytes)?))
    }
}

impl Field for Role {
    ghost Seen = { Role };

    ghost view = { λ r. r };

    ghost at = { role_at };

    #[tactic(auto, unfolding(crate::specs::Definitions::role_at))]
    #[inline(always)]
    fn never_empty() {
        bool::never_empty();
    }

    #[tactic(auto, unfolding(crate::specs::Definitions::role_at))]
    #[inline(always)]
    fn read(
        alloc: Global,
        code: u8,
        text: &[u8],
        place: &mut usize,
        bytes: &Bytes,
    ) -> Result<Role, ReadError>
        requires { place.old ≤ length text.now }
        ensures value { Gives (λ r. r) result (drop place.new text.now) (role_at (code ∷ drop place.old text.now)) }
        ensures bound { place.new ≤ length text.now }
        ensures malformed { IfErr result (λ e. e ≡ Malformed) }
    {
        if bool::read(alloc, code, text, place, bytes)? {
            Ok(Role::Receiver)
        } else {
            Ok(Role::Sender)
        }
    }
}

impl Field for SenderSettleMode {
    ghost Seen = { SenderSettleMode };

    ghost view = { λ m. m };

    ghost at = { sender_mode_at };

    #[tactic(auto, unfolding(crate::specs::Definitions::sender_mode_at))]
    #[inline(always)]
    fn never_empty() {
        u8::never_empty();
    }

    #[tactic(auto, unfolding(crate::specs::Definitions::sender_mode_at))]
    #[inline(always)]
    fn read(
        alloc: Global,
        code: u8,
        text: &[u8],
        place: &mut usize,
        bytes: &Bytes,
    ) -> Result<SenderSettleMode, ReadError>
        requires { place.old ≤ length text.now }
        ensures value { Gives (λ m. m) result (drop place.new text.now) (sender_mode_at (code ∷ drop place.old text.now)) }
        ensures bound { place.new ≤ length text.now }
        ensures malformed { IfErr result (λ e. e ≡ Malformed) }
    {
        match u8::read(alloc, code, text, place, bytes)? {
            0 => Ok(SenderSettleMode::Unsettled),
            1 => Ok(SenderSettleMode::Settled),
            2 => Ok(SenderSettleMode::Mixed),
            _ => Err(ReadError::Malformed),
        }
    }
}

impl Field for ReceiverSettleMode {
    ghost Seen = { ReceiverSettleMode };

    ghost view = { λ m. m };

    ghost at = { receiver_mode_at };

    #[tactic(auto, unfolding(crate::specs::Definitions::receiver_mode_at))]
    #[inline(always)]
    fn never_empty() {
        u8::never_empty();
    }

    #[tactic(auto, unfolding(crate::specs::Definitions::receiver_mode_at))]
    #[inline(never)]
    fn read(
        alloc: Global,
        code: u8,
        text: &[u8],
        place: &mut usize,
        bytes: &Bytes,
    ) -> Result<ReceiverSettleMode, ReadError>
        requires { place.old ≤ length text.now }
        ensures value { Gives (λ m. m) result (drop place.new text.now) (receiver_mode_at (code ∷ drop place.old text.now)) }
        ensures bound { place.new ≤ length text.now }
        ensures malformed { IfErr result (λ e. e ≡ Malformed) }
    {
        match u8::read(alloc, code, text, place, bytes)? {
            0 => Ok(ReceiverSettleMode::First),
            1 => Ok(ReceiverSettleMode::Second),
            _ => Err(ReadError::Malformed),
        }
    }
}
