//! A delivery that is longer than a frame is cut.

ghost use Rattle.std.specs.Prelude.{◌≡◌, IfOk, OnErr};
ghost use Rattle.std.specs.Option.{option_map};
ghost use Rattle.amqp_memory.specs.Refusal.{SomeRefused};
ghost use Rattle.amqp_driver.specs.Cutting.{cut_of, room_for};
ghost use Rattle.amqp_driver.specs.Heads.{tag_in};

use super::Driver;
use crate::cut::{Cut, begun, cut_at, fits, in_one, uncut};
use crate::flag;
use crate::head::{TAG_TOO_LONG, TransferHead, has, transfer_of};
use amqp_memory::copy_of;
use amqp_session::LinkRelay;
use amqp_types::DeliveryTag;
use std::alloc::{AllocError, Global};

/// The tag of a head, if it has one, which stands first in its bytes.
fn tag_of(
    alloc: Global,
    head: &TransferHead,
    bytes: &[u8],
) -> Result<Option<DeliveryTag>, AllocError>
    ensures ok { IfOk result (λ x. option_map (λ t. t.0) x ≡ tag_in head.now bytes.now) }
    ensures refused { OnErr result SomeRefused }
{
    if !has(head.flags, flag::TAGGED) {
        return Ok(None);
    }
    let size = bytes.len().min(head.tag_size as usize);
    let tag = copy_of(alloc, &bytes[..size])?;
    Ok(Some(DeliveryTag(tag)))
}

impl<R: LinkRelay> Driver<R> {
    /// Cuts a head whose payload is longer than a frame (AMQP 1.0 part 2, section 2.6.14): after as many bytes as fit the first frame, whatever
    /// number the delivery gets. The first head says that more follow, and not that the delivery is aborted (section 2.7.5). That of the rest
    /// says nothing again of the delivery, and as `head` does whether more follow and whether it is aborted; who cuts it again, while `more` is
    /// 1, has a head for each frame, for [`Driver::send`]. `bytes` begin with the tag. A head that fits one frame is not cut. Changes nothing.
    /// A part is to be sent only where the one before it was accepted: within a call `send` looks after that.
    ///
    /// The error says that memory was refused for a copy of the tag.
    ///
    /// ```
    /// let mut cut = driver.cut(&head, bytes)?;
    /// heads.push(cut.part)?;
    /// while cut.more == 1 {
    ///     cut = driver.cut(&cut.rest, &[])?;
    ///     heads.push(cut.part)?;
    /// }
    /// ```
    pub fn cut(&self, head: &TransferHead, bytes: &[u8]) -> Result<Cut, AllocError>
        ensures ok { IfOk result (λ c. c ≡ cut_of self.now.engine.limit head.now bytes.now) }
        ensures refused { OnErr result SomeRefused }
    {
        if head.tag_size > 32 {
            return Ok(uncut(head, TAG_TOO_LONG));
        }
        let room = self.room_for(head, bytes)?;
        if fits(head, room) {
            return Ok(in_one(head));
        }
        let front = self.room_for(&begun(head), bytes)?;
        Ok(cut_at(head, front))
    }

    /// How many bytes of payload fit one frame beside the transfer of a head. `None` where the transfer itself does not fit.
    fn room_for(&self, head: &TransferHead, bytes: &[u8]) -> Result<Option<u32>, AllocError>
        ensures ok { IfOk result (λ r. r ≡ room_for self.now.engine.limit head.now bytes.now) }
        ensures refused { OnErr result SomeRefused }
    {
        let tag = tag_of(self.alloc, head, bytes)?;
        let transfer = transfer_of(head, tag);
        let room = self.engine.payload_room(&transfer);
        drop(transfer);
        Ok(room)
    }
}
