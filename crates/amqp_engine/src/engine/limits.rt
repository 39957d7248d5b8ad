//! How much fits in a piece, for a caller that splits deliveries by it.

ghost use Rattle.std.specs.Prelude.{◌≡◌, ◌≤◌};
ghost use Rattle.amqp_types.specs.Transfer.{widest};
ghost use Rattle.amqp_frames.specs.Cut.{room_beside};

use super::Engine;
use amqp_session::LinkRelay;
use amqp_types::Transfer;

impl<R: LinkRelay> Engine<R> {
    /// The most bytes of a piece, at least 4: a max-frame-size less the 4 bytes of a frame's size. Until the peer's Open is accepted it is
    /// this side's; from then on it is the peer's, raised to 512 where it is lower (AMQP 1.0 part 2, section 2.7.1).
    /// [`split_delivery`](amqp_frames::split_delivery) takes it.
    pub fn max_piece_len(&self) -> u32
        ensures value { result ≡ self.now.limit }
        ensures header { 4 ≤ result }
    {
        self.encoder.max_piece_len()
    }

    /// How many bytes of payload fit beside this transfer in one piece, whatever number its delivery gets. `None` where its own text does
    /// not fit. Takes no memory.
    ///
    /// A delivery-id that is absent takes one byte, and a great one five, so the widest is counted. A payload that is longer goes out as
    /// several Transfer frames, while the window counts one transfer (AMQP 1.0 part 2, section 2.5.6): the peer may then see its window
    /// passed. A caller that sends such a payload splits it beforehand, by [`split_delivery`](amqp_frames::split_delivery).
    pub fn payload_room(&self, transfer: &Transfer) -> Option<u32>
        ensures { result ≡ room_beside (widest transfer.now) self.now.limit }
    {
        self.encoder.payload_room(transfer)
    }
}
