//! Laws: each function does nothing, and its contract is a theorem.

ghost use Rattle.amqp_sasl.specs.FrameLaws.{FramesAreRead, FrontsWantMore, WrittenIsFrame};
ghost use Rattle.amqp_sasl.specs.History.{OpensByLogin, SaysInOrder, StaysOver};

/// A SASL frame at the front of received bytes is what [`read_frame`](crate::read_frame) reads, all of it and no more, whatever follows;
/// and of a part of one it wants more, and no more than the frame has.
pub fn frames_are_read()
    ensures read { FramesAreRead }
    ensures wanted { FrontsWantMore }
{}

/// What the calls of this crate write of a SASL frame is one that says what was written. So what was written is what is read of it.
pub fn written_is_frame()
    ensures { WrittenIsFrame }
{}

/// Over every chain of calls of an opening: it is open only if the peer's header of AMQP was taken, and, where SASL was asked for, after a
/// login. Of a server that is its caller's `login` with the code `ok`, while a client asked; of a client it is the server's outcome `ok`.
pub fn opens_by_login()
    ensures { OpensByLogin }
{}

/// Over every chain of calls of an opening: what goes out is one header without SASL; else the header of SASL, the frames of its side, each
/// at most as often as the standard says and in its order, and at the end the header of AMQP.
pub fn says_in_order()
    ensures { SaysInOrder }
{}

/// Once an opening is over, no call opens it, takes anything or sends anything.
pub fn stays_over()
    ensures { StaysOver }
{}
