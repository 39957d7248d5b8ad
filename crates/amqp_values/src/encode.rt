//! Writing: what a part of a list is written as, and how long that is.

ghost use Rattle.std.specs.Prelude.{◌≡◌, ℕ, ◌+◌, ◌^◌, ◌<◌, ◌≤◌, List, ◌++◌, length};
ghost use Rattle.amqp_values.specs.Slots.{is_null};

use bytes::BytesMut;

/// What can stand in a part of a list, with its canonical text.
pub trait Encode {
    ghost text: { Self → List ℕ };

    // no text of the type is longer, so that sums of lengths stay in range
    ghost most: { ℕ };

    /// Whether the text is the null.
    fn is_null(&self) -> bool
        ensures { result ≡ is_null (text self.now) };

    /// The length of the text in bytes. Takes no memory and writes nothing.
    fn encoded_len(&self) -> u128
        ensures value { result ≡ length (text self.now) }
        ensures small { result ≤ most };

    /// Appends the text to a buffer that has room for it.
    fn put(&self, out: &mut BytesMut)
        requires room { length (text self.now) ≤ out.old.spare }
        requires fits { length (text self.now) < 2 ^ 32 }
        ensures items { out.new.items ≡ out.old.items ++ text self.now }
        ensures spare { out.new.spare + length (text self.now) ≡ out.old.spare };
}
