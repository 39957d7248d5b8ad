//! Rows: the fields of a list, borrowed for writing, each beside those after it.

ghost use Rattle.std.specs.Prelude.{◌≡◌, ℕ, ◌+◌, ◌^◌, ◌<◌, ◌≤◌, List, [], ◌∷◌, ◌++◌, length, take, drop};
ghost use Rattle.amqp_values.specs.Reading.{joined};
ghost use Rattle.amqp_values.specs.Writing.{trim};

use crate::encode::Encode;
use bytes::BytesMut;
use std::marker::Model;

/// How far the fields of a row reach that stand before the nulls at its end.
#[derive(Clone, Copy, Debug)]
pub struct Extent {
    /// How many there are.
    pub count: usize,
    /// The length of their texts.
    pub size: u128,
}

/// The fields of a list. A row is seen as the texts of its fields. Each row has a type of its own, so that what is done with
/// it is compiled field by field.
pub trait Row {
    ghost texts: { Self → List (List ℕ) };

    // no texts of the fields are longer, so that sums of lengths stay in range
    ghost most: { ℕ };

    /// How far the fields before the nulls at the end reach.
    fn extent(&self) -> Extent
        requires many { length (texts self.now) ≤ 16 }
        requires long { most < 2 ^ 127 }
        ensures count { result.count ≡ length (trim (texts self.now)) }
        ensures size { result.size ≡ length (joined (trim (texts self.now))) }
        ensures few { result.count ≤ length (texts self.now) }
        ensures small { result.size ≤ most };

    /// Appends the texts of the first `count` fields, to a buffer that has room for them.
    fn put(&self, count: usize, out: &mut BytesMut)
        requires room { length (joined (take count (texts self.now))) ≤ out.old.spare }
        requires fits { length (joined (take count (texts self.now))) < 2 ^ 32 }
        ensures items { out.new.items ≡ out.old.items ++ joined (take count (texts self.now)) }
        ensures spare { out.new.spare + length (joined (take count (texts self.now))) ≡ out.old.spare };
}

/// No further field.
#[derive(Drop)]
pub struct NoMore;

/// A field, and those after it.
#[derive(Drop)]
pub struct Cons<T: Encode, R: Row>(pub T, pub R);

/// Two fields, and those after them. What is proved of a row takes twice as long for each level of its type, so rows of many
/// fields have two at a level.
#[derive(Drop)]
pub struct Cons2<A: Encode, B: Encode, R: Row>(pub A, pub B, pub R);

impl<T: Encode, R: Row> Model for Cons<T, R> {
    ghost use Rattle.std.specs.Prelude.{ℕ, List, ◌∷◌};

    ghost Value = { List (List ℕ) };

    ghost view = { λ r. T.text r.0 ∷ R.texts r.1 };
}

impl<A: Encode, B: Encode, R: Row> Model for Cons2<A, B, R> {
    ghost use Rattle.std.specs.Prelude.{ℕ, List, ◌∷◌};

    ghost Value = { List (List ℕ) };

    ghost view = { λ r. A.text r.0 ∷ B.text r.1 ∷ R.texts r.2 };
}

/// How far a field reaches with those after it, which reach so far.
#[inline(always)]
fn before<T: Encode>(field: &T, after: Extent) -> Extent
    requires many { after.count < 2 ^ 32 }
    requires long { T.most + after.size < 2 ^ 127 }
    ensures reach { (texts : List (List ℕ)) → after.count ≡ length (trim texts) → after.size ≡ length (joined (trim texts)) →
        (result.count ≡ length (trim (T.text field.now ∷ texts))) × (result.size ≡ length (joined (trim (T.text field.now ∷ texts)))) }
    ensures few { result.count ≤ after.count + 1 }
    ensures small { result.size ≤ T.most + after.size }
{
    let Extent { count, size } = after;
    if count == 0 && field.is_null() {
        return Extent { count, size };
    }
    Extent {
        count: count + 1,
        size: field.encoded_len() + size,
    }
}

impl Row for NoMore {
    ghost texts = { λ _. [] };

    ghost most = { 0 };

    #[inline(always)]
    fn extent(&self) -> Extent {
        Extent { count: 0, size: 0 }
    }

    #[inline(always)]
    fn put(&self, _count: usize, _out: &mut BytesMut) {}
}

impl<T: Encode, R: Row> Row for Cons<T, R> {
    ghost texts = { λ r. r };

    ghost most = { T.most + R.most };

    #[inline(always)]
    fn extent(&self) -> Extent {
        before(&self.0, self.1.extent())
    }

    #[inline(always)]
    fn put(&self, count: usize, out: &mut BytesMut) {
        if count > 0 {
            self.0.put(out);
            self.1.put(count - 1, out);
        }
    }
}

impl<A: Encode, B: Encode, R: Row> Row for Cons2<A, B, R> {
    ghost texts = { λ r. r };

    ghost most = { A.most + (B.most + R.most) };

    #[inline(always)]
    fn extent(&self) -> Extent {
        let after = before(&self.1, self.2.extent());
        before(&self.0, after)
    }

    #[inline(always)]
    fn put(&self, count: usize, out: &mut BytesMut) {
        if count > 0 {
            self.0.put(out);
            self.put_after(count - 1, out);
        }
    }
}

impl<A: Encode, B: Encode, R: Row> Cons2<A, B, R> {
    /// Appends the texts of the first `count` fields after the first one, to a buffer that has room for them.
    #[inline(always)]
    fn put_after(&self, count: usize, out: &mut BytesMut)
        requires room { length (joined (take count (drop 1 self.now))) ≤ out.old.spare }
        requires fits { length (joined (take count (drop 1 self.now))) < 2 ^ 32 }
        ensures items { out.new.items ≡ out.old.items ++ joined (take count (drop 1 self.now)) }
        ensures spare { out.new.spare + length (joined (take count (drop 1 self.now))) ≡ out.old.spare }
    {
        if count > 0 {
            self.1.put(out);
            self.2.put(count - 1, out);
        }
    }
}

/// The row of these fields.
#[macro_export]
macro_rules! field_list {
    () => { $crate::NoMore };
    ($only:expr $(,)?) => { $crate::Cons($only, $crate::NoMore) };
    ($first:expr, $second:expr $(, $others:expr)* $(,)?) => { $crate::Cons2($first, $second, $crate::field_list!($($others),*)) };
}

/// One field.
pub type Row1<T> = Cons<T, NoMore>;

/// Three fields of one type.
pub type Row3<T> = Cons2<T, T, Row1<T>>;

/// Four fields, and those after them.
pub type Cons4<A, B, C, D, R> = Cons2<A, B, Cons2<C, D, R>>;
