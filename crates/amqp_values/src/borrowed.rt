//! Values of fields that are no composites, borrowed for writing: each kind by a type of its own.

ghost use Rattle.std.specs.Prelude.{◌≡◌, ℕ, ◌+◌, ◌^◌, ◌<◌, ◌≤◌, List, ◌∷◌, [], ◌++◌, length};
ghost use Rattle.amqp_values.specs.Slots.{is_null};
ghost use Rattle.amqp_values.specs.Writing.{ubyte_text, ushort_text, uint_text, ulong_text, boolean_text, var_text};
ghost use Rattle.amqp_values.specs.Writing.{binary_text, string_text, symbol_text, symbols_text, optional_text};

use crate::array::{put_symbols, symbols_len};
use crate::codes;
use crate::encode::Encode;
use crate::symbol::Symbol;
use bytes::BytesMut;

/// A `binary`, borrowed for writing (AMQP 1.0 part 1, section 1.6.19).
#[derive(Clone, Copy)]
pub struct Binary<'a>(pub &'a [u8]);

/// A `string`, borrowed for writing (1.6.20).
#[derive(Clone, Copy)]
pub struct StringRef<'a>(pub &'a str);

/// A `symbol`, borrowed for writing (1.6.21).
#[derive(Clone, Copy)]
pub struct SymbolRef<'a>(pub &'a Symbol);

/// Multiple symbols, borrowed for writing: an array of them (part 2, the attribute `multiple` of a field).
#[derive(Clone, Copy)]
pub struct Symbols<'a>(pub &'a [Symbol]);

/// A value that is kept as it came, borrowed for writing: its text is these bytes. It is the null where they begin as the null does.
#[derive(Clone, Copy)]
pub struct Verbatim<'a>(pub &'a [u8]);

#[inline(always)]
fn uint_len(n: u32) -> u128
    ensures { result ≡ length (uint_text n) }
{
    if n == 0 {
        1
    } else if n < 256 {
        2
    } else {
        5
    }
}

#[inline(always)]
fn put_uint(out: &mut BytesMut, n: u32)
    requires { length (uint_text n) ≤ out.old.spare }
    ensures items { out.new.items ≡ out.old.items ++ uint_text n }
    ensures spare { out.new.spare + length (uint_text n) ≡ out.old.spare }
{
    if n == 0 {
        out.extend_reserved(&[codes::UINT0]);
    } else if n < 256 {
        out.extend_reserved(&[codes::SMALL_UINT, n as u8]);
    } else {
        out.extend_reserved(&[codes::UINT]);
        out.extend_reserved(&n.to_be_bytes());
    }
}

#[inline(always)]
fn ulong_len(n: u64) -> u128
    ensures { result ≡ length (ulong_text n) }
{
    if n == 0 {
        1
    } else if n < 256 {
        2
    } else {
        9
    }
}

#[inline(never)]
fn put_ulong(out: &mut BytesMut, n: u64)
    requires { length (ulong_text n) ≤ out.old.spare }
    ensures items { out.new.items ≡ out.old.items ++ ulong_text n }
    ensures spare { out.new.spare + length (ulong_text n) ≡ out.old.spare }
{
    if n == 0 {
        out.extend_reserved(&[codes::ULONG0]);
    } else if n < 256 {
        out.extend_reserved(&[codes::SMALL_ULONG, n as u8]);
    } else {
        out.extend_reserved(&[codes::ULONG]);
        out.extend_reserved(&n.to_be_bytes());
    }
}

#[tactic(auto, unfolding(crate::specs::Writing::var_text))]
#[inline(always)]
fn var_len(s: &[u8], short: u8, long: u8) -> u128
    ensures value { result ≡ length (var_text short long s.now) }
    ensures small { result < 2 ^ 65 }
{
    let len = s.len() as u128;
    if len < 256 { len + 2 } else { len + 5 }
}

#[tactic(auto, unfolding(crate::specs::Writing::var_text))]
#[inline(never)]
fn put_var(out: &mut BytesMut, s: &[u8], short: u8, long: u8)
    requires room { length (var_text short long s.now) ≤ out.old.spare }
    requires fits { length (var_text short long s.now) < 2 ^ 32 }
    ensures items { out.new.items ≡ out.old.items ++ var_text short long s.now }
    ensures spare { out.new.spare + length (var_text short long s.now) ≡ out.old.spare }
{
    let len = s.len();
    if len < 256 {
        out.extend_reserved(&[short, len as u8]);
    } else {
        out.extend_reserved(&[long]);
        out.extend_reserved(&(len as u32).to_be_bytes());
    }
    out.extend_reserved(s);
}

#[inline(always)]
fn boolean_code(set: bool) -> u8
    ensures { boolean_text set ≡ result ∷ [] }
{
    if set { codes::TRUE } else { codes::FALSE }
}

#[inline(always)]
fn begins_as_null(bytes: &[u8]) -> bool
    ensures { result ≡ is_null bytes.now }
{
    matches!(bytes, [codes::NULL, ..])
}

impl Encode for u8 {
    ghost text = { ubyte_text };

    ghost most = { 2 };

    #[inline(always)]
    fn is_null(&self) -> bool {
        false
    }

    #[inline(always)]
    fn encoded_len(&self) -> u128 {
        2
    }

    #[inline(always)]
    fn put(&self, out: &mut BytesMut) {
        out.extend_reserved(&[codes::UBYTE, *self]);
    }
}

impl Encode for u16 {
    ghost text = { ushort_text };

    ghost most = { 3 };

    #[inline(always)]
    fn is_null(&self) -> bool {
        false
    }

    #[inline(always)]
    fn encoded_len(&self) -> u128 {
        3
    }

    #[inline(always)]
    fn put(&self, out: &mut BytesMut) {
        out.extend_reserved(&[codes::USHORT]);
        out.extend_reserved(&self.to_be_bytes());
    }
}

impl Encode for u32 {
    ghost text = { uint_text };

    ghost most = { 5 };

    #[inline(always)]
    fn is_null(&self) -> bool {
        false
    }

    #[inline(always)]
    fn encoded_len(&self) -> u128 {
        uint_len(*self)
    }

    #[inline(always)]
    fn put(&self, out: &mut BytesMut) {
        put_uint(out, *self)
    }
}

impl Encode for u64 {
    ghost text = { ulong_text };

    ghost most = { 9 };

    #[inline(always)]
    fn is_null(&self) -> bool {
        false
    }

    #[inline(always)]
    fn encoded_len(&self) -> u128 {
        ulong_len(*self)
    }

    #[inline(always)]
    fn put(&self, out: &mut BytesMut) {
        put_ulong(out, *self)
    }
}

impl Encode for bool {
    ghost text = { boolean_text };

    ghost most = { 1 };

    #[inline(always)]
    fn is_null(&self) -> bool {
        false
    }

    #[inline(always)]
    fn encoded_len(&self) -> u128 {
        1
    }

    #[inline(always)]
    fn put(&self, out: &mut BytesMut) {
        out.extend_reserved(&[boolean_code(*self)]);
    }
}

impl Encode for Binary<'_> {
    ghost text = { λ b. binary_text b.0.now };

    ghost most = { 2 ^ 66 };

    #[tactic(auto, unfolding(crate::specs::Writing::var_text))]
    #[inline(always)]
    fn is_null(&self) -> bool {
        false
    }

    #[inline(always)]
    fn encoded_len(&self) -> u128 {
        var_len(self.0, codes::BINARY8, codes::BINARY32)
    }

    #[inline(always)]
    fn put(&self, out: &mut BytesMut) {
        put_var(out, self.0, codes::BINARY8, codes::BINARY32)
    }
}

impl Encode for StringRef<'_> {
    ghost text = { λ s. string_text s.0.now };

    ghost most = { 2 ^ 66 };

    #[tactic(auto, unfolding(crate::specs::Writing::var_text))]
    #[inline(always)]
    fn is_null(&self) -> bool {
        false
    }

    #[inline(always)]
    fn encoded_len(&self) -> u128 {
        var_len(self.0.as_bytes(), codes::STRING8, codes::STRING32)
    }

    #[inline(always)]
    fn put(&self, out: &mut BytesMut) {
        put_var(out, self.0.as_bytes(), codes::STRING8, codes::STRING32)
    }
}

impl Encode for SymbolRef<'_> {
    ghost text = { λ s. symbol_text s.0.now };

    ghost most = { 2 ^ 66 };

    #[tactic(auto, unfolding(crate::specs::Writing::var_text))]
    #[inline(always)]
    fn is_null(&self) -> bool {
        false
    }

    #[inline(always)]
    fn encoded_len(&self) -> u128 {
        var_len(self.0.as_str().as_bytes(), codes::SYMBOL8, codes::SYMBOL32)
    }

    #[inline(always)]
    fn put(&self, out: &mut BytesMut) {
        put_var(
            out,
            self.0.as_str().as_bytes(),
            codes::SYMBOL8,
            codes::SYMBOL32,
        )
    }
}

impl Encode for Symbols<'_> {
    ghost text = { λ s. symbols_text s.0.now };

    ghost most = { 2 ^ 100 };

    #[tactic(auto, unfolding(crate::specs::Writing::symbols_text))]
    #[inline(always)]
    fn is_null(&self) -> bool {
        false
    }

    #[inline(always)]
    fn encoded_len(&self) -> u128 {
        symbols_len(self.0)
    }

    #[inline(always)]
    fn put(&self, out: &mut BytesMut) {
        put_symbols(out, self.0)
    }
}

impl Encode for Verbatim<'_> {
    ghost text = { λ v. v.0.now };

    ghost most = { 2 ^ 64 };

    #[inline(always)]
    fn is_null(&self) -> bool {
        begins_as_null(self.0)
    }

    #[inline(always)]
    fn encoded_len(&self) -> u128 {
        self.0.len() as u128
    }

    #[inline(always)]
    fn put(&self, out: &mut BytesMut) {
        out.extend_reserved(self.0)
    }
}

impl<T: Encode> Encode for Option<T> {
    ghost text = { optional_text T.text };

    ghost most = { T.most + 1 };

    #[inline(always)]
    fn is_null(&self) -> bool {
        match self {
            Some(value) => value.is_null(),
            None => true,
        }
    }

    #[inline(always)]
    fn encoded_len(&self) -> u128 {
        match self {
            Some(value) => value.encoded_len(),
            None => 1,
        }
    }

    #[inline(always)]
    fn put(&self, out: &mut BytesMut) {
        match self {
            Some(value) => value.put(out),
            None => out.extend_reserved(&[codes::NULL]),
        }
    }
}
