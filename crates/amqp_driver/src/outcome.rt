//! The state of a delivery, by its descriptor, a number or a name (AMQP 1.0 part 3, section 3.4).

ghost use Rattle.std.specs.Prelude.{◌≡◌, length};
ghost use Rattle.amqp_driver.specs.Outcome.{begins, has_long_name, number_of, outcome_named, outcome_number, outcome_of, outcome_text};

use amqp_types::Raw;

/// The number of a record for a state, 0 where there is none.
pub(crate) fn outcome_of(state: &Option<Raw>) -> u8
    ensures { result ≡ outcome_of state.now }
{
    match state {
        None => 0,
        Some(state) => outcome_text(state.bytes()),
    }
}

/// The same of the state that these bytes are.
fn outcome_text(text: &[u8]) -> u8
    ensures { result ≡ outcome_text text.now }
{
    if begins(text, 3, 0x53) {
        return outcome_number(u64::from(text[2]));
    }
    if begins(text, 10, 0x80) {
        return outcome_number(number_of(&text[2..10]));
    }
    if begins(text, 21, 0xa3) && text[2] == 18 {
        return outcome_named(&text[3..21]);
    }
    if has_long_name(text) {
        return outcome_named(&text[6..24]);
    }
    6
}

/// Whether these bytes begin with a symbol whose length has four bytes, and is that of each name.
fn has_long_name(text: &[u8]) -> bool
    ensures { result ≡ has_long_name text.now }
{
    begins(text, 24, 0xb3) && text[2] == 0 && text[3] == 0 && text[4] == 0 && text[5] == 18
}

/// Whether these bytes are at least so many, and begin with a descriptor of this code.
fn begins(text: &[u8], least: usize, code: u8) -> bool
    ensures { result ≡ begins text.now least code }
{
    least <= text.len() && text.len() > 1 && text[0] == 0 && text[1] == code
}

/// The number in eight bytes.
fn number_of(bytes: &[u8]) -> u64
    requires { length bytes.now ≡ 8 }
    ensures { result ≡ number_of bytes.now }
{
    u64::from_be_bytes([
        bytes[0], bytes[1], bytes[2], bytes[3], bytes[4], bytes[5], bytes[6], bytes[7],
    ])
}

fn outcome_number(number: u64) -> u8
    ensures { result ≡ outcome_number number }
{
    match number {
        0x24 => 1,
        0x25 => 2,
        0x26 => 3,
        0x27 => 4,
        0x23 => 5,
        _ => 6,
    }
}

/// The number for a name; each has 18 bytes.
fn outcome_named(name: &[u8]) -> u8
    ensures { result ≡ outcome_named name.now }
{
    if name == b"amqp:accepted:list".as_slice() {
        1
    } else if name == b"amqp:rejected:list".as_slice() {
        2
    } else if name == b"amqp:released:list".as_slice() {
        3
    } else if name == b"amqp:modified:list".as_slice() {
        4
    } else if name == b"amqp:received:list".as_slice() {
        5
    } else {
        6
    }
}
