//! Classes of format codes: what data stand after each (AMQP 1.0 part 1, section 1.6).

ghost use Rattle.std.specs.Prelude.{◌≡◌};
ghost use Rattle.amqp_values.specs.FormatClass.{class_of};

/// What stands after a constructor. Where a class is wide, its sizes, lengths and counts have four bytes, else one.
#[derive(Clone, Copy)]
pub(crate) enum FormatClass {
    /// So many bytes.
    Fixed(usize),
    /// One byte, 0 or 1.
    Flag,
    /// A length, and that many bytes.
    Variable(bool),
    /// Nothing, for a list of no parts.
    List0,
    /// A size, a count, and that many values.
    List(bool),
    /// A size, an even count, and that many values: keys and values in turn.
    Map(bool),
    /// A size, a count, one constructor, and the data of that many values.
    Array(bool),
    /// No code of the standard.
    Unknown,
}

/// The class of a format code (part 1, section 1.6).
pub(crate) fn class_at(code: u8) -> FormatClass
    ensures { result ≡ class_of code }
{
    match code {
        0x40..=0x44 => FormatClass::Fixed(0),
        0x45 => FormatClass::List0,
        0x50..=0x55 => FormatClass::Fixed(1),
        0x56 => FormatClass::Flag,
        0x60..=0x61 => FormatClass::Fixed(2),
        0x70..=0x74 => FormatClass::Fixed(4),
        0x80..=0x84 => FormatClass::Fixed(8),
        0x94 | 0x98 => FormatClass::Fixed(16),
        0xa0 | 0xa1 | 0xa3 => FormatClass::Variable(false),
        0xb0 | 0xb1 | 0xb3 => FormatClass::Variable(true),
        0xc0 => FormatClass::List(false),
        0xd0 => FormatClass::List(true),
        0xc1 => FormatClass::Map(false),
        0xd1 => FormatClass::Map(true),
        0xe0 => FormatClass::Array(false),
        0xf0 => FormatClass::Array(true),
        _ => FormatClass::Unknown,
    }
}
