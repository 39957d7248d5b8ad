//! Codes: the constructor bytes that stand before a value's data (AMQP 1.0 part 1, section 1.6), and the numbers of the
//! descriptors of the performatives and of the error (part 2, sections 2.7 and 2.8.14), and of outcomes (part 3, section 3.4).

/// Before a descriptor and the value that it describes (part 1, section 1.2).
pub const DESCRIBED: u8 = 0x00;

/// `null`, of no bytes.
pub const NULL: u8 = 0x40;

/// `boolean`, true, of no bytes.
pub const TRUE: u8 = 0x41;

/// `boolean`, false, of no bytes.
pub const FALSE: u8 = 0x42;

/// `uint` 0, of no bytes.
pub const UINT0: u8 = 0x43;

/// `ulong` 0, of no bytes.
pub const ULONG0: u8 = 0x44;

/// `list` with no items, of no bytes.
pub const LIST0: u8 = 0x45;

/// `ubyte`, of one byte.
pub const UBYTE: u8 = 0x50;

/// `uint` below 256, of one byte.
pub const SMALL_UINT: u8 = 0x52;

/// `ulong` below 256, of one byte.
pub const SMALL_ULONG: u8 = 0x53;

/// `boolean`, of one byte: 0 or 1.
pub const BOOLEAN: u8 = 0x56;

/// `ushort`, of two bytes.
pub const USHORT: u8 = 0x60;

/// `uint`, of four bytes.
pub const UINT: u8 = 0x70;

/// `ulong`, of eight bytes.
pub const ULONG: u8 = 0x80;

/// `binary`, with a length of one byte.
pub const BINARY8: u8 = 0xa0;

/// `string` in UTF-8, with a length of one byte.
pub const STRING8: u8 = 0xa1;

/// `symbol` in ASCII, with a length of one byte.
pub const SYMBOL8: u8 = 0xa3;

/// `binary`, with a length of four bytes.
pub const BINARY32: u8 = 0xb0;

/// `string` in UTF-8, with a length of four bytes.
pub const STRING32: u8 = 0xb1;

/// `symbol` in ASCII, with a length of four bytes.
pub const SYMBOL32: u8 = 0xb3;

/// `list`, with a size and a count of one byte each.
pub const LIST8: u8 = 0xc0;

/// `list`, with a size and a count of four bytes each.
pub const LIST32: u8 = 0xd0;

/// `map`, with a size and a count of one byte each.
pub const MAP8: u8 = 0xc1;

/// `map`, with a size and a count of four bytes each.
pub const MAP32: u8 = 0xd1;

/// `array`, with a size and a count of one byte each.
pub const ARRAY8: u8 = 0xe0;

/// `array`, with a size and a count of four bytes each.
pub const ARRAY32: u8 = 0xf0;

/// The descriptor of Open (part 2, section 2.7.1).
pub const OPEN: u8 = 0x10;

/// The descriptor of Begin (part 2, section 2.7.2).
pub const BEGIN: u8 = 0x11;

/// The descriptor of Attach (part 2, section 2.7.3).
pub const ATTACH: u8 = 0x12;

/// The descriptor of Flow (part 2, section 2.7.4).
pub const FLOW: u8 = 0x13;

/// The descriptor of Transfer (part 2, section 2.7.5).
pub const TRANSFER: u8 = 0x14;

/// The descriptor of Disposition (part 2, section 2.7.6).
pub const DISPOSITION: u8 = 0x15;

/// The descriptor of Detach (part 2, section 2.7.7).
pub const DETACH: u8 = 0x16;

/// The descriptor of End (part 2, section 2.7.8).
pub const END: u8 = 0x17;

/// The descriptor of Close (part 2, section 2.7.9).
pub const CLOSE: u8 = 0x18;

/// The descriptor of the error (part 2, section 2.8.14).
pub const ERROR: u8 = 0x1d;

/// The descriptor of the outcome `accepted` (part 3, section 3.4.2).
pub const ACCEPTED: u8 = 0x24;

/// The descriptor of the outcome `rejected` (part 3, section 3.4.3).
pub const REJECTED: u8 = 0x25;

/// The descriptor of the outcome `released` (part 3, section 3.4.4).
pub const RELEASED: u8 = 0x26;

/// The descriptor of the outcome `modified` (part 3, section 3.4.5).
pub const MODIFIED: u8 = 0x27;
