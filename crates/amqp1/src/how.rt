//! How a stream is made.

ghost use Rattle.std.specs.Prelude.{◌≡◌};
ghost use Rattle.amqp1.specs.Making.{limit_of};

/// How a stream is made: its key, its time, and which side of SASL it is. The layout is that of C, in 40 bytes without padding: `key` at 0, `time` at
/// 16, `limit` at 24, `side` at 28, `host` at 32, `reserved` at 36.
#[derive(Clone, Copy, Debug, PartialEq, Eq)]
#[repr(C)]
pub struct How {
    /// 16 bytes that the peer does not know, by which names, handles and channels are found. 16 zeros are refused: they were forgotten.
    pub key: [u8; 16],
    /// The time, in milliseconds of any clock that the caller has.
    pub time: u64,
    /// How many milliseconds headers, SASL and both Opens may take. 4294967295 sets no limit.
    pub limit: u32,
    /// 0 without SASL, 1 for a client of SASL, 2 for a server of SASL.
    pub side: u32,
    /// How many bytes the name of the host has that a client asks for, before its logins. 4294967295 where it asks for none, and where it is no
    /// client.
    pub host: u32,
    /// It fills the struct, and is not read.
    pub reserved: u32,
}

/// The limit of the opening, if one is set.
pub(crate) fn limit_of(limit: u32) -> Option<u32>
    ensures { result ≡ limit_of limit }
{
    if limit == u32::MAX { None } else { Some(limit) }
}
