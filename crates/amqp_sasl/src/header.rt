//! Protocol headers: the eight bytes that each side sends first (AMQP 1.0 part 2, section 2.2).

ghost use Rattle.std.specs.Prelude.{◌≡◌, ◌↔◌, true};
ghost use Rattle.amqp_sasl.specs.Header.{protocol_id, header_text, ReadsHeader, BeginsAsName, IsProtocolOf};

/// What follows the headers, in version 1.0.0 (part 2, section 2.2; part 5, sections 5.2.1 and 5.3.2).
#[derive(Clone, Copy, Debug, PartialEq, Eq)]
pub enum Protocol {
    /// Frames of AMQP: id 0.
    Amqp,
    /// TLS: id 2.
    Tls,
    /// SASL, and then headers again: id 3.
    Sasl,
}

/// What stands at the front of received bytes where a header is expected.
#[derive(Clone, Copy, Debug, PartialEq, Eq)]
pub enum ReceivedHeader {
    /// The header of this protocol, in its eight bytes.
    Header(Protocol),
    /// Eight bytes or more, and not one of the three headers: the first eight.
    Other([u8; 8]),
    /// Fewer than eight bytes, which begin as a header does.
    Begun,
    /// Fewer than eight bytes, which no header begins with.
    NotAmqp,
}

impl Protocol {
    /// The number that tells it from the others: 0, 2 or 3.
    pub fn id(self) -> u8
        ensures { result ≡ protocol_id self }
    {
        match self {
            Protocol::Amqp => 0,
            Protocol::Tls => 2,
            Protocol::Sasl => 3,
        }
    }

    /// Its header: `AMQP`, its id, and the version 1 0 0.
    pub fn header(self) -> [u8; 8]
        ensures { result ≡ header_text self }
    {
        [b'A', b'M', b'Q', b'P', self.id(), 1, 0, 0]
    }
}

/// The protocol whose header this is.
fn protocol_of(header: &[u8]) -> Option<Protocol>
    ensures { IsProtocolOf header.now result }
{
    if header == Protocol::Amqp.header().as_slice() {
        Some(Protocol::Amqp)
    } else if header == Protocol::Tls.header().as_slice() {
        Some(Protocol::Tls)
    } else if header == Protocol::Sasl.header().as_slice() {
        Some(Protocol::Sasl)
    } else {
        None
    }
}

/// Whether bytes begin as a header does: they and `AMQP` are the same as far as both go.
fn begins_as_name(bytes: &[u8]) -> bool
    ensures { (result ≡ true) ↔ BeginsAsName bytes.now }
{
    let both = bytes.len().min(4);
    bytes[..both] == b"AMQP"[..both]
}

/// Reads the header at the front of these bytes, of which there may be more. Of eight bytes or more it tells whose header they are, or
/// what came; of fewer, whether a header may still come.
///
/// ```
/// match read_header(bytes) {
///     ReceivedHeader::Header(Protocol::Sasl) => {}   // SASL frames follow after eight bytes
///     ReceivedHeader::Begun => {}                    // read more
///     _ => {}                                        // answer with a header of your own, and close
/// }
/// ```
#[tactic(auto, using(crate::proofs::HeaderLemmas::front_is))]
pub fn read_header(bytes: &[u8]) -> ReceivedHeader
    ensures { ReadsHeader bytes.now result }
{
    if bytes.len() < 8 {
        return if begins_as_name(bytes) {
            ReceivedHeader::Begun
        } else {
            ReceivedHeader::NotAmqp
        };
    }
    match protocol_of(&bytes[..8]) {
        Some(protocol) => ReceivedHeader::Header(protocol),
        None => ReceivedHeader::Other([
            bytes[0], bytes[1], bytes[2], bytes[3], bytes[4], bytes[5], bytes[6], bytes[7],
        ]),
    }
}
