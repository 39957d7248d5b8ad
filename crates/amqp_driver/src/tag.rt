//! The tag of a delivery, in a record (AMQP 1.0 part 2, section 2.8.7).

ghost use Rattle.std.specs.Prelude.{◌≡◌, option_map};
ghost use Rattle.amqp_driver.specs.Tag.{padded, tag_bytes, tag_size};

use amqp_types::DeliveryTag;

/// How many bytes the tag has, and 65535 where it has more.
pub(crate) fn tag_size(tag: &Option<DeliveryTag>) -> u16
    ensures { result ≡ tag_size (option_map (λ t. t.0) tag.now) }
{
    match tag {
        None => 0,
        Some(tag) => tag.0.len().min(65535) as u16,
    }
}

/// The tag, and zeros after it, where it has at most 32 bytes; else zeros.
pub(crate) fn tag_bytes(tag: &Option<DeliveryTag>) -> [u8; 32]
    ensures { result ≡ tag_bytes (option_map (λ t. t.0) tag.now) }
{
    match tag {
        None => [0; 32],
        Some(tag) => padded(tag.0.as_slice()),
    }
}

fn padded(tag: &[u8]) -> [u8; 32]
    ensures { result ≡ padded tag.now }
{
    let mut bytes = [0; 32];
    if tag.len() <= 32 {
        bytes[..tag.len()].copy_from_slice(tag);
    }
    bytes
}
