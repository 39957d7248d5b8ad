//! The key of the engine's maps, as the caller drew it.

use amqp_session::keys::KeyHash;
use std::hash::RandomState;
use std::io;
use std::random::RandomSource;

/// Bytes in place of random ones.
#[derive(Drop)]
struct Drawn<'a> {
    bytes: &'a [u8],
}

impl RandomSource for Drawn<'_> {
    fn fill_bytes(&self, buf: &mut [u8]) -> io::Result<()> {
        for (to, from) in buf.iter_mut().zip(self.bytes.iter()) {
            *to = *from;
        }
        Ok(())
    }
}

/// The hash with this key, of 16 bytes.
pub(crate) fn hash_of(key: &[u8]) -> KeyHash {
    match RandomState::new(&Drawn { bytes: key }) {
        Ok(state) => KeyHash::Keyed(state),
        Err(_) => KeyHash::Fixed,
    }
}
