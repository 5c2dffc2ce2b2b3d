//! Keys of hash tables, made of the text that fills the table.

ghost use Rattle.std.specs.Prelude.{◌≡◌};
ghost use Rattle.std.specs.Hash.DefaultHasher as sip;
ghost use Rattle.sha2.specs.Sha512.{sha512};

use sha2::{Digest, Sha512};
use std::hash::{BuildHasher, DefaultHasher, Hasher};

/// The key by which a table hashes what a text names.
///
/// Were the key known beforehand, a text could be written whose names have places side by side, and
/// each search among them would be long. The key is a digest of the whole text: names that are
/// chosen for one key change the key.
#[derive(Clone, Copy, Drop)]
pub struct TextKey {
    /// A hasher that has read the digest.
    keyed: DefaultHasher,
}

impl TextKey {
    /// The key of a text: its SHA-512 digest (FIPS 180-4), which takes less time for a long text than
    /// that of 256 bits.
    pub fn of(text: &[u8]) -> TextKey
        ensures { result.keyed ≡ sip.write sip.initial (sha512 text.now) }
    {
        let mut keyed = DefaultHasher::new();
        let digest = Sha512::digest(text);
        keyed.write(&digest);
        TextKey { keyed }
    }
}

impl BuildHasher for TextKey {
    type Hasher = DefaultHasher;

    ghost build_hasher = { λ key. key.keyed };

    fn build_hasher(&self) -> DefaultHasher {
        self.keyed
    }
}
