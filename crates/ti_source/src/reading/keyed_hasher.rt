//! Hashing the names of a source with a key that depends on the source.
//!
//! The author of a file picks its names, and a map of names whose hashes all collide takes
//! quadratic time. So names are hashed with a key: the digest of all lines that begin entries, with
//! their line ends. All names in the map are in these lines, and the digest depends on where each
//! line ends. Whoever changes or adds a name, or breaks the lines differently, to make names
//! collide also changes the key, and with it the hashes of all names. Names of `use=` are only
//! looked up, and the cost of a look-up is bounded by how the names in the map collide, so lines of
//! `use=` are not digested.

ghost use Rattle.std.specs.Prelude.{◌≡◌};
ghost use Rattle.sha2.specs.Sha512.{sha512};
ghost use Rattle.ti_source.specs.Code.Keyed.{begins_entry, keyed, lines_of_names};

use crate::reading::line::{begins_blank, begins_hash};
use bstr::ByteSlice;
use sha2::{Digest, Sha512};
use std::hash::{BuildHasher, DefaultHasher, Hasher};

/// SipHash of a name, preceded by the digest of the source's lines of names.
#[derive(Clone, Copy)]
pub(crate) struct KeyedHasher {
    keyed: DefaultHasher,
}

impl KeyedHasher {
    /// The hasher for the names of this source.
    pub(crate) fn new(source: &[u8]) -> KeyedHasher
        ensures { result.keyed ≡ keyed source.now }
    {
        let mut keyed = DefaultHasher::new();
        keyed.write(&digest_of_names(source));
        KeyedHasher { keyed }
    }
}

impl BuildHasher for KeyedHasher {
    type Hasher = DefaultHasher;

    ghost build_hasher = { λ s. s.keyed };

    fn build_hasher(&self) -> DefaultHasher {
        self.keyed
    }
}

/// The digest of the lines of a source that begin entries, each with its LF.
fn digest_of_names(source: &[u8]) -> [u8; 64]
    ensures { result ≡ sha512 (lines_of_names source.now) }
{
    let mut digest = Sha512::new();
    for line in source.lines_with_terminator() {
        if begins_entry(line) {
            digest.update(line);
        }
    }
    digest.finalize()
}

/// Whether a line may begin an entry: it is not a comment and does not begin with a blank.
fn begins_entry(line: &[u8]) -> bool
    ensures { result ≡ begins_entry line.now }
{
    !begins_hash(line) && !begins_blank(line)
}
