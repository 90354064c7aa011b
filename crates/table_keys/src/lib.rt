//! Keys for hash tables whose entries strangers choose.
//!
//! Whoever knows how a table hashes can choose entries that all hash alike, so that each look-up
//! searches the whole table. A [`TableKey`] is made of the SHA-512 digest of the entries
//! themselves: whoever chooses the entries cannot choose the digest as well. So a table needs no
//! random bytes from outside, and a program hashes the same way in each run. Each entry is digested
//! with its length, so one digest cannot stand for the same bytes cut into other entries.
//!
//! ```rust
//! let key = TableKey::of(&[b"first".as_slice(), b"second".as_slice()]);
//! let mut names = IndexSet::with_hasher(alloc, key);
//! ```
//!
//! It uses `sha2` for the digest. The table's hasher is std's `DefaultHasher` (SipHash), which has
//! hashed the digest before it hashes an entry.
#![tactic(auto)]

ghost use Rattle.std.specs.Prelude.{◌++◌, ◌∷◌, [], map};
ghost use Rattle.table_keys.specs.Entries.{TableEntries};
ghost use Rattle.table_keys.specs.Keys.{HasAdded, IsKeyOf};

use sha2::{Digest, Sha512};
use std::hash::{BuildHasher, DefaultHasher, Hasher};

pub mod laws;

/// Builds the hashers of a table. All of them start from the digest of the table's entries.
#[derive(Clone, Copy)]
pub struct TableKey {
    start: DefaultHasher,
}

impl TableKey {
    /// Returns the key for the table of these entries.
    pub fn of(entries: &[&[u8]]) -> TableKey
        ensures { IsKeyOf result (map (λ entry. entry.now) entries.now) }
    {
        let mut digest = KeyDigest::new();
        for entry in entries {
            digest.add(entry);
        }
        digest.key()
    }
}

impl BuildHasher for TableKey {
    type Hasher = DefaultHasher;

    ghost build_hasher = { λ key. key.start };

    /// Returns a hasher that has hashed the digest.
    fn build_hasher(&self) -> DefaultHasher {
        self.start
    }
}

/// Computes the digest of a table's entries, one after another. [`TableKey::of`] is for a list of
/// entries.
#[derive(Drop)]
pub struct KeyDigest {
    digest: Sha512,
}

impl KeyDigest {
    /// Returns the digest of no entries.
    pub fn new() -> KeyDigest
        ensures { HasAdded result [] }
    {
        let digest = Sha512::new();
        KeyDigest { digest }
    }

    /// Adds an entry, with its length, to the digest.
    #[tactic(auto, using(crate::proofs::Framing::one_more))]
    pub fn add(&mut self, entry: &[u8])
        ensures { (entries : TableEntries) → HasAdded self.old entries
            → HasAdded self.new (entries ++ entry.now ∷ []) }
    {
        let length = entry.len();
        if length < 255 {
            self.digest.update(&[length as u8]);
        } else {
            self.digest.update(&[255]);
            self.digest.update(&length.to_le_bytes());
        }
        self.digest.update(entry);
    }

    /// Returns the key for the table of the entries so far.
    pub fn key(self) -> TableKey
        ensures { (entries : TableEntries) → HasAdded self entries → IsKeyOf result entries }
    {
        let mut start = DefaultHasher::new();
        start.write(&self.digest.finalize());
        TableKey { start }
    }
}
