//! Laws about the digested bytes. A law is the contract of a function that does nothing; callers
//! call it to use the law in a proof.
ghost use Rattle.std.specs.Prelude.{◌≡◌, ◌<◌, ◌^◌, All, length};
ghost use Rattle.table_keys.specs.Entries.{TableEntries, digested};

/// Two lists of entries with the same digested bytes are the same list, so the same bytes cut into
/// other entries have another digest.
pub fn digested_bytes_determine_the_entries()
    ensures { (a b : TableEntries) → All (λ entry. length entry < 2 ^ 64) a
        → All (λ entry. length entry < 2 ^ 64) b → digested a ≡ digested b → a ≡ b }
{}
