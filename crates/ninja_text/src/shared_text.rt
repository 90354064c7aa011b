//! A part of a string that several values share.
ghost use Rattle.std.specs.Prelude.{◌≡◌, ◌≤◌, [], ◌∷◌, ◌++◌, length, slice_range, bytes_eq};
ghost use Rattle.std.specs.Prelude.{IfOk, IsUtf8};
ghost use Rattle.std.specs.Rc.{rc_slice_items};
ghost use Rattle.std.specs.Cmp.{partial_equiv_from_equiv, partial_order_from_own_ties};
ghost use Rattle.std.specs.Cmp.Rules.{comparing, hashing};
ghost use Rattle.std.specs.Cmp.Lexicographic.{slice_cmp};
ghost use Rattle.std.specs.Ordering.{nat_cmp, as_partial_cmp};
ghost use Rattle.std.specs.Hash as fed;
ghost use Rattle.std.proofs.Common.{rules};
ghost use Rattle.std.proofs.lemmas.Cmp.{nat_list_eq_equiv};
ghost use Rattle.ninja_text.specs.Bytes.{Bytes};

use std::alloc::{AllocError, Global};
use std::cmp::Ordering;
use std::hash::{Hash, Hasher};
use std::marker::Model;
use std::rc::RcSlice;
use std::str;

/// A part of a string, which is its view. Copies share the string. Texts are equal, ordered and
/// hashed by their bytes, and so are the types that hold nothing but one.
#[derive(Drop)]
pub struct SharedText {
    /// The text, from `start` to `end`.
    string: RcSlice<u8>,
    start: usize,
    end: usize,
}

impl Model for SharedText {
    ghost Value = { Bytes };

    ghost view = { λ t. slice_range (rc_slice_items t.string) t.start t.end };

    ghost invariant = { λ t. (t.start ≤ t.end) × (t.end ≤ length (rc_slice_items t.string)) };
}

impl SharedText {
    /// Returns a text of these bytes, or an error if an allocation fails.
    pub fn of(alloc: Global, bytes: &[u8]) -> Result<SharedText, AllocError>
        ensures { IfOk result (λ text. text ≡ bytes.now) }
    {
        Ok(SharedText::whole(RcSlice::from_slice(alloc, bytes)?))
    }

    /// Returns the whole of a string.
    pub fn whole(string: RcSlice<u8>) -> SharedText
        ensures { result ≡ rc_slice_items string }
    {
        let (start, end) = (0, string.len());
        SharedText { string, start, end }
    }

    /// Returns the part of a string from one offset to another. It shares the string, and allocates
    /// nothing. Returns an error if the string's reference count is full.
    pub fn part(string: &RcSlice<u8>, start: usize, end: usize) -> Result<SharedText, AllocError>
        requires { (start ≤ end) × (end ≤ length (rc_slice_items string.now)) }
        ensures { IfOk result (λ text. text ≡ slice_range (rc_slice_items string.now) start end) }
    {
        let string = string.clone()?;
        Ok(SharedText { string, start, end })
    }

    /// Returns the bytes.
    pub fn bytes(&self) -> &[u8]
        ensures { result.now ≡ self.now }
    {
        &self.string.as_slice()[self.start..self.end]
    }

    /// Returns the text, which has to be UTF-8, as a string.
    pub fn text(&self) -> &str
        requires { IsUtf8 self.now }
        ensures { result.now ≡ self.now }
    {
        match str::from_utf8(self.bytes()) {
            Ok(text) => text,
            Err(_) => unreachable!(),
        }
    }

    /// Returns a copy, or an error if an allocation fails. The copies share one string; if its
    /// reference count is full, the copy gets a string of its own.
    pub fn copy(&self, alloc: Global) -> Result<SharedText, AllocError>
        ensures { IfOk result (λ copy. copy ≡ self.now) }
    {
        self.clone()
            .or_else(|_| SharedText::of(alloc, self.bytes()))
    }
}

/// The clone shares the string and allocates nothing. It fails only if the reference count is full;
/// [`SharedText::copy`] does not.
impl Clone for SharedText {
    ghost is_clone = { λ text clone. clone ≡ text };

    fn clone(&self) -> Result<SharedText, AllocError> {
        SharedText::part(&self.string, self.start, self.end)
    }
}

impl PartialEq for SharedText {
    ghost eq = { bytes_eq };

    ghost laws = { partial_equiv_from_equiv nat_list_eq_equiv };

    fn eq(&self, other: &SharedText) -> bool {
        self.bytes() == other.bytes()
    }
}

impl Eq for SharedText {
    ghost laws = { nat_list_eq_equiv };
}

impl Ord for SharedText {
    ghost cmp = { slice_cmp nat_cmp };

    ghost total = { Prim.search (comparing, rules) };

    ghost matches_partial_cmp = { Prim.search (comparing, rules) };

    ghost matches_eq = { Prim.search (comparing, rules) };

    fn cmp(&self, other: &SharedText) -> Ordering {
        self.bytes().cmp(other.bytes())
    }
}

impl PartialOrd for SharedText {
    ghost partial_cmp = { as_partial_cmp (slice_cmp nat_cmp) };

    ghost laws = { partial_order_from_own_ties
        (Prim.search (comparing, rules)) (Prim.search (comparing, rules)) };

    fn partial_cmp(&self, other: &SharedText) -> Option<Ordering> {
        Some(self.cmp(other))
    }
}

/// Hashes the length and then all bytes in one call, so that a hasher can read whole words.
impl Hash for SharedText {
    ghost hash_input = { λ t. fed.usize (length t) ++ t ∷ [] };

    ghost respects_eq = { Prim.search (hashing, rules) };

    fn hash<H: Hasher>(&self, state: &mut H) {
        let bytes = self.bytes();
        state.write_usize(bytes.len());
        state.write(bytes);
    }
}
