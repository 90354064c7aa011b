//! Names of modules and of targets.
ghost use Rattle.std.specs.Prelude.{◌≡◌, IfOk, IsTrue, IsUtf8, Some};
ghost use Rattle.std.specs.Option.{SomeIff};
ghost use Rattle.document_values.specs.Name.{is_name, is_target_name};

use ninja_text::SharedText;
use std::alloc::{AllocError, Global};
use std::fmt;
use std::marker::Model;
use std::rc::RcSlice;

/// The maximum length of a name in bytes.
pub const NAME_LIMIT: usize = 1024;

/// The name of a module, or of a module's partition: the logical name of P1689R5.
///
/// It has 1 to 1,024 bytes and one `:` at most, no part between the separators `.` and `:` is
/// empty, and no byte is a control byte, a space, 127 or one of `/ \ " ' = | $`. The view of a name
/// is its string. Copies of a name share the string, and the names of a scan document or an info
/// document share one.
#[derive(PartialEq, Eq, PartialOrd, Ord, Hash)]
pub struct Name(SharedText);

// Not derived: this saves the prover time (docs/DECISIONS.md, "Code").
impl Drop for Name {
    fn drop(self) {
        let Name(_) = self;
    }
}

impl Model for Name {
    ghost use Rattle.std.specs.Prelude.{IsTrue, IsUtf8};
    ghost use Rattle.ninja_text.specs.Bytes.{Bytes};
    ghost use Rattle.document_values.specs.Name.{is_name};

    ghost Value = { Bytes };

    ghost view = { λ n. n.0 };

    ghost inverse = { λ text. record { 0 = text } };

    ghost invariant = { λ n. IsTrue (is_name n.0) × IsUtf8 n.0 };
}

impl Name {
    /// Returns the name of a string, or `None` if the string is not a valid name, or an error if an
    /// allocation fails.
    pub fn of(alloc: Global, text: &str) -> Result<Option<Name>, AllocError>
        ensures { IfOk result (λ name. SomeIff name (IsTrue (is_name text.now)) text.now) }
    {
        if !is_name(text.as_bytes()) {
            return Ok(None);
        }
        Ok(Some(Name(SharedText::of(alloc, text.as_bytes())?)))
    }

    /// Returns the string of the name.
    pub fn text(&self) -> &str
        ensures text { result.now ≡ self.now }
        ensures accepted { IsTrue (is_name self.now) }
    {
        self.0.text()
    }

    /// Returns the bytes of the string.
    pub fn bytes(&self) -> &[u8]
        ensures text { result.now ≡ self.now }
        ensures accepted { IsTrue (is_name self.now) }
        ensures utf8 { IsUtf8 result.now }
    {
        self.0.bytes()
    }

    /// Returns a copy of the name, or an error if an allocation fails. The copies share one string;
    /// if its reference count is full, the copy gets a string of its own.
    pub fn copy(&self, alloc: Global) -> Result<Name, AllocError>
        ensures { IfOk result (λ copy. copy ≡ self.now) }
    {
        Ok(Name(self.0.copy(alloc)?))
    }
}

/// The clone shares the string and allocates nothing. It fails only if the reference count is full;
/// [`Name::copy`] does not.
impl Clone for Name {
    ghost is_clone = { λ name clone. clone ≡ name };

    fn clone(&self) -> Result<Name, AllocError> {
        Ok(Name(SharedText::clone(&self.0)?))
    }
}

/// A name is printed as its string.
impl fmt::Debug for Name {
    fn fmt<W: fmt::Write>(&self, f: &mut fmt::Formatter<W>) -> fmt::Result {
        f.write_str(self.text())
    }
}

/// The names of a document, one after the other in one string, which is their view. The names that
/// are made of it share the string, so that they need one allocation.
#[derive(Drop)]
pub struct SharedNames {
    text: RcSlice<u8>,
    /// Where the next name begins.
    start: usize,
}

impl Model for SharedNames {
    ghost use Rattle.std.specs.Rc.{rc_slice_items};
    ghost use Rattle.ninja_text.specs.Bytes.{Bytes};

    ghost Value = { Bytes };

    ghost view = { λ names. rc_slice_items names.text };
}

impl SharedNames {
    /// Returns the names in this string, or an error if an allocation fails. The next one to be
    /// made begins the string.
    pub fn new(text: Vec<u8>) -> Result<SharedNames, AllocError>
        ensures { IfOk result (λ names. names ≡ text.items) }
    {
        let text = RcSlice::from_vec(text)?;
        Ok(SharedNames { text, start: 0 })
    }

    /// Returns the name of a string, as [`Name::of`] does, or an error if an allocation fails. If
    /// the string is the next one of the shared string, the name shares it, and the one after it is
    /// the next.
    pub fn read(&mut self, alloc: Global, text: &str) -> Result<Option<Name>, AllocError>
        ensures { IfOk result (λ name. SomeIff name (IsTrue (is_name text.now)) text.now) }
    {
        if !is_name(text.as_bytes()) {
            return Ok(None);
        }
        let start = self.start;
        let end = start.saturating_add(text.len());
        match self.text.as_slice().get(start..end) {
            Some(next) if next == text.as_bytes() => {
                let shared = SharedText::part(&self.text, start, end)?;
                self.start = end;
                Ok(Some(Name(shared)))
            }
            _ => Ok(Some(Name(SharedText::of(alloc, text.as_bytes())?))),
        }
    }
}

/// The name of a target: 1 to 1,024 bytes, none of them a control byte or 127. The view of a name
/// is its string.
#[derive(PartialEq, Eq, PartialOrd, Ord, Hash)]
pub struct TargetName(SharedText);

// Not derived: this saves the prover time (docs/DECISIONS.md, "Code").
impl Drop for TargetName {
    fn drop(self) {
        let TargetName(_) = self;
    }
}

impl Model for TargetName {
    ghost use Rattle.std.specs.Prelude.{IsTrue, IsUtf8};
    ghost use Rattle.ninja_text.specs.Bytes.{Bytes};
    ghost use Rattle.document_values.specs.Name.{is_target_name};

    ghost Value = { Bytes };

    ghost view = { λ n. n.0 };

    ghost inverse = { λ text. record { 0 = text } };

    ghost invariant = { λ n. IsTrue (is_target_name n.0) × IsUtf8 n.0 };
}

impl TargetName {
    /// Returns the name of a string, or `None` if the string is not a valid name, or an error if an
    /// allocation fails.
    #[tactic(auto, unfolding(crate::specs::Name::is_target_name))]
    pub fn of(alloc: Global, text: &str) -> Result<Option<TargetName>, AllocError>
        ensures { IfOk result (λ name. SomeIff name (IsTrue (is_target_name text.now)) text.now) }
    {
        let bytes = text.as_bytes();
        let are_printed = bytes.iter().all(|b| *b >= 32 && *b != 127);
        if bytes.is_empty() || bytes.len() > NAME_LIMIT || !are_printed {
            return Ok(None);
        }
        Ok(Some(TargetName(SharedText::of(alloc, bytes)?)))
    }

    /// Returns the string of the name.
    pub fn text(&self) -> &str
        ensures text { result.now ≡ self.now }
        ensures accepted { IsTrue (is_target_name self.now) }
    {
        self.0.text()
    }

    /// Returns a copy of the name, or an error if an allocation fails.
    pub fn copy(&self, alloc: Global) -> Result<TargetName, AllocError>
        ensures { IfOk result (λ copy. copy ≡ self.now) }
    {
        Ok(TargetName(self.0.copy(alloc)?))
    }
}

impl Clone for TargetName {
    ghost is_clone = { λ name clone. clone ≡ name };

    fn clone(&self) -> Result<TargetName, AllocError> {
        Ok(TargetName(self.0.clone()?))
    }
}

/// A name is printed as a struct with its string.
impl fmt::Debug for TargetName {
    fn fmt<W: fmt::Write>(&self, f: &mut fmt::Formatter<W>) -> fmt::Result {
        f.debug_struct("TargetName")
            .field("text", &self.text())
            .finish()
    }
}

/// `is_empty` is about the part that is being read.
#[tactic(auto, using(crate::proofs::Names::name_is, crate::proofs::Names::too_long))]
fn is_name(text: &[u8]) -> bool
    ensures { result ≡ is_name text.now }
{
    if text.len() > NAME_LIMIT {
        return false;
    }
    let mut has_colon = false;
    let mut is_empty = true;
    for byte in text {
        match *byte {
            b'.' | b':' => {
                let is_colon = *byte == b':';
                if is_empty || is_colon && has_colon {
                    return false;
                }
                has_colon = has_colon || is_colon;
                is_empty = true;
            }
            0..=b' ' | b'/' | b'\\' | b'"' | b'\'' | b'=' | b'|' | b'$' | 127 => return false,
            _ => is_empty = false,
        }
    }
    !is_empty
}
