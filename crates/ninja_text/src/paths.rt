//! Canonical paths, and how they are escaped in Ninja files.
ghost use Rattle.std.specs.Prelude.{◌++◌, ◌↔◌, ◌≡◌, ◌≤◌, IfOk, IsTrue, IsUtf8, Ok, OnErr, OnOk};
ghost use Rattle.ninja_text.specs.Prelude.{ForSome, Gives, IsPath, IsWritable, PathText, Spells};
ghost use Rattle.ninja_text.specs.Prelude.{Text, below, canonical_of, escaped, is_escaped};
ghost use Rattle.ninja_text.specs.Prelude.{is_rooted, is_writable, length, option_copied};
ghost use Rattle.ninja_text.specs.Prelude.{option_map, parts, path_of, placed, rc_slice_items};
ghost use Rattle.ninja_text.specs.Prelude.{seen_from, slice_range, true};
ghost use Rattle.ninja_text.specs.inner.ComponentLists.{list_text, reduced_text};
ghost use Rattle.ninja_text.specs.inner.Joins.{IsListOf};

use crate::failure::Failure;
use crate::fault::PathFault;
use crate::reduction::{self, PATH_LIMIT, is_plain, is_unwritable};
use crate::shared_text::SharedText;
use std::alloc::{AllocError, Global};
use std::fmt;
use std::marker::Model;
use std::rc::RcSlice;

/// A canonical path. To make a path canonical, remove empty components and `.`, and remove each
/// name that is followed by `..` together with that `..`, until nothing is left to remove. An
/// absolute path keeps its first slash, and a relative path keeps the `..` at its beginning. No
/// file system is accessed.
///
/// The view of a path is its string: 1 to 4,096 bytes, without `|`, NUL, CR or LF. Copies of a path
/// share the string, and so do paths that were read [`Path::within`] one.
#[derive(PartialEq, Eq, PartialOrd, Ord, Hash)]
pub struct Path(SharedText);

// Not derived: this saves the prover time (docs/DECISIONS.md, "Code").
impl Drop for Path {
    fn drop(self) {
        let Path(_) = self;
    }
}

impl Model for Path {
    ghost use Rattle.ninja_text.specs.Bytes.{PathText};
    ghost use Rattle.ninja_text.specs.Paths.{IsPath};

    ghost Value = { PathText };

    ghost view = { λ p. p.0 };

    ghost inverse = { λ text. record { 0 = text } };

    ghost invariant = { λ p. IsPath p.0 };
}

impl Path {
    /// Returns the canonical path of a string, or the first [`PathFault`] that applies, in their
    /// order, or [`Failure::Memory`] if an allocation fails.
    pub fn of(alloc: Global, text: &[u8]) -> Result<Path, Failure<PathFault>>
        ensures meaning { Gives (λ path. path) result (path_of text.now) }
        ensures text { IsUtf8 text.now → IfOk result IsUtf8 }
    {
        canonical(alloc, None, text)
    }

    /// Returns the canonical path of a part of a string, from one offset to another, as
    /// [`Path::of`] does, with the same errors. If that part is canonical, the path shares the
    /// string and nothing is allocated, unless the string's reference count is full.
    pub fn within(
        alloc: Global,
        shared: &RcSlice<u8>,
        start: usize,
        end: usize,
    ) -> Result<Path, Failure<PathFault>>
        requires { (start ≤ end) × (end ≤ length (rc_slice_items shared.now)) }
        ensures meaning { Gives (λ path. path) result
            (path_of (slice_range (rc_slice_items shared.now) start end)) }
        ensures text { IsUtf8 (slice_range (rc_slice_items shared.now) start end)
            → IfOk result IsUtf8 }
    {
        let text = &shared.as_slice()[start..end];
        if is_plain(text) {
            if let Ok(part) = SharedText::part(shared, start, end) {
                return Ok(Path(part));
            }
        }
        canonical(alloc, None, text)
    }

    /// Returns the canonical string of the path. It can be escaped in a Ninja file.
    pub fn bytes(&self) -> &[u8]
        ensures text { result.now ≡ self.now }
        ensures canonical { path_of result.now ≡ Ok self.now }
        ensures writable { IsWritable result.now }
    {
        self.0.bytes()
    }

    /// Returns whether the path is absolute.
    pub fn is_rooted(&self) -> bool
        ensures { result ≡ is_rooted self.now }
    {
        reduction::is_rooted(self.bytes())
    }

    /// Returns a copy of the path, or an error if an allocation fails. The copies share one string;
    /// if its reference count is full, the copy gets a string of its own.
    pub fn copy(&self, alloc: Global) -> Result<Path, AllocError>
        ensures { IfOk result (λ copy. copy ≡ self.now) }
    {
        Ok(Path(self.0.copy(alloc)?))
    }
}

/// The clone shares the string and allocates nothing. It fails only if the reference count is full;
/// [`Path::copy`] does not.
impl Clone for Path {
    ghost is_clone = { λ path clone. clone ≡ path };

    fn clone(&self) -> Result<Path, AllocError> {
        Ok(Path(self.0.clone()?))
    }
}

/// Returns the canonical path of a string that is relative to a work directory, as seen from a
/// build directory. The build directory has to be absolute.
///
/// A relative string is read after the work directory and a slash, unless there is no work
/// directory or it is empty. An absolute string is read as it is. If the result is absolute and
/// lies below the build directory, it is made relative to the build directory.
///
/// Returns N1 if the string is empty, and otherwise the first [`PathFault`] that applies. The
/// offset in N3 counts from the beginning of the string that is read, work directory included; N4
/// counts the bytes of the final result. Returns [`Failure::Memory`] if an allocation fails.
#[tactic(auto, unfolding(crate::specs::Paths::placed))]
pub fn place(
    alloc: Global,
    work: Option<&[u8]>,
    build: Option<&Path>,
    path: &[u8],
) -> Result<Path, Failure<PathFault>>
    requires { ForSome (option_copied build) (λ b. is_rooted b ≡ true) }
    ensures meaning { Gives (λ path. path) result
        (placed (option_copied work.entry) (option_copied build.entry) path.now) }
    ensures text { ForSome (option_copied work.entry) IsUtf8 → IsUtf8 path.now
        → IfOk result IsUtf8 }
{
    if path.is_empty() {
        return Err(Failure::Fault(PathFault::Empty));
    }
    match work {
        Some(work) if !work.is_empty() && !reduction::is_rooted(path) => {
            let mut text = Vec::from_slice(alloc, work)?;
            reduction::append(&mut text, path)?;
            canonical(alloc, build, &text)
        }
        _ => canonical(alloc, build, path),
    }
}

/// Returns the canonical path of a string, as seen from a build directory.
pub(crate) fn canonical(
    alloc: Global,
    build: Option<&Path>,
    text: &[u8],
) -> Result<Path, Failure<PathFault>>
    requires { ForSome (option_copied build) (λ b. is_rooted b ≡ true) }
    ensures meaning { Gives (λ path. path) result
        (canonical_of (option_copied build.entry) text.now) }
    ensures text { IsUtf8 text.now → IfOk result IsUtf8 }
{
    let rooted = reduction::is_rooted(text);
    if (build.is_none() || !rooted) && is_plain(text) {
        return Ok(Path(SharedText::of(alloc, text)?));
    }
    let list = reduction::reduce(alloc, text)?;
    let unwritable = reduction::first_unwritable(text);
    finished(alloc, build, rooted, unwritable, list)
}

/// Returns the path of a string that is absolute or not, has its first unwritable byte at this
/// offset, and has this canonical list.
pub(crate) fn finished(
    alloc: Global,
    build: Option<&Path>,
    rooted: bool,
    unwritable: Option<usize>,
    list: Vec<u8>,
) -> Result<Path, Failure<PathFault>>
    requires build { ForSome (option_copied build) (λ b. is_rooted b ≡ true) }
    requires some { (text : Text) × IsListOf text rooted unwritable list.items }
    ensures { (text : Text) → IsListOf text rooted unwritable list.items
        → Gives (λ path. path) result (canonical_of (option_copied build.entry) text) }
{
    if list.is_empty() {
        return Err(Failure::Fault(PathFault::Empty));
    }
    if reduction::is_above_root(rooted, &list) {
        return Err(Failure::Fault(PathFault::AboveRoot));
    }
    if let Some(place) = unwritable {
        return Err(Failure::Fault(PathFault::Unwritable { place }));
    }
    let mut text = seen(alloc, build, rooted, list)?;
    if text.len() > PATH_LIMIT {
        return Err(Failure::Fault(PathFault::TooLong));
    }
    text.shrink_to_fit();
    Ok(Path(SharedText::whole(RcSlice::from_vec(text)?)))
}

/// Returns the string of a path with these components, as seen from a build directory.
fn seen(
    alloc: Global,
    build: Option<&Path>,
    rooted: bool,
    mut list: Vec<u8>,
) -> Result<Vec<u8>, AllocError>
    requires { ForSome (option_copied build) (λ b. is_rooted b ≡ true) }
    ensures { IfOk result (λ seen. (text : Text) → list.items ≡ reduced_text text
        → seen.items ≡ seen_from (option_copied build.entry) rooted (parts text)) }
{
    if !rooted {
        return Ok(list);
    }
    if let Some(build) = build {
        if let Some(rest) = below(build, &list) {
            return Vec::from_slice(alloc, rest);
        }
    }
    list.reserve_exact(1)?;
    list.insert(0, b'/')?;
    Ok(list)
}

/// Returns the components below a build directory, if an absolute path lies below it.
fn below<'t>(build: &Path, list: &'t [u8]) -> Option<&'t [u8]>
    requires { is_rooted build.now ≡ true }
    ensures { (text : Text) → list.now ≡ reduced_text text
        → option_map list_text (below (parts build.now) (parts text))
        ≡ option_map (λ rest. rest.now) result }
{
    let directory = build.bytes().strip_prefix(b"/")?;
    list.strip_prefix(directory)?.strip_prefix(b"/")
}

/// A path is printed as a struct with its string.
impl fmt::Debug for Path {
    fn fmt<W: fmt::Write>(&self, f: &mut fmt::Formatter<W>) -> fmt::Result {
        f.debug_struct("Path").field("text", &self.bytes()).finish()
    }
}

fn is_escaped(byte: &u8) -> bool
    ensures { result ≡ is_escaped byte.now }
{
    matches!(*byte, b'$' | b' ' | b':')
}

/// Returns whether a path can be escaped in a Ninja file.
pub fn is_writable(path: &[u8]) -> bool
    ensures value { result ≡ is_writable path.now }
    ensures meaning { IsTrue result ↔ IsWritable path.now }
{
    !path.is_empty() && !path.iter().any(is_unwritable)
}

/// Appends the escaped form of a path to a vector. If an allocation fails, returns an error, and
/// the vector is unchanged.
pub fn escape_into(path: &[u8], out: &mut Vec<u8>) -> Result<(), AllocError>
    requires { IsWritable path.now }
    ensures ok { OnOk result (out.new.items ≡ out.old.items ++ escaped path.now) }
    ensures err { OnErr result (out.new.items ≡ out.old.items) }
    // The escaped form stands for the path, and for nothing else.
    ensures meaning { (value : PathText) → Spells (escaped path.now) value ↔ (value ≡ path.now) }
{
    // Hardly any path has such a byte.
    if !path.iter().any(is_escaped) {
        return out.extend_from_slice(path);
    }
    let start = out.len();
    for byte in path {
        let appended = if is_escaped(byte) {
            out.extend_from_slice(&[b'$', *byte])
        } else {
            out.extend_from_slice(&[*byte])
        };
        if let Err(e) = appended {
            out.truncate(start);
            return Err(e);
        }
    }
    Ok(())
}
