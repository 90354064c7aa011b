//! Directories in which paths are read, and the end of file names, each reduced once for all paths.
ghost use Rattle.std.specs.Prelude.{◌++◌, ◌+◌, ◌-◌, ◌<◌, ◌^◌, ◌∷◌, ◌≡◌, ◌≤◌, ℕ, IfOk, IsUtf8};
ghost use Rattle.std.specs.Prelude.{List};
ghost use Rattle.ninja_text.specs.Prelude.{Component, ForSome, Gives, IsPath, MatchOption};
ghost use Rattle.ninja_text.specs.Prelude.{MatchResult, None, Some, Text, begins_component};
ghost use Rattle.ninja_text.specs.Prelude.{PathText, canonical_of, components, is_rooted, length};
ghost use Rattle.ninja_text.specs.Prelude.{option_copied, parts, placed, reduced, take, true};
ghost use Rattle.ninja_text.specs.inner.ComponentLists.{list_text};
ghost use Rattle.ninja_text.specs.inner.Joins.{IsReadIn, list_limit, glued, long_fault, moved};
ghost use Rattle.ninja_text.specs.inner.Joins.{IsDirectory, IsEnding, first_in};

use crate::failure::Failure;
use crate::fault::PathFault;
use crate::paths::{Path, canonical, finished};
use crate::reduction::{self, PATH_LIMIT};
use std::alloc::{AllocError, Global};
use std::marker::Model;

/// A directory in which relative paths are read. Its string is reduced once. A path that is read in
/// it costs its own bytes and at most 8,192 more, however long the directory is. The view is the
/// directory's string.
#[derive(Drop)]
pub struct WorkDirectory<'t> {
    text: &'t [u8],
    list: Vec<u8>,
    slashes: Vec<usize>,
    names: usize,
    unwritable: Option<usize>,
}

impl<'t> Model for WorkDirectory<'t> {
    ghost Value = { PathText };

    ghost view = { λ d. d.text.now };

    ghost invariant = { λ d.
        IsDirectory d.text.now d.list.items d.slashes.items d.names d.unwritable };
}

/// The end of file names, as `.bmi`. Its string, which is its view, is reduced once for all names
/// that it is put after.
#[derive(Drop)]
pub struct NameEnding<'t> {
    text: &'t [u8],
    first: usize,
    list: Vec<u8>,
    parents: usize,
    unwritable: Option<usize>,
}

impl<'t> Model for NameEnding<'t> {
    ghost Value = { Text };

    ghost view = { λ e. e.text.now };

    ghost invariant = { λ e. IsEnding e.text.now e.first e.list.items e.parents e.unwritable };
}

impl<'t> NameEnding<'t> {
    /// Reduces the end of file names, or returns an error if an allocation fails. It may have
    /// slashes.
    pub fn of(alloc: Global, text: &'t [u8]) -> Result<NameEnding<'t>, AllocError>
        ensures { IfOk result (λ ending. ending ≡ text.now) }
    {
        let (first, rest) = reduction::first_component(text);
        let list = match rest {
            Some(rest) => reduction::reduce(alloc, rest)?,
            None => Vec::new(alloc),
        };
        let parents = reduction::parents(&list);
        Ok(NameEnding {
            text,
            first,
            list,
            parents,
            unwritable: reduction::first_unwritable(text),
        })
    }

    /// Returns the list of a name with this ending, unless the list has more bytes than the limit.
    fn after(&self, alloc: Global, limit: usize, name: &[u8]) -> Result<Option<Vec<u8>>, AllocError>
        requires { limit ≤ 8192 }
        ensures { IfOk result (λ list. (first : Component) (others : List Component)
            → components self.now ≡ first ∷ others
            → MatchOption list
            (limit < length (glued (name.now ++ first) (list_text (reduced others))))
            (λ list. list.items ≡ glued (name.now ++ first) (list_text (reduced others)))) }
    {
        let first = &self.text[..self.first];
        let named = name.len().saturating_add(first.len());
        if named.saturating_add(self.list.len()) > limit {
            return Ok(None);
        }
        let mut list = Vec::with_capacity(alloc, named + self.list.len() + 1)?;
        list.extend_from_slice(name)?;
        list.extend_from_slice(first)?;
        if !self.list.is_empty() {
            reduction::append(&mut list, &self.list)?;
        }
        Ok(Some(list))
    }
}

impl<'t> WorkDirectory<'t> {
    /// Reduces the string of a directory, or returns an error if an allocation fails. An empty
    /// string is no directory: paths are read as they are.
    pub fn of(alloc: Global, text: &'t [u8]) -> Result<WorkDirectory<'t>, AllocError>
        ensures { IfOk result (λ directory. directory ≡ text.now) }
    {
        let list = reduction::reduce(alloc, text)?;
        let slashes = reduction::slashes(alloc, &list)?;
        let components = slashes.len() + usize::from(!list.is_empty());
        let names = components.saturating_sub(reduction::parents(&list));
        Ok(WorkDirectory {
            text,
            list,
            slashes,
            names,
            unwritable: reduction::first_unwritable(text),
        })
    }

    /// Returns the path or the error that [`place`](crate::place) returns for this work directory.
    #[tactic(auto, unfolding(crate::specs::Paths::placed))]
    pub fn place(
        &self,
        alloc: Global,
        build: Option<&Path>,
        path: &[u8],
    ) -> Result<Path, Failure<PathFault>>
        requires { ForSome (option_copied build) (λ b. is_rooted b ≡ true) }
        ensures meaning { Gives (λ path. path) result
            (placed (Some self.now) (option_copied build.entry) path.now) }
        ensures text { IsUtf8 self.now → IsUtf8 path.now → IfOk result IsUtf8 }
    {
        if path.is_empty() {
            return Err(Failure::Fault(PathFault::Empty));
        }
        if self.text.is_empty() || reduction::is_rooted(path) {
            return canonical(alloc, build, path);
        }
        let unwritable = self.unwritable_in(0, reduction::first_unwritable(path))?;
        if reduction::has_only_names(path) {
            return self.joined(alloc, build, path, 0, unwritable);
        }
        let own = reduction::reduce(alloc, path)?;
        let parents = reduction::parents(&own);
        self.joined(alloc, build, &own, parents, unwritable)
    }

    /// Returns the path or the error that [`place`](crate::place) returns for this work directory
    /// and for the name with the ending after it.
    pub fn place_named(
        &self,
        alloc: Global,
        build: Option<&Path>,
        name: &[u8],
        ending: &NameEnding,
    ) -> Result<Path, Failure<PathFault>>
        requires build { ForSome (option_copied build) (λ b. is_rooted b ≡ true) }
        requires name { begins_component name.now ≡ true }
        ensures meaning { Gives (λ path. path) result
            (placed (Some self.now) (option_copied build.entry) (name.now ++ ending.now)) }
        ensures text { IsUtf8 self.now → IsUtf8 name.now → IsUtf8 ending.now
            → IfOk result IsUtf8 }
    {
        let unwritable = self.unwritable_in(name.len(), ending.unwritable)?;
        if ending.parents > 0 {
            let own = reduction::without_parents(&ending.list, 1);
            return self.joined(alloc, build, own, ending.parents - 1, unwritable);
        }
        if let Some(own) = ending.after(alloc, list_limit(build), name)? {
            return self.joined(alloc, build, &own, 0, unwritable);
        }
        let rooted = reduction::is_rooted(self.text);
        let above = reduction::is_above_root(rooted, &self.list);
        Err(Failure::Fault(long_fault(above, unwritable)))
    }

    /// Returns the path of a canonical list that is read in the directory.
    fn joined(
        &self,
        alloc: Global,
        build: Option<&Path>,
        own: &[u8],
        parents: usize,
        unwritable: Option<usize>,
    ) -> Result<Path, Failure<PathFault>>
        requires build { ForSome (option_copied build) (λ b. is_rooted b ≡ true) }
        requires some { (text : Text) × IsReadIn self.now text own.now parents unwritable }
        ensures { (text : Text) → IsReadIn self.now text own.now parents unwritable
            → Gives (λ path. path) result (canonical_of (option_copied build.entry) text) }
    {
        let dropped = parents.min(self.names);
        let front = self.without_last(dropped);
        let rest = reduction::without_parents(own, dropped);
        let rooted = reduction::is_rooted(self.text);
        if front.len().saturating_add(rest.len()) > list_limit(build) {
            let first = if front.is_empty() { rest } else { front };
            let above = reduction::is_above_root(rooted, first);
            return Err(Failure::Fault(long_fault(above, unwritable)));
        }
        // There is room for the slash of an absolute path, and no more.
        let between = usize::from(!front.is_empty() && !rest.is_empty());
        let room = front.len() + between + rest.len() + usize::from(rooted);
        let mut list = Vec::with_capacity(alloc, room)?;
        list.extend_from_slice(front)?;
        if !rest.is_empty() {
            reduction::append(&mut list, rest)?;
        }
        finished(alloc, build, rooted, unwritable, list)
    }

    /// Returns the directory's list without this many components at its end.
    fn without_last(&self, count: usize) -> &[u8]
        requires { count ≤ length (parts self.now) }
        ensures { result.now ≡ list_text (take (length (parts self.now) - count) (parts self.now)) }
    {
        if count == 0 {
            return &self.list;
        }
        match self.slashes.len().checked_sub(count) {
            Some(index) => &self.list[..self.slashes[index]],
            None => &[],
        }
    }

    /// Returns the offset of the first byte that cannot be escaped, in the directory or in what is
    /// read in it: there it is `later` bytes after as many bytes as `before` says. Runs out of
    /// memory only if no string is so long.
    fn unwritable_in(
        &self,
        before: usize,
        later: Option<usize>,
    ) -> Result<Option<usize>, Failure<PathFault>>
        ensures { MatchResult result
            (λ first. first ≡ first_in self.now (moved None before later))
            (λ e. (e ≡ Failure.Memory) × ((index : ℕ) × (later ≡ Some index)
            × (2 ^ 64 ≤ before + index + length self.now + 1))) }
    {
        let (None, Some(later)) = (self.unwritable, later) else {
            return Ok(self.unwritable);
        };
        let len = self.text.len();
        let between = if len == 0 { 0 } else { len + 1 };
        let later = before.checked_add(later).ok_or(Failure::Memory)?;
        Ok(Some(later.checked_add(between).ok_or(Failure::Memory)?))
    }
}

fn long_fault(above: bool, unwritable: Option<usize>) -> PathFault
    ensures { result ≡ long_fault above unwritable }
{
    match unwritable {
        _ if above => PathFault::AboveRoot,
        Some(place) => PathFault::Unwritable { place },
        None => PathFault::TooLong,
    }
}

/// Returns the most bytes of a canonical list that can be a path: those of a path below the build
/// directory.
fn list_limit(build: Option<&Path>) -> usize
    ensures value { result ≡ list_limit (option_copied build.entry) }
    ensures bound { result ≤ 8192 }
    ensures path { ForSome (option_copied build.entry) IsPath }
{
    match build {
        Some(build) => PATH_LIMIT + build.bytes().len(),
        None => PATH_LIMIT,
    }
}
