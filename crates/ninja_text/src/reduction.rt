//! The canonical list of a path's components. It is kept as a string: the components joined by
//! slashes, without the first slash of an absolute path. It is never longer than the path that is
//! read. Nearly every string is a canonical path already, and needs no list.
ghost use Rattle.std.specs.Prelude.{◌&&◌, ◌*◌, ◌++◌, ◌+◌, ◌==◌, ◌||◌, ◌∷◌, ◌≡◌, ◌≤◌};
ghost use Rattle.ninja_text.specs.Prelude.{[], Component, IfOk, IsPath, List, MatchOption, OnOk};
ghost use Rattle.ninja_text.specs.Prelude.{components, drop, false, is_current, is_parent};
ghost use Rattle.ninja_text.specs.Prelude.{is_rooted, is_unwritable, length, list_any, not};
ghost use Rattle.ninja_text.specs.Prelude.{position, prefix_len, reduced, slash, take, true};
ghost use Rattle.ninja_text.specs.inner.ComponentLists.{EachLacksSlash, reduced_text, slashes_from};
ghost use Rattle.ninja_text.specs.inner.ComponentLists.{LacksSlash, list_text, appended, leads_up};
ghost use Rattle.ninja_text.specs.inner.PlainPaths.{AreNames, IsReducedList};

use std::alloc::{AllocError, Global};

/// The maximum length of a canonical path in bytes.
pub const PATH_LIMIT: usize = 4096;

/// Returns the canonical list of a path's components.
pub(crate) fn reduce(alloc: Global, text: &[u8]) -> Result<Vec<u8>, AllocError>
    ensures { IfOk result (λ list. list.items ≡ reduced_text text.now) }
{
    // Nearly every path has only names, and then no component is removed.
    if has_only_names(text) {
        return Vec::from_slice(alloc, text);
    }
    let mut list = Vec::with_capacity(alloc, text.len())?;
    for component in text.split(is_slash) {
        put(&mut list, component)?;
    }
    Ok(list)
}

/// Returns whether a path that is absolute or not leads above the root. Its canonical list has a
/// `..` only if it begins with one.
pub(crate) fn is_above_root(rooted: bool, list: &[u8]) -> bool
    ensures { result ≡ (rooted && leads_up list.now) }
{
    rooted && matches!(list, [b'.', b'.'] | [b'.', b'.', b'/', ..])
}

/// Returns how many `..` a canonical list begins with.
pub(crate) fn parents(list: &[u8]) -> usize
    ensures { result ≡ prefix_len is_parent (components list.now) }
{
    list.split(is_slash).take_while(|c| is_parent(c)).count()
}

/// Returns a canonical list without this many `..` at its beginning.
pub(crate) fn without_parents(list: &[u8], count: usize) -> &[u8]
    ensures { result.now ≡ drop (3 * count) list.now }
{
    list.get(count.saturating_mul(3)..).unwrap_or(&[])
}

pub(crate) fn slashes(alloc: Global, list: &[u8]) -> Result<Vec<usize>, AllocError>
    ensures { IfOk result (λ slashes. slashes.items ≡ slashes_from 0 list.now) }
{
    let mut slashes = Vec::new(alloc);
    for (index, byte) in list.iter().enumerate() {
        if is_slash(byte) {
            slashes.push(index)?;
        }
    }
    Ok(slashes)
}

pub(crate) fn has_only_names(text: &[u8]) -> bool
    ensures { result ≡ not (list_any (λ c. is_current c || is_parent c) (components text.now)) }
{
    !text.split(is_slash).any(|c| is_current(c) || is_parent(c))
}

/// Returns the length of a path's first component, and what follows the slash after it.
pub(crate) fn first_component(text: &[u8]) -> (usize, Option<&[u8]>)
    ensures bound { result.0 ≤ length text.now }
    ensures lacks { LacksSlash (take result.0 text.now) }
    ensures rest { MatchOption result.1 (result.0 ≡ length text.now)
        (λ rest. text.now ≡ take result.0 text.now ++ slash ∷ rest.now) }
{
    match text.iter().position(is_slash) {
        Some(len) => (len, Some(&text[len + 1..])),
        None => (text.len(), None),
    }
}

pub(crate) fn first_unwritable(text: &[u8]) -> Option<usize>
    ensures { result ≡ position is_unwritable text.now }
{
    text.iter().position(is_unwritable)
}

pub(crate) fn is_unwritable(byte: &u8) -> bool
    ensures { result ≡ is_unwritable byte.now }
{
    matches!(*byte, b'|' | 0 | b'\r' | b'\n')
}

pub(crate) fn is_rooted(text: &[u8]) -> bool
    ensures { result ≡ is_rooted text.now }
{
    matches!(text, [b'/', ..])
}

/// Adds a component to a canonical list and makes the list canonical again.
fn put(list: &mut Vec<u8>, component: &[u8]) -> Result<(), AllocError>
    ensures { OnOk result ((before : List Component) → EachLacksSlash before
        → list.old.items ≡ list_text (reduced before)
        → list.new.items ≡ list_text (reduced (before ++ component.now ∷ []))) }
{
    if is_current(component) {
        return Ok(());
    }
    if is_parent(component) {
        if let Some(len) = len_without_name(list) {
            list.truncate(len);
            return Ok(());
        }
    }
    append(list, component)
}

/// Appends a component to a list, after a slash if the list is not empty.
pub(crate) fn append(list: &mut Vec<u8>, component: &[u8]) -> Result<(), AllocError>
    ensures { OnOk result (list.new.items ≡ appended list.old.items component.now) }
{
    if !list.is_empty() {
        list.push(b'/')?;
    }
    list.extend_from_slice(component)
}

/// Returns the length of a list without its last component, if that component is a name.
fn len_without_name(list: &[u8]) -> Option<usize>
    ensures empty { list.now ≡ [] → result ≡ None }
    ensures last { (init : List Component) (last : Component)
        → LacksSlash last → is_current last ≡ false → list.now ≡ list_text (init ++ last ∷ [])
        → MatchOption result (is_parent last ≡ true)
        (λ n. (is_parent last ≡ false) × (take n list.now ≡ list_text init)) }
{
    let start = list.iter().rposition(is_slash).map_or(0, |index| index + 1);
    if start == list.len() || is_parent(&list[start..]) {
        None
    } else {
        Some(start.saturating_sub(1))
    }
}

fn is_slash(byte: &u8) -> bool
    ensures { result ≡ (byte.now == slash) }
{
    *byte == b'/'
}

fn is_current(component: &[u8]) -> bool
    ensures { result ≡ is_current component.now }
{
    component.is_empty() || component == b".".as_slice()
}

fn is_parent(component: &[u8]) -> bool
    ensures { result ≡ is_parent component.now }
{
    component == b"..".as_slice()
}

/// What is known of a component by its bytes so far.
#[derive(Clone, Copy)]
pub(crate) enum Begun {
    Nothing,
    Dot,
    TwoDots,
    /// It is a name, whatever follows.
    Name,
}

/// Returns whether a string is a canonical path, after a look at each byte. It may miss a path with
/// nothing but `..`.
pub(crate) fn is_plain(text: &[u8]) -> bool
    ensures { result ≡ true → IsPath text.now }
{
    if text.len() > PATH_LIMIT {
        return false;
    }
    match text.strip_prefix(b"/") {
        Some(list) => are_names(list),
        None => are_names(past_parents(text)),
    }
}

/// Returns a list without the `..` that it begins with.
fn past_parents(list: &[u8]) -> &[u8]
    ensures { IsReducedList result.now → IsReducedList list.now }
{
    let mut rest = list;
    while let Some(more) = rest.strip_prefix(b"../") {
        rest = more;
    }
    rest
}

/// Returns whether all components of a list are names that can be escaped in a Ninja file.
fn are_names(list: &[u8]) -> bool
    ensures { result ≡ true → AreNames list.now }
{
    let mut begun = Begun::Nothing;
    for byte in list {
        begun = match *byte {
            // With most bytes the component is a name, whatever else is in it.
            b'0'..=b'{' => Begun::Name,
            byte => match (begun, byte) {
                (Begun::Name, b'/') => Begun::Nothing,
                (_, b'/' | b'|' | 0 | b'\r' | b'\n') => return false,
                (Begun::Nothing, b'.') => Begun::Dot,
                (Begun::Dot, b'.') => Begun::TwoDots,
                _ => Begun::Name,
            },
        };
    }
    matches!(begun, Begun::Name)
}
