//! Helpers for styles of module maps: which paths a map can have, and how its lines are read.

ghost use Rattle.std.specs.Prelude.{◌≡◌, ◌<◌, ◌≤◌, ◌==◌, ◌++◌, ◌∷◌, [], length, map, flat_map};
ghost use Rattle.module_maps.specs.Prelude.{position, Some, None, option_copied, IfOk, OnOk, OnErr};
ghost use Rattle.module_maps.specs.Prelude.{IfSome, MatchOption, Gives, pairs_of, lent_pairs};
ghost use Rattle.module_maps.specs.Prelude.{LineForm, AppendsFirst, is_map_byte, first_unfit};
ghost use Rattle.module_maps.specs.Prelude.{is_fit, named, nameless, ended_line, lines_of, cut};
ghost use Rattle.module_maps.specs.Prelude.{path_in, pair_in, read_lines, IsWrittenText};
ghost use Rattle.module_maps.specs.Prelude.{marked_entries, marked_form, marked_kept};
ghost use Rattle.module_maps.specs.Prelude.{marked_written};

use crate::fault::MapFault;
use crate::module_map::{MapEntry, ModuleMap};
use document_values::Name;
use ninja_text::{Failure, Path};
use std::alloc::{AllocError, Global};
use std::str;

/// The entry of a line, `None` if it does not have the form, or an error if an allocation fails.
pub type LineEntry = Result<Option<MapEntry>, AllocError>;

/// The form of a style's lines.
pub trait LineForm {
    /// How a line without its end is read, given the entries of the lines before it.
    ghost form: { Self → LineForm };

    /// Returns the entry of a line.
    fn entry(&self, alloc: Global, entries: &[MapEntry], line: &[u8]) -> LineEntry
        ensures { IfOk result (λ entry. entry ≡ form self.now entries.now line.now) };
}

/// Returns the earlier entries and the entries of the lines of a text. The first line has this
/// number, which is at most 3.
///
/// # Errors
///
/// Returns K4 with the first line that does not have the form or has no end, or [`Failure::Memory`]
/// if an allocation fails.
pub fn read_lines<F: LineForm>(
    alloc: Global,
    form: &F,
    earlier: Vec<MapEntry>,
    number: u64,
    text: &[u8],
) -> Result<Vec<MapEntry>, Failure<MapFault>>
    requires { number ≤ 3 }
    ensures { Gives (λ found. found.items) result
        (read_lines (F.form form.now) earlier.items number (lines_of text.now)) }
{
    let mut entries = earlier;
    let mut line = number;
    let mut rest = text;
    while let Some((first, more)) = cut_line(rest) {
        match form.entry(alloc, &entries, first)? {
            Some(entry) => entries.push(entry)?,
            None => return Err(Failure::Fault(MapFault::BadMapLine { line })),
        }
        rest = more;
        line += 1;
    }
    if rest.is_empty() {
        Ok(entries)
    } else {
        Err(Failure::Fault(MapFault::BadMapLine { line }))
    }
}

/// Returns the first line of a text, without its end, and the rest of the text.
pub(crate) fn cut_line(text: &[u8]) -> Option<(&[u8], &[u8])>
    ensures lines { MatchOption result (lines_of text.now ≡ text.now ∷ [])
        (λ c. lines_of text.now ≡ c.0.now ∷ lines_of c.1.now) }
    ensures less { IfSome result (λ c. length c.1.now < length text.now) }
{
    cut(text, b'\n')
}

/// Splits a text at the first byte that is the mark.
fn cut(text: &[u8], mark: u8) -> Option<(&[u8], &[u8])>
    ensures cut { MatchOption result (cut mark text.now ≡ None)
        (λ c. cut mark text.now ≡ Some (c.0.now, c.1.now)) }
    ensures less { IfSome result (λ c. length c.1.now < length text.now) }
{
    let index = index_of(text, mark)?;
    Some((&text[..index], &text[index + 1..]))
}

fn index_of(text: &[u8], mark: u8) -> Option<usize>
    ensures index { result ≡ position (λ b. b == mark) text.now }
    ensures within { IfSome result (λ i. i < length text.now) }
{
    text.iter().position(|b| *b == mark)
}

/// Returns the module in a text: a name, the first byte that is the mark, and a path. Returns
/// `None` if the text does not have this form, or an error if an allocation fails.
pub fn pair_in(alloc: Global, mark: u8, text: &[u8]) -> Result<Option<(Name, Path)>, AllocError>
    ensures { IfOk result (λ pair. pair ≡ pair_in mark text.now) }
{
    if let Some((name, path)) = cut(text, mark)
        && let Ok(name) = str::from_utf8(name)
        && let Some(name) = Name::of(alloc, name)?
        && let Some(path) = path_in(alloc, path)?
    {
        return Ok(Some((name, path)));
    }
    Ok(None)
}

/// Returns the path in a text, `None` if the text is not canonical or has a byte that needs quotes,
/// or an error if an allocation fails.
#[tactic(auto, unfolding(crate::specs::MapLines::path_in))]
pub fn path_in(alloc: Global, text: &[u8]) -> Result<Option<Path>, AllocError>
    ensures { IfOk result (λ path. path ≡ path_in text.now) }
{
    if !is_fit(text) {
        return Ok(None);
    }
    match Path::of(alloc, text) {
        Ok(path) if path.bytes() == text => Ok(Some(path)),
        Err(Failure::Memory) => Err(AllocError),
        _ => Ok(None),
    }
}

/// Returns whether a map can have this path. No byte ends the loop, so the compiler can make it
/// test 16 bytes at a time.
fn is_fit(path: &[u8]) -> bool
    ensures { result ≡ is_fit path.now }
{
    let mut fits = true;
    for b in path {
        fits = fits & is_map_byte(*b);
    }
    fits
}

fn is_map_byte(b: u8) -> bool
    ensures { result ≡ is_map_byte b }
{
    b >= 33 && b != 127 && b != b'\'' && b != b'"' && b != b'\\'
}

/// Returns the first path with a byte that needs quotes.
pub fn first_unfit<'m>(map: &ModuleMap<'m>) -> Option<&'m Path>
    ensures { option_copied result ≡ first_unfit (pairs_of map.now) }
{
    match first_unfit_of(map.provided()) {
        Some(path) => Some(path),
        None => first_unfit_of(map.needed()),
    }
}

/// Returns the first path of these pairs with such a byte.
fn first_unfit_of<'m>(pairs: &[(&'m Name, &'m Path)]) -> Option<&'m Path>
    ensures { option_copied result ≡ first_unfit (lent_pairs pairs.now) }
{
    for pair in pairs {
        if !is_fit(pair.1.bytes()) {
            return Some(pair.1);
        }
    }
    None
}

/// Appends a line for each module: the prefix, the name, the mark and the path.
pub(crate) fn push_lines(
    text: &mut Vec<u8>,
    prefix: &[u8],
    mark: u8,
    pairs: &[(&Name, &Path)],
) -> Result<(), AllocError>
    ensures { OnOk result (text.new.items ≡ text.old.items ++ flat_map
        (λ pair. ended_line (prefix.now ++ pair.0 ++ mark ∷ pair.1)) (lent_pairs pairs.now)) }
{
    for pair in pairs {
        text.extend_from_slice(prefix)?;
        text.extend_from_slice(pair.0.bytes())?;
        text.push(mark)?;
        text.extend_from_slice(pair.1.bytes())?;
        text.push(b'\n')?;
    }
    Ok(())
}

/// Appends the entries of modules, with their names. Returns an error if an allocation fails: the
/// entries of the first modules are appended then.
pub fn push_named(
    alloc: Global,
    entries: &mut Vec<MapEntry>,
    pairs: &[(&Name, &Path)],
) -> Result<(), AllocError>
    ensures all { OnOk result
        (entries.new.items ≡ entries.old.items ++ map named (lent_pairs pairs.now)) }
    ensures first { OnErr result (AppendsFirst
        entries.old.items (map named (lent_pairs pairs.now)) entries.new.items) }
{
    for pair in pairs {
        let name = Some(pair.0.copy(alloc)?);
        let path = pair.1.copy(alloc)?;
        entries.push(MapEntry { name, path })?;
    }
    Ok(())
}

/// Appends the entries of modules, without their names. Returns an error if an allocation fails:
/// the entries of the first modules are appended then.
pub fn push_nameless(
    alloc: Global,
    entries: &mut Vec<MapEntry>,
    pairs: &[(&Name, &Path)],
) -> Result<(), AllocError>
    ensures all { OnOk result
        (entries.new.items ≡ entries.old.items ++ map nameless (lent_pairs pairs.now)) }
    ensures first { OnErr result (AppendsFirst
        entries.old.items (map nameless (lent_pairs pairs.now)) entries.new.items) }
{
    for pair in pairs {
        let path = pair.1.copy(alloc)?;
        entries.push(MapEntry { name: None, path })?;
    }
    Ok(())
}

/// Returns the entries of all modules of a map, with their names, or an error if an allocation
/// fails.
pub(crate) fn keep_marked(alloc: Global, map: &ModuleMap<'_>) -> Result<Vec<MapEntry>, AllocError>
    ensures { IfOk result (λ found. found.items ≡ marked_kept map.now) }
{
    let mut entries = Vec::new(alloc);
    push_named(alloc, &mut entries, map.provided())?;
    push_named(alloc, &mut entries, map.needed())?;
    Ok(entries)
}

/// Returns the text of a map that has a line for each module: its name, the mark and its path.
pub(crate) fn write_marked(
    alloc: Global,
    mark: u8,
    map: &ModuleMap<'_>,
) -> Result<Vec<u8>, Failure<MapFault>>
    ensures { Gives (λ text. text.items) result (marked_written mark map.now) }
{
    if let Some(path) = first_unfit(map) {
        let path = path.copy(alloc)?;
        return Err(Failure::Fault(MapFault::MapPath { path }));
    }
    let mut text = Vec::with_capacity(alloc, map.text_len(b" \n", b" \n"))?;
    push_lines(&mut text, b"", mark, map.provided())?;
    push_lines(&mut text, b"", mark, map.needed())?;
    Ok(text)
}

/// Returns the entries of the text of such a map, or K4 with the first bad line if no map is
/// written as it.
pub(crate) fn read_marked(
    alloc: Global,
    mark: u8,
    text: &[u8],
) -> Result<Vec<MapEntry>, Failure<MapFault>>
    ensures entries { Gives (λ found. found.items) result (marked_entries mark text.now) }
    ensures written { IfOk result (λ found.
        IsWrittenText (marked_written mark) marked_kept text.now found.items) }
{
    read_lines(alloc, &Marked { mark }, Vec::new(alloc), 1, text)
}

/// The form of the lines of such a map.
#[derive(Drop)]
struct Marked {
    mark: u8,
}

impl LineForm for Marked {
    ghost form = { λ lines. marked_form lines.mark };

    fn entry(&self, alloc: Global, _entries: &[MapEntry], line: &[u8]) -> LineEntry {
        Ok(pair_in(alloc, self.mark, line)?.map(|(name, path)| MapEntry {
            name: Some(name),
            path,
        }))
    }
}
