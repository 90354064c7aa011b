//! Reading a document's bytes, and members of an object by the shape that they should have.

ghost use Rattle.std.specs.Prelude.{◌≡◌, ◌≢◌, ◌≤◌, Some, IfOk, IfErr, length, map, is_some};
ghost use Rattle.scan_docs.specs.Prelude.{option_map, option_copied, string_bytes, Memory, view};
ghost use Rattle.scan_docs.specs.Prelude.{document_limit, IsTree, IsNoTree, Answers, Tests, given};
ghost use Rattle.scan_docs.specs.Prelude.{version_checks, shape_check, is_object, text, texts};
ghost use Rattle.scan_docs.specs.Prelude.{texts_of, entries, entries_of, flag, whole_number, fits};
ghost use Rattle.scan_docs.specs.declared.member.Member.TheVariants as m;

use crate::fault::{DocFault, Place, Read, bad_shape};
use crate::member::Member;
use ninja_text::Failure;
use serde_json::Value;
use std::alloc::{AllocError, Global};

/// The maximum length of a document in bytes.
pub const DOCUMENT_LIMIT: usize = 16_777_216;

/// Returns the tree that the bytes are read as.
pub(crate) fn read_tree(alloc: Global, bytes: &[u8]) -> Read<Value>
    ensures read { IfOk result
        (λ tree. (length bytes.now ≤ document_limit) × IsTree bytes.now (view tree)) }
    ensures refused { IfErr result (λ e. e ≢ Memory → IsNoTree bytes.now e) }
{
    if bytes.len() > DOCUMENT_LIMIT {
        let place = Place::Document;
        return Err(Failure::Fault(DocFault::TooLarge { place }));
    }
    match Value::from_slice(alloc, bytes) {
        Ok(tree) => Ok(tree),
        Err(error) if error.is_memory() => Err(Failure::Memory),
        Err(_) => Err(Failure::Fault(DocFault::NotJson)),
    }
}

/// Returns the version of a document, which has to be an object with one of these versions.
#[tactic(auto, unfolding(crate::specs::Check::version_checks))]
pub(crate) fn read_version(tree: &Value, versions: &[u64]) -> Read<u64>
    ensures { Answers (version_checks versions.now (view tree.now))
        (λ version. whole_number m.Version (view tree.now) ≡ Some version) result }
{
    check_object(tree, Member::Document, Place::Document)?;
    match tree.get(Member::Version.key()).and_then(Value::as_u64) {
        Some(version) if versions.contains(&version) => Ok(version),
        _ => Err(Failure::Fault(DocFault::BadVersion)),
    }
}

/// Checks that the value is an object.
pub(crate) fn check_object(value: &Value, what: Member, place: Place) -> Read<()>
    ensures { Tests (shape_check place what (is_object (view value.now))) (λ _. Unit {0}) result }
{
    value.as_object().map(|_| ()).ok_or(bad_shape(place, what))
}

/// Returns the member's value, unless it is absent or null.
pub(crate) fn given(object: &Value, member: Member) -> Option<&Value>
    ensures { option_map (λ v. view v.now) result ≡ given member (view object.now) }
{
    object.get(member.key()).filter(|value| !value.is_null())
}

/// Returns the member's entries, if it is an array.
#[tactic(auto, using(crate::proofs::Each::elements_items_of))]
fn array(object: &Value, member: Member) -> Option<&[Value]>
    ensures { option_map (λ vs. map view vs.now) result ≡ entries member (view object.now) }
{
    let array = given(object, member).and_then(Value::as_array);
    array.map(Vec::as_slice)
}

/// Returns the member's string, or `None` if the member is absent or null.
pub(crate) fn text(object: &Value, member: Member, place: Place) -> Read<Option<&str>>
    ensures { Tests (shape_check place member (fits text member (view object.now)))
        (λ t. option_copied t ≡ text member (view object.now)) result }
{
    match given(object, member) {
        None => Ok(None),
        Some(value) => value.as_str().map(Some).ok_or(bad_shape(place, member)),
    }
}

/// Returns the member's string. The member is required.
pub(crate) fn required_text(object: &Value, member: Member, place: Place) -> Read<&str>
    ensures { Tests (shape_check place member (is_some (text member (view object.now))))
        (λ t. text member (view object.now) ≡ Some t.now) result }
{
    let text = given(object, member).and_then(Value::as_str);
    text.ok_or(bad_shape(place, member))
}

/// Returns a copy of the member's string. The member is required.
pub(crate) fn owned_text(alloc: Global, tree: &Value, member: Member, place: Place) -> Read<String>
    ensures { Tests (shape_check place member (is_some (text member (view tree.now))))
        (λ t. text member (view tree.now) ≡ Some (string_bytes t)) result }
{
    let text = required_text(tree, member, place)?;
    Ok(String::from_str(alloc, text)?)
}

/// Returns the member's truth value, or `None` if the member is absent or null.
pub(crate) fn flag(object: &Value, member: Member, place: Place) -> Read<Option<bool>>
    ensures { Tests (shape_check place member (fits flag member (view object.now)))
        (λ b. b ≡ flag member (view object.now)) result }
{
    match given(object, member) {
        None => Ok(None),
        Some(value) => value.as_bool().map(Some).ok_or(bad_shape(place, member)),
    }
}

/// Returns the member's entries, or none if the member is absent or null.
pub(crate) fn entries(object: &Value, member: Member, place: Place) -> Read<&[Value]>
    ensures { Tests (shape_check place member (fits entries member (view object.now)))
        (λ vs. map view vs.now ≡ entries_of member (view object.now)) result }
{
    match given(object, member) {
        None => Ok(&[]),
        Some(_) => required_entries(object, member, place),
    }
}

/// Returns the member's entries. The member is required.
pub(crate) fn required_entries(object: &Value, member: Member, place: Place) -> Read<&[Value]>
    ensures { Tests (shape_check place member (is_some (entries member (view object.now))))
        (λ vs. entries member (view object.now) ≡ Some (map view vs.now)) result }
{
    array(object, member).ok_or(bad_shape(place, member))
}

/// Returns the member's strings, or none if the member is absent or null.
pub(crate) fn texts(alloc: Global, tree: &Value, member: Member, place: Place) -> Read<Vec<String>>
    ensures { Tests (shape_check place member (fits texts member (view tree.now)))
        (λ v. map string_bytes v.items ≡ texts_of member (view tree.now)) result }
{
    match given(tree, member) {
        None => Ok(Vec::new(alloc)),
        Some(_) => required_texts(alloc, tree, member, place),
    }
}

/// Returns the member's strings. The member is required.
pub(crate) fn required_texts(
    alloc: Global,
    tree: &Value,
    member: Member,
    place: Place,
) -> Read<Vec<String>>
    ensures { Tests (shape_check place member (is_some (texts member (view tree.now))))
        (λ v. texts member (view tree.now) ≡ Some (map string_bytes v.items)) result }
{
    let values = required_entries(tree, member, place)?;
    let mut found = Vec::with_capacity(alloc, values.len())?;
    for value in values {
        let Some(text) = value.as_str() else {
            return Err(bad_shape(place, member));
        };
        let copy = String::from_str(alloc, text)?;
        found.push(copy)?;
    }
    Ok(found)
}

/// Appends the member's string, if it has one.
pub(crate) fn push_text(to: &mut Vec<u8>, tree: &Value, member: Member) -> Result<(), AllocError> {
    let text = given(tree, member).and_then(Value::as_str).unwrap_or("");
    to.extend_from_slice(text.as_bytes())
}

/// Appends a member's string of each entry of a list, if the object has the list.
pub(crate) fn push_texts(
    to: &mut Vec<u8>,
    tree: &Value,
    list: Member,
    member: Member,
) -> Result<(), AllocError> {
    for entry in array(tree, list).unwrap_or(&[]) {
        push_text(to, entry, member)?;
    }
    Ok(())
}
