//! What a table of modules returns to its caller.

mod growths;
mod part;
mod pool;

use crate::common::setting;
use document_values::Name;
use module_table::{Maker, Table};
use ninja_text::Path;
use scan_docs::{info_read, scan};
use std::alloc::{AllocError, Global};
use std::test::Fail;

/// `main.o` requires `A` of `a.o`, which requires `K`.
const OBJECTS: &[u8] =
    br#"{"version":1,"rules":[{"primary-output":"main.o","requires":[{"logical-name":"A"}]},{"primary-output":"a.o","provides":[{"logical-name":"A"}],"requires":[{"logical-name":"K"}]}]}"#;

/// The info of the target `k`: `K` requires `J`, which is private.
const K_INFO: &[u8] =
    br#"{"modules":[{"bmi":"k/K.bmi","name":"K","requires":[{"bmi":"k/J.bmi","name":"J"}],"visibility":"public"},{"bmi":"k/J.bmi","name":"J","requires":[],"visibility":"private"}],"target":"k","version":2}"#;

/// The table of both objects and the info.
pub(crate) fn table(alloc: Global) -> Result<Table, Fail> {
    let objects = scan(alloc, OBJECTS, &setting(alloc)?)?;
    let infos = vec![in alloc; info_read(alloc, K_INFO)?]?;
    Ok(Table::build(alloc, objects, infos, &[])?)
}

/// Whether the name is found with this file and this producer.
fn is_found(
    alloc: Global,
    table: &Table,
    text: &str,
    wanted: (&str, Maker),
) -> Result<bool, AllocError> {
    let Some(name) = Name::of(alloc, text)? else {
        return Ok(false);
    };
    Ok(match table.lookup(&name) {
        Some((file, maker)) => file.bytes() == wanted.0.as_bytes() && maker == wanted.1,
        None => false,
    })
}

/// Whether a module of an object, one of an info and no other is found.
pub(crate) fn finds_both(alloc: Global, table: &Table) -> Result<bool, AllocError> {
    Ok(
        is_found(alloc, table, "A", ("mod/A.bmi", Maker::Object(1)))?
            && is_found(alloc, table, "J", ("k/J.bmi", Maker::Info(0)))?
            && !is_found(alloc, table, "X", ("x", Maker::Info(0)))?,
    )
}

/// Whether these are the modules and their files.
fn are_pairs(pairs: &[(Name, Path)], wanted: &[(&str, &str)]) -> bool {
    for (pair, (name, file)) in pairs.iter().zip(wanted) {
        if pair.0.text() != *name || pair.1.bytes() != file.as_bytes() {
            return false;
        }
    }
    pairs.len() == wanted.len()
}

/// Whether the first object needs three modules, in byte order.
pub(crate) fn needs_three(alloc: Global, table: &Table) -> Result<bool, AllocError> {
    if table.objects().is_empty() {
        return Ok(false);
    }
    let needed = table.needed(alloc, 0)?;
    let wanted = [("A", "mod/A.bmi"), ("J", "k/J.bmi"), ("K", "k/K.bmi")];
    Ok(are_pairs(&needed, &wanted))
}
