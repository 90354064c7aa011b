//! Names and files that modules of several targets share: whether a pool returns a part, and which
//! modules are in it. The program prints the same with the table of all modules.

ghost use Rattle.std.specs.List.{flat_map};
ghost use Rattle.table_keys.specs.Keys.{IsKeyOf};
ghost use Rattle.module_table.specs.Pool.{pool_entries};

use crate::common::{name, path, push_line, value};
use crate::module_table_tests::part::add_modules;
use document_values::{Info, Rule};
use module_table::{Pool, Requirements, Scratch};
use scan_docs::info_read;
use std::alloc::{AllocError, Global};
use std::test::Fail;
use table_keys::{KeyDigest, TableKey};

/// Info files 0, 1 and 2 have a module `P` with a file each. Info files 2, 3 and 4 have a module
/// with the file `s.pcm`: `Q`, `R` and `S`. Info file 6 has the same `R` as 3. Info files 5 and 7
/// require `R`.
const INFOS: [&[u8]; 8] = [
    br#"{"version":1,"target":"a","modules":[{"name":"P","bmi":"a.pcm","requires":[]}]}"#,
    br#"{"version":1,"target":"b","modules":[{"name":"P","bmi":"b.pcm","requires":[]}]}"#,
    br#"{"version":1,"target":"c","modules":[{"name":"Q","bmi":"s.pcm","requires":[]},
        {"name":"P","bmi":"c.pcm","requires":[{"name":"Q","bmi":"s.pcm"}]}]}"#,
    br#"{"version":1,"target":"d","modules":[{"name":"R","bmi":"s.pcm","requires":[]}]}"#,
    br#"{"version":1,"target":"e","modules":[{"name":"S","bmi":"s.pcm","requires":[]}]}"#,
    br#"{"version":1,"target":"f","modules":[
        {"name":"F","bmi":"f.pcm","requires":[{"name":"R","bmi":"s.pcm"}]}]}"#,
    br#"{"version":1,"target":"g","modules":[{"name":"R","bmi":"s.pcm","requires":[]}]}"#,
    br#"{"version":1,"target":"h","modules":[
        {"name":"H","bmi":"h.pcm","requires":[{"name":"R","bmi":"s.pcm"}]}]}"#,
];

/// Linked info files, and a line for each file of their part, or nothing if there is no part.
type Row = (&'static [usize], &'static [u8]);

fn pool(alloc: Global) -> Result<Pool, Fail> {
    let mut infos = Vec::new(alloc);
    for info in INFOS {
        infos.push(value(info_read(alloc, info))?)?;
    }
    Ok(pool_of(alloc, infos)?)
}

/// A pool of these info files, under a key of the names and files of all their modules.
fn pool_of(alloc: Global, infos: Vec<Info>) -> Result<Pool, AllocError> {
    let mut pool = Pool::new(alloc, key_of(&infos));
    let count = infos.len();
    let mut rest = infos.into_iter();
    for _ in 0..count {
        pool = pool.push(alloc, rest.next())?;
    }
    Ok(pool)
}

fn key_of(infos: &[Info]) -> TableKey
    ensures { IsKeyOf result (flat_map pool_entries infos.now) }
{
    let mut digest = KeyDigest::new();
    for info in infos {
        add_modules(&mut digest, info);
    }
    digest.key()
}

/// An object that requires this module.
fn object(alloc: Global, module: &str) -> Result<Rule, Fail> {
    let mut required = Vec::new(alloc);
    required.push(name(alloc, module)?)?;
    Ok(Rule {
        object: path(alloc, "main.o")?,
        provided: Vec::new(alloc),
        required,
    })
}

/// The files in the part of these info files that an object needs, a line for each, or nothing if
/// there is no part.
fn files(
    alloc: Global,
    pool: &Pool,
    objects: &[Rule],
    linked: &[usize],
    scratch: &mut Scratch,
) -> Result<Vec<u8>, Fail> {
    let mut files = Vec::new(alloc);
    if let Some(part) = pool.part(alloc, objects, linked, Requirements::Kept, scratch)? {
        for info in &part {
            for module in &info.modules {
                push_line(&mut files, module.file.bytes())?;
            }
        }
    }
    Ok(files)
}

/// Whether the parts for an object that requires this module have these files, one part after
/// another with one scratch.
fn are(alloc: Global, module: &str, wanted: &[Row]) -> Result<bool, Fail> {
    let pool = pool(alloc)?;
    let objects = [object(alloc, module)?];
    let mut scratch = Scratch::new(alloc);
    let mut are = true;
    for (linked, lines) in wanted {
        let found = files(alloc, &pool, &objects, linked, &mut scratch)?;
        are &= found.as_slice() == *lines;
    }
    Ok(are)
}

/// Linked info files of which at most one has a module `P`.
const ONE_OF_A_NAME: &[Row] = &[
    (&[2], b"c.pcm\ns.pcm\n"),
    (&[1], b"b.pcm\n"),
    (&[0], b"a.pcm\n"),
    (&[5, 1, 3], b"b.pcm\n"),
    (&[3], b""),
];

#[test]
fn one_of_the_modules_that_share_a_name_is_linked(rt: HostRuntime) -> Result<(), Fail> {
    assert!(rt; are(rt.alloc(), "P", ONE_OF_A_NAME)?);
    Ok(())
}

/// Linked info files with two modules `P` or two of one file, and then without.
const TWO_OF_A_NAME: &[Row] = &[
    (&[0, 1], b""),
    (&[2, 0], b""),
    (&[1, 2], b""),
    (&[2, 3], b""),
    (&[2], b"c.pcm\ns.pcm\n"),
];

#[test]
fn two_linked_modules_share_a_name_or_a_file(rt: HostRuntime) -> Result<(), Fail> {
    assert!(rt; are(rt.alloc(), "P", TWO_OF_A_NAME)?);
    Ok(())
}

/// Linked info files of which one has the module that `F` requires, or another with its file.
const ONE_OF_A_FILE: &[Row] = &[
    (&[3, 5], b"s.pcm\nf.pcm\n"),
    (&[4, 5], b""),
    (&[2, 5], b""),
    (&[5, 3, 0], b"f.pcm\ns.pcm\n"),
    (&[6, 5], b"s.pcm\nf.pcm\n"),
];

#[test]
fn a_module_is_required_whose_file_others_share(rt: HostRuntime) -> Result<(), Fail> {
    assert!(rt; are(rt.alloc(), "F", ONE_OF_A_FILE)?);
    Ok(())
}

/// Linked info files of which one has the module that `H` requires, as another that is not linked.
const ONE_OF_A_MODULE: &[Row] = &[
    (&[6, 7], b"s.pcm\nh.pcm\n"),
    (&[3, 7], b"s.pcm\nh.pcm\n"),
    (&[4, 7], b""),
    (&[3, 6, 7], b""),
];

#[test]
fn a_module_is_required_that_two_targets_have(rt: HostRuntime) -> Result<(), Fail> {
    assert!(rt; are(rt.alloc(), "H", ONE_OF_A_MODULE)?);
    Ok(())
}
