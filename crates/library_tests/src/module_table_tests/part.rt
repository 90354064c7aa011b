//! An object requires one of the modules of a linked target.
ghost use Rattle.std.specs.Prelude.{◌++◌};
ghost use Rattle.table_keys.specs.Entries.{TableEntries};
ghost use Rattle.table_keys.specs.Keys.{HasAdded};
ghost use Rattle.module_table.specs.Pool.{pool_entries};

use document_values::{Info, Rule};
use module_table::{Pool, Requirements, Scratch};
use scan_docs::{Setting, info_read, scan};
use std::alloc::{AllocError, Global};
use std::test::Fail;
use table_keys::KeyDigest;

const DOCUMENT: &[u8] = br#"{"version":1,"rules":[
    {"primary-output":"main.o","requires":[{"logical-name":"B"}]}]}"#;

const INFO: &[u8] = br#"{"version":1,"target":"base","modules":[
    {"name":"A","bmi":"mod/A.pcm","requires":[]},
    {"name":"B","bmi":"mod/B.pcm","requires":[]}]}"#;

/// The objects of the target, which provide no modules.
fn objects(alloc: Global) -> Result<Vec<Rule>, Fail> {
    let setting = Setting {
        module_dir: String::from_str(alloc, "mod")?,
        module_ext: String::from_str(alloc, ".pcm")?,
        build_dir: None,
    };
    Ok(scan(alloc, DOCUMENT, &setting)?)
}

/// A pool with this info file, under a key of the names and files of its modules.
fn pool(alloc: Global, info: Info) -> Result<Pool, AllocError> {
    let mut digest = KeyDigest::new();
    add_modules(&mut digest, &info);
    Pool::new(alloc, digest.key()).push(alloc, Some(info))
}

/// Adds the names and files of the modules of an info file.
pub(crate) fn add_modules(digest: &mut KeyDigest, info: &Info)
    ensures { (entries : TableEntries) → HasAdded digest.old entries
        → HasAdded digest.new (entries ++ pool_entries info.now) }
{
    for module in &info.modules {
        digest.add(module.name.bytes());
        digest.add(module.file.bytes());
    }
}

/// The part of the pool's first info file that the objects require.
fn part(alloc: Global, pool: &Pool, objects: &[Rule]) -> Result<Vec<Info>, Fail> {
    let mut scratch = Scratch::new(alloc);
    match pool.part(alloc, objects, &[0], Requirements::Omitted, &mut scratch)? {
        Some(part) => Ok(part),
        None => Err(Fail::new("the pool has no part for these objects")),
    }
}

#[test]
fn the_part_has_the_required_module_alone(rt: HostRuntime) -> Result<(), Fail> {
    let pool = pool(rt.alloc(), info_read(rt.alloc(), INFO)?)?;
    let part = part(rt.alloc(), &pool, &objects(rt.alloc())?)?;
    assert!(rt; part.len() == 1 && part[0].modules.len() == 1);
    assert!(rt; part[0].modules[0].name.text() == "B");
    Ok(())
}
