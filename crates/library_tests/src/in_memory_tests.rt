//! The commands over files that are values, on rows that take several files.

mod growths;
mod several_files;

use crate::common::push_line;
use in_memory::{
    Answer, File, collate_run, effect_run, one_run, order_run, project_names, project_run, show_run,
};
use std::alloc::{AllocError, Global};
use std::test::Fail;

/// A target that links `l.json`, with a map that is left alone if it has its bytes.
const TARGET: &[u8] =
    br#"{"version":1,"target":"t","module-dir":"mod","module-ext":".bmi","dyndep":"t.dd","info":"t.json","scans":["m.ddi"],"linked":["l.json"],"map":"gcc","restat":true}"#;

/// One object that requires `B`.
const NEEDS_B: &[u8] =
    br#"{"version":1,"rules":[{"primary-output":"main.o","requires":[{"logical-name":"B"}]}]}"#;

/// The info of a target `l`, whose module `B` has this file.
const INFO_L: &[u8] =
    br#"{"modules":[{"bmi":"./lib//B.bmi","name":"B","requires":[]}],"target":"l","version":1}"#;

const TARGET_FILES: &[u8] = b"0
main.o.modmap (left alone)
B lib/B.bmi
t.json (left alone)
{\"modules\":[],\"target\":\"t\",\"version\":2}t.dd
ninja_dyndep_version = 1
build main.o: dyndep | lib/B.bmi
";

const PROJECT: &[u8] = br#"{"targets":["0.json","1.json"],"version":1}"#;

/// The target `t0`, which provides `B`.
const FIRST: &[u8] =
    br#"{"version":1,"target":"t0","module-dir":"mod","module-ext":".bmi","scans":["0.ddi"],"dyndep":"0.dd","info":"0.info"}"#;

const PROVIDES_B: &[u8] =
    br#"{"version":1,"rules":[{"primary-output":"b.o","provides":[{"logical-name":"B"}]}]}"#;

/// Appends the texts and the files of an answer.
fn push_printed(out: &mut Vec<u8>, answer: &Answer) -> Result<(), AllocError> {
    out.extend_from_slice(&answer.out)?;
    out.extend_from_slice(&answer.err)?;
    for file in &answer.files {
        out.extend_from_slice(file.name.as_bytes())?;
        push_line(out, if file.keeps { b" (left alone)" } else { b"" })?;
        out.extend_from_slice(&file.bytes)?;
    }
    Ok(())
}

/// The status, the texts and the files of an answer.
fn printed(alloc: Global, answer: &Answer) -> Result<Vec<u8>, AllocError> {
    let mut out = format!(in alloc; "{}\n", answer.status)?.into_bytes();
    push_printed(&mut out, answer)?;
    Ok(out)
}

/// Whether an answer has this status, these texts and these files.
fn is(alloc: Global, answer: &Answer, wanted: &[u8]) -> Result<bool, AllocError> {
    Ok(printed(alloc, answer)?.as_slice() == wanted)
}

/// Whether the target has this answer over these files.
fn collates(alloc: Global, files: &[File<'_>], wanted: &[u8]) -> Result<bool, AllocError> {
    is(alloc, &collate_run(alloc, TARGET, files)?, wanted)
}

/// Whether the project has this answer over these files.
fn projects(alloc: Global, files: &[File<'_>], wanted: &[u8]) -> Result<bool, AllocError> {
    is(alloc, &project_run(alloc, PROJECT, files)?, wanted)
}

/// Whether these edges, put in order, have this answer.
fn orders(alloc: Global, edges: &[u8], wanted: &[u8]) -> Result<bool, AllocError> {
    is(alloc, &order_run(alloc, edges)?, wanted)
}

fn file<'a>(name: &'a str, bytes: &'a [u8]) -> File<'a> {
    File { name, bytes }
}

#[test]
fn a_target_with_an_info_that_it_links(rt: HostRuntime) -> Result<(), Fail> {
    let files = [file("l.json", INFO_L), file("m.ddi", NEEDS_B)];
    assert!(rt; collates(rt.alloc(), &files, TARGET_FILES)?);
    Ok(())
}

#[test]
fn the_first_file_of_a_name_counts(rt: HostRuntime) -> Result<(), Fail> {
    let files = [
        file("m.ddi", NEEDS_B),
        file("m.ddi", b"no document"),
        file("l.json", INFO_L),
        file("l.json", b""),
    ];
    assert!(rt; collates(rt.alloc(), &files, TARGET_FILES)?);
    Ok(())
}

#[test]
fn a_name_without_a_file_cannot_be_read(rt: HostRuntime) -> Result<(), Fail> {
    let files = [file("./l.json", INFO_L), file("m.ddi", b"no document")];
    assert!(rt; collates(rt.alloc(), &files, b"3\ndyncollate: cannot read l.json\n")?);
    Ok(())
}

#[test]
fn a_faulty_document_among_the_files(rt: HostRuntime) -> Result<(), Fail> {
    let files = [file("m.ddi", b"no document"), file("l.json", INFO_L)];
    let wanted = b"1\ndyncollate: scan 0: S1 NotJson document\n";
    assert!(rt; collates(rt.alloc(), &files, wanted)?);
    Ok(())
}

#[test]
fn a_project_without_its_second_document(rt: HostRuntime) -> Result<(), Fail> {
    let files = [file("0.json", FIRST), file("0.ddi", PROVIDES_B)];
    assert!(rt; projects(rt.alloc(), &files, b"3\ndyncollate: cannot read 1.json\n")?);
    Ok(())
}

#[test]
fn the_names_of_target_documents(rt: HostRuntime) -> Result<(), Fail> {
    let names = project_names(rt.alloc(), PROJECT)?;
    assert!(rt; names.len() == 2 && names[0].as_str() == "0.json" && names[1].as_str() == "1.json");
    Ok(())
}

#[test]
fn no_names_of_a_rejected_document(rt: HostRuntime) -> Result<(), Fail> {
    assert!(rt; project_names(rt.alloc(), b"{}")?.is_empty());
    Ok(())
}

#[test]
fn a_scan_document_alone(rt: HostRuntime) -> Result<(), Fail> {
    let answer = one_run(rt.alloc(), PROVIDES_B, "mod", ".pcm")?;
    let wanted = b"0\nninja_dyndep_version = 1\nbuild b.o | mod/B.pcm: dyndep\n  restat = 1\n";
    assert!(rt; is(rt.alloc(), &answer, wanted)?);
    Ok(())
}

#[test]
fn statements_as_the_writer_spells_them(rt: HostRuntime) -> Result<(), Fail> {
    let answer = show_run(rt.alloc(), b"ninja_dyndep_version = 1.0\nbuild a :dyndep\n")?;
    let wanted = b"0\nninja_dyndep_version = 1\nbuild a: dyndep\n";
    assert!(rt; is(rt.alloc(), &answer, wanted)?);
    Ok(())
}

#[test]
fn an_edge_after_the_effect(rt: HostRuntime) -> Result<(), Fail> {
    let edges = b"build a.o: cxx a.cpp || t.dd\n  dyndep = t.dd\n";
    let dyndep = b"ninja_dyndep_version = 1\nbuild a.o: dyndep | mod/B.bmi\n";
    let answer = effect_run(rt.alloc(), "./t.dd", edges, dyndep)?;
    let wanted = b"0\nbuild a.o: cxx a.cpp | mod/B.bmi || t.dd\n  dyndep = t.dd\n";
    assert!(rt; is(rt.alloc(), &answer, wanted)?);
    Ok(())
}

#[test]
fn edges_in_order_and_in_a_cycle(rt: HostRuntime) -> Result<(), Fail> {
    assert!(rt; orders(rt.alloc(), b"build a: r b\nbuild b: r c\n", b"0\nb\na\n")?);
    let wanted = b"1\ndyncollate: cycle a -> b\n";
    assert!(rt; orders(rt.alloc(), b"build a: r b\nbuild b: r a\n", wanted)?);
    Ok(())
}
