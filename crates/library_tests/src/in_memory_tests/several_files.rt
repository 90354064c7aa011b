//! Runs whose files depend on each other, with whole results: targets with info files and maps, a
//! project of three targets, and the effects of dyndep files, also in every order.

use crate::build_effect_tests::{LIBRARY, LIBRARY_AFTER};
use crate::collate_core_tests::TWO_OBJECTS;
use crate::dyndep_file_tests::TWO_STATEMENTS;
use crate::in_memory_tests::{PROVIDES_B, file, is, orders};
use in_memory::{Answer, collate_run, effect_run, project_run};
use std::alloc::{AllocError, Global};
use std::test::Fail;

/// Edges, a dyndep text with the name `t.dd`, and the answer.
type Effect = (&'static [u8], &'static [u8], &'static [u8]);

/// The second statement is missing; the second edge does not name the dyndep file; an edge makes a
/// file that is added; a statement has an implicit output of its edge.
const EFFECTS: &[Effect] = &[
    (
        LIBRARY,
        b"ninja_dyndep_version = 1\nbuild a.o | mod/A.bmi: dyndep | mod/B.bmi\n  restat = 1\n",
        b"1\ndyncollate: E6 NotMentioned b.o\n",
    ),
    (
        b"build a.o: cxx a.cpp || t.dd\n  dyndep = t.dd\nbuild b.o: cxx b.cpp || t.dd\nbuild lib: ar a.o b.o\n",
        TWO_STATEMENTS,
        b"1\ndyncollate: E5 NotBound b.o\n",
    ),
    (
        b"build a.o: cxx a.cpp || t.dd\n  dyndep = t.dd\nbuild b.o: cxx b.cpp || t.dd\n  dyndep = t.dd\nbuild lib: ar a.o b.o\nbuild mod/B.bmi: cp x\n",
        TWO_STATEMENTS,
        b"1\ndyncollate: E7 AddedTwice mod/B.bmi\n",
    ),
    (
        b"build a.d | a.o: cxx a.cpp || t.dd\n  dyndep = t.dd\n",
        b"ninja_dyndep_version = 1\nbuild a.o | mod/A.bmi: dyndep | mod/B.bmi\n  restat = 1\n",
        b"0\nbuild a.d | a.o mod/A.bmi: cxx a.cpp | mod/B.bmi || t.dd\n  dyndep = t.dd\n  restat = 1\n",
    ),
];

/// The beginning of a target document.
const TARGET: &[u8] =
    br#"{"version":1,"target":"t","module-dir":"mod","module-ext":".bmi","dyndep":"t.dd","info":"t.json","#;

/// The info of a target `l`, which provides `B`.
const INFO_L: &[u8] =
    br#"{"modules":[{"bmi":"lib/B.bmi","name":"B","requires":[]}],"target":"l","version":1}"#;

/// The info of a target `k`, which requires `B` with another file.
const INFO_K: &[u8] =
    br#"{"modules":[{"bmi":"mod/K.bmi","name":"K","requires":[{"bmi":"mod/B.bmi","name":"B"}]}],"target":"k","version":1}"#;

/// One object that provides two modules.
const PROVIDES_TWO: &[u8] =
    br#"{"version":1,"rules":[{"primary-output":"a.o","provides":[{"logical-name":"A"},{"logical-name":"C"}]}]}"#;

const GCC_FILES: &[u8] = b"0
a.o.modmap
A mod/A.bmi
B mod/B.bmi
b.o.modmap
B mod/B.bmi
t.json
{\"modules\":[{\"bmi\":\"mod/A.bmi\",\"name\":\"A\",\"requires\":[{\"bmi\":\"mod/B.bmi\",\"name\":\"B\"}],\"visibility\":\"public\"},{\"bmi\":\"mod/B.bmi\",\"name\":\"B\",\"requires\":[],\"visibility\":\"public\"}],\"target\":\"t\",\"version\":2}t.dd
ninja_dyndep_version = 1
build a.o | mod/A.bmi: dyndep | mod/B.bmi
  restat = 1
build b.o | mod/B.bmi: dyndep
  restat = 1
";

const CLANG_FILES: &[u8] = b"0
a.o.modmap
-x c++-module
-fmodule-output=mod/A.bmi
-fmodule-file=B=mod/B.bmi
b.o.modmap
-x c++-module
-fmodule-output=mod/B.bmi
t.json
{\"modules\":[{\"bmi\":\"mod/A.bmi\",\"name\":\"A\",\"requires\":[{\"bmi\":\"mod/B.bmi\",\"name\":\"B\"}],\"visibility\":\"public\"},{\"bmi\":\"mod/B.bmi\",\"name\":\"B\",\"requires\":[],\"visibility\":\"public\"}],\"target\":\"t\",\"version\":2}t.dd
ninja_dyndep_version = 1
build a.o | mod/A.bmi: dyndep | mod/B.bmi
  restat = 1
build b.o | mod/B.bmi: dyndep
  restat = 1
";

const TWO_LINES: &[u8] = b"0
a.o.modmap
A mod/A.bmi
C mod/C.bmi
t.json
{\"modules\":[{\"bmi\":\"mod/A.bmi\",\"name\":\"A\",\"requires\":[],\"visibility\":\"public\"},{\"bmi\":\"mod/C.bmi\",\"name\":\"C\",\"requires\":[],\"visibility\":\"public\"}],\"target\":\"t\",\"version\":2}t.dd
ninja_dyndep_version = 1
build a.o | mod/A.bmi mod/C.bmi: dyndep
  restat = 1
";

/// The end of a document, and the answer.
type Ended = (&'static [u8], &'static [u8]);

const TARGETS: &[Ended] = &[
    (
        br#""linked":["l.json","k.json"]}"#,
        b"1\ndyncollate: M7 InfoDisagrees k K B\n",
    ),
    (
        br#""scans":["b.ddi"],"linked":["k.json"]}"#,
        b"1\ndyncollate: M6 InfoUnknown k K B\n",
    ),
    (br#""scans":["ab.ddi"],"map":"gcc"}"#, GCC_FILES),
    (br#""scans":["ab.ddi"],"map":"clang"}"#, CLANG_FILES),
    (
        br#""scans":["ab.ddi"],"map":"gcc","module-dir":"my mods"}"#,
        b"1\ndyncollate: K1 MapPath my mods/A.bmi\n",
    ),
    (
        br#""scans":["two.ddi"],"map":"clang"}"#,
        b"1\ndyncollate: K2 TwoProvided a.o\n",
    ),
    (br#""scans":["two.ddi"],"map":"gcc"}"#, TWO_LINES),
];

const PROJECT: &[u8] = br#"{"targets":["0.json","1.json","2.json"],"version":1}"#;

const FIRST: &[u8] =
    br#"{"version":1,"target":"t0","module-dir":"mod","module-ext":".bmi","map":"gcc","scans":["0.ddi"],"dyndep":"0.dd","info":"0.info"}"#;

const FIRST_SCAN: &[u8] =
    br#"{"version":1,"rules":[{"primary-output":"l.o","provides":[{"logical-name":"B"}]}]}"#;

const SECOND: &[u8] =
    br#"{"version":1,"target":"t1","module-dir":"mod","module-ext":".bmi","map":"gcc","scans":["1.ddi"],"dyndep":"1.dd","info":"1.info","linked":["0.info"]}"#;

const SECOND_SCAN: &[u8] =
    br#"{"version":1,"rules":[{"primary-output":"k.o","provides":[{"logical-name":"K"}],"requires":[{"logical-name":"B"}]}]}"#;

/// The beginning of the third target document.
const THIRD: &[u8] =
    br#"{"version":1,"target":"t2","module-dir":"mod","module-ext":".bmi","map":"gcc","scans":["2.ddi"],"dyndep":"2.dd","info":"2.info","#;

const THIRD_SCAN: &[u8] =
    br#"{"version":1,"rules":[{"primary-output":"main.o","requires":[{"logical-name":"K"}]}]}"#;

/// The end of the third target document, if it links both others.
const BOTH: &[u8] = br#""linked":["0.info","1.info"]}"#;

const PROJECT_FILES: &[u8] = b"0
l.o.modmap
B mod/B.bmi
0.info
{\"modules\":[{\"bmi\":\"mod/B.bmi\",\"name\":\"B\",\"requires\":[],\"visibility\":\"public\"}],\"target\":\"t0\",\"version\":2}0.dd
ninja_dyndep_version = 1
build l.o | mod/B.bmi: dyndep
  restat = 1
k.o.modmap
K mod/K.bmi
B mod/B.bmi
1.info
{\"modules\":[{\"bmi\":\"mod/K.bmi\",\"name\":\"K\",\"requires\":[{\"bmi\":\"mod/B.bmi\",\"name\":\"B\"}],\"visibility\":\"public\"}],\"target\":\"t1\",\"version\":2}1.dd
ninja_dyndep_version = 1
build k.o | mod/K.bmi: dyndep | mod/B.bmi
  restat = 1
main.o.modmap
B mod/B.bmi
K mod/K.bmi
2.info
{\"modules\":[],\"target\":\"t2\",\"version\":2}2.dd
ninja_dyndep_version = 1
build main.o: dyndep | mod/K.bmi
";

const PROJECTS: &[Ended] = &[
    (BOTH, PROJECT_FILES),
    (
        br#""linked":["1.info"]}"#,
        b"1\ndyncollate: target 2: M6 InfoUnknown t1 K B\n",
    ),
    (
        br#""linked":["2.info"]}"#,
        b"1\ndyncollate: target 2: K3 LinkedLater\n",
    ),
    (
        br#""linked":["0.info"]}"#,
        b"1\ndyncollate: target 2: M5 ModuleUnknown K in main.o\n",
    ),
];

/// The edges of the project's objects.
const EDGES: &[u8] = b"build l.o: cxx l.cpp || 0.dd
  dyndep = 0.dd
build k.o: cxx k.cpp || 1.dd
  dyndep = 1.dd
build main.o: cxx main.cpp || 2.dd
  dyndep = 2.dd
";

/// These edges after the effects of the project's dyndep files.
const EDGES_AFTER: &[u8] = b"build l.o | mod/B.bmi: cxx l.cpp || 0.dd
  dyndep = 0.dd
  restat = 1
build k.o | mod/K.bmi: cxx k.cpp | mod/B.bmi || 1.dd
  dyndep = 1.dd
  restat = 1
build main.o: cxx main.cpp | mod/K.bmi || 2.dd
  dyndep = 2.dd
";

/// The orders of the project's dyndep files, by their indexes among the files that it writes.
const ORDERS: &[&[usize]] = &[
    &[2, 5, 8],
    &[2, 8, 5],
    &[5, 2, 8],
    &[5, 8, 2],
    &[8, 2, 5],
    &[8, 5, 2],
];

/// A document of two parts.
fn document(alloc: Global, start: &[u8], end: &[u8]) -> Result<Vec<u8>, AllocError> {
    let mut document = Vec::from_slice(alloc, start)?;
    document.extend_from_slice(end)?;
    Ok(document)
}

/// Whether each effect has its answer.
fn are_effects(alloc: Global, rows: &[Effect]) -> Result<bool, AllocError> {
    let mut are = true;
    for (edges, dyndep, wanted) in rows {
        are &= is(alloc, &effect_run(alloc, "t.dd", edges, dyndep)?, wanted)?;
    }
    Ok(are)
}

/// Whether each target has its answer.
fn are_targets(alloc: Global, rows: &[Ended]) -> Result<bool, AllocError> {
    let files = [
        file("l.json", INFO_L),
        file("k.json", INFO_K),
        file("b.ddi", PROVIDES_B),
        file("ab.ddi", TWO_OBJECTS),
        file("two.ddi", PROVIDES_TWO),
    ];
    let mut are = true;
    for (end, wanted) in rows {
        let document = document(alloc, TARGET, end)?;
        are &= is(alloc, &collate_run(alloc, &document, &files)?, wanted)?;
    }
    Ok(are)
}

/// Runs the project whose third target document ends so.
fn project(alloc: Global, end: &[u8]) -> Result<Answer, AllocError> {
    let third = document(alloc, THIRD, end)?;
    let files = [
        file("0.json", FIRST),
        file("1.json", SECOND),
        file("2.json", &third),
        file("0.ddi", FIRST_SCAN),
        file("1.ddi", SECOND_SCAN),
        file("2.ddi", THIRD_SCAN),
    ];
    project_run(alloc, PROJECT, &files)
}

/// Whether each project has its answer.
fn are_projects(alloc: Global, rows: &[Ended]) -> Result<bool, AllocError> {
    let mut are = true;
    for (end, wanted) in rows {
        are &= is(alloc, &project(alloc, end)?, wanted)?;
    }
    Ok(are)
}

/// The project's edges after the effects of these files of an answer, one after another.
fn edges_after(alloc: Global, answer: &Answer, order: &[usize]) -> Result<Vec<u8>, AllocError> {
    let mut edges = Vec::from_slice(alloc, EDGES)?;
    for index in order {
        if let Some(dyndep) = answer.files.get(*index) {
            edges = effect_run(alloc, &dyndep.name, &edges, &dyndep.bytes)?.out;
        }
    }
    Ok(edges)
}

/// Whether the project's dyndep files have one effect in all of these orders.
fn are_alike(alloc: Global, answer: &Answer, orders: &[&[usize]]) -> Result<bool, AllocError> {
    let mut are = true;
    for order in orders {
        are &= edges_after(alloc, answer, order)?.as_slice() == EDGES_AFTER;
    }
    Ok(are)
}

#[test]
fn a_target_with_info_files_or_maps(rt: HostRuntime) -> Result<(), Fail> {
    assert!(rt; are_targets(rt.alloc(), TARGETS)?);
    Ok(())
}

#[test]
fn edges_after_an_effect_in_order(rt: HostRuntime) -> Result<(), Fail> {
    let answer = effect_run(rt.alloc(), "t.dd", LIBRARY, TWO_STATEMENTS)?;
    assert!(rt; answer.status == 0 && answer.out.as_slice() == LIBRARY_AFTER);
    assert!(rt; orders(rt.alloc(), &answer.out, b"0\nb.o\na.o\nlib\n")?);
    Ok(())
}

#[test]
fn statements_and_edges_that_do_not_match(rt: HostRuntime) -> Result<(), Fail> {
    assert!(rt; are_effects(rt.alloc(), EFFECTS)?);
    Ok(())
}

#[test]
fn three_targets_of_a_project(rt: HostRuntime) -> Result<(), Fail> {
    assert!(rt; are_projects(rt.alloc(), PROJECTS)?);
    Ok(())
}

#[test]
fn dyndep_files_of_a_project_in_every_order(rt: HostRuntime) -> Result<(), Fail> {
    let answer = project(rt.alloc(), BOTH)?;
    assert!(rt; are_alike(rt.alloc(), &answer, ORDERS)?);
    Ok(())
}
