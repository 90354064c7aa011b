//! Where the name and the value of an assignment are. What values stand for is asked of the built
//! program, in rows of `tests/rows`.
use ninja_text::{Line, LineCutter, assignment};
use std::alloc::Global;

/// The index of a name, the name, and the value's bytes.
type Parts = Option<(usize, &'static [u8], &'static [u8])>;

/// Whether the line is an assignment of these parts, or none.
fn has_parts(line: Line<'_>, wanted: Parts) -> bool {
    if line.is_comment() {
        return false;
    }
    match (assignment(line), wanted) {
        (Ok(Some(found)), Some((start, name, raw))) => {
            found.name_start() == start && found.name() == name && found.raw_value() == raw
        }
        (Ok(None), None) => true,
        _ => false,
    }
}

/// The same of a line with its end.
fn is_assignment(alloc: Global, text: &[u8], wanted: Parts) -> bool {
    let mut cutter = LineCutter::new(alloc);
    let _ = cutter.feed(text);
    match cutter.next_line() {
        Ok(Some(line)) => has_parts(line, wanted),
        _ => false,
    }
}

/// Lines, and their parts.
const ASSIGNMENTS: &[(&[u8], Parts)] = &[
    (b"  restat = 1\n", Some((2, b"restat", b"1"))),
    (b"  restat =\r\n", Some((2, b"restat", b""))),
    (
        b"ninja_dyndep_version=1.0-extra\n",
        Some((0, b"ninja_dyndep_version", b"1.0-extra")),
    ),
    (b"a = x | $: $$ \n", Some((0, b"a", b"x | $: $$ "))),
    (
        b" $\n a.b-c_1$\n =$\r\n x $\n y \n",
        Some((4, b"a.b-c_1", b"x $\n y ")),
    ),
    (b"= 1\n", None),
    (b"build a: dyndep = 1\n", None),
    (b"restat\n", None),
    (b"\n", None),
];

#[test]
fn a_binding_has_a_name_and_a_value_to_the_end_of_the_line(rt: HostRuntime) {
    for (text, wanted) in ASSIGNMENTS {
        assert!(rt; is_assignment(rt.alloc(), text, *wanted));
    }
}
