//! What the cutter takes, returns and rejects. `dyndep_file_tests` shows, by the reader that uses
//! it, that lines are the same wherever a text is cut.
use ninja_text::{CutFault, Failure, LINE_LIMIT, LineCutter};
use std::alloc::Global;
use std::test::Fail;

/// Whether a line waits with this text and this number.
fn lends(cutter: &mut LineCutter, text: &[u8], number: u64) -> bool {
    match cutter.next_line() {
        Ok(Some(line)) => line.text() == text && line.number() == number && !line.is_comment(),
        _ => false,
    }
}

/// Whether a cutter takes a line, nothing while it waits, and then what there is of the next.
fn takes_in_turn(cutter: &mut LineCutter) -> bool {
    cutter.feed(b"ab\ncd") == Ok(3)
        && cutter.feed(b"cd") == Ok(0)
        && lends(cutter, b"ab", 1)
        && cutter.feed(b"cd") == Ok(2)
        && matches!(cutter.next_line(), Ok(None))
        && cutter.number() == 2
        && cutter.finish() == Err(CutFault::Truncated { line: 2 })
}

#[test]
fn takes_up_to_a_line_end_and_nothing_while_the_line_waits(rt: HostRuntime) {
    let mut cutter = LineCutter::new(rt.alloc());
    assert!(rt; takes_in_turn(&mut cutter));
}

/// Whether a cutter takes the text, which has no line's end, rejects one more byte, and returns the
/// same from then on.
fn refuses_one_more(alloc: Global, text: &[u8]) -> bool {
    let too_long = CutFault::LineTooLong { line: 1 };
    let mut cutter = LineCutter::new(alloc);
    cutter.feed(text) == Ok(text.len())
        && matches!(cutter.next_line(), Ok(None))
        && cutter.feed(b"x") == Err(Failure::Fault(too_long))
        && cutter.feed(b"\n") == Err(Failure::Fault(too_long))
        && cutter.next_line().err() == Some(too_long)
        && cutter.finish() == Err(too_long)
}

#[test]
fn a_line_without_an_end_within_the_limit_is_refused_at_once_and_from_then_on(
    rt: HostRuntime,
) -> Result<(), Fail> {
    let text = vec![in rt.alloc(); b'x'; LINE_LIMIT - 1]?;
    assert!(rt; refuses_one_more(rt.alloc(), &text));
    Ok(())
}
