//! Maps and their entries, while `tests/growths.py` fails each allocation in turn. A test returns
//! `AllocError` or `Failure::Memory` if and only if a call did. Every other result has to be the
//! example's.

use super::bare::Bare;
use super::{entries_of_lines, entry_of_pair, is_read_back};
use module_maps::{Clang, Gcc};
use std::test::Fail;

#[test]
fn maps_of_each_style(rt: HostRuntime) -> Result<(), Fail> {
    let text = "A mod/A.bmi\nB mod/B.bmi\n";
    assert!(rt; is_read_back(rt.alloc(), &Gcc, text, text)?);
    let text = "-x c++-module\n-fmodule-output=mod/A.bmi\n-fmodule-file=B=mod/B.bmi\n";
    assert!(rt; is_read_back(rt.alloc(), &Clang, text, "- mod/A.bmi\nB mod/B.bmi\n")?);
    let entries = "- mod/A.bmi\n- mod/B.bmi\n";
    assert!(rt; is_read_back(rt.alloc(), &Bare, "mod/A.bmi\nmod/B.bmi\n", entries)?);
    Ok(())
}

#[test]
fn entries_of_what_helps_to_write_a_style(rt: HostRuntime) -> Result<(), Fail> {
    let found = entries_of_lines(rt.alloc())?;
    assert!(rt; found.as_slice() == b"A mod/A.bmi\nB mod/B.bmi\n".as_slice());
    let found = entry_of_pair(rt.alloc())?;
    assert!(rt; found.as_slice() == b"M:p mod/M=p.bmi\n".as_slice());
    Ok(())
}
