//! Look-ups in a table, while `tests/growths.py` fails each allocation in turn. A test returns
//! `AllocError` or `Failure::Memory` if and only if a call did. Every other result has to be the
//! example's.

use super::{finds_both, needs_three, table};
use std::test::Fail;

#[test]
fn who_provides_a_module_and_what_is_needed(rt: HostRuntime) -> Result<(), Fail> {
    let table = table(rt.alloc())?;
    assert!(rt; finds_both(rt.alloc(), &table)?);
    assert!(rt; needs_three(rt.alloc(), &table)?);
    Ok(())
}
