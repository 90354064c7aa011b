//! What several tests use: the values of calls, paths, names, and the setting of a target.

use document_values::{Name, TargetName};
use ninja_text::{Failure, Path};
use scan_docs::Setting;
use std::alloc::{AllocError, Global};
use std::test::Fail;

/// Returns the value of a call. A fault and a failed allocation make the test fail in different ways.
pub(crate) fn value<T: Drop, F: Drop>(answer: Result<T, Failure<F>>) -> Result<T, Fail> {
    match answer {
        Ok(value) => Ok(value),
        Err(Failure::Memory) => Err(Fail::from(AllocError)),
        Err(Failure::Fault(_)) => Err(Fail::new("a call answered a fault")),
    }
}

/// Returns the value of an option, which has to be there.
pub(crate) fn some<T: Drop>(value: Option<T>) -> Result<T, Fail> {
    match value {
        Some(value) => Ok(value),
        None => Err(Fail::new("a call answered no value")),
    }
}

pub(crate) fn path(alloc: Global, text: &str) -> Result<Path, Fail> {
    value(Path::of(alloc, text.as_bytes()))
}

pub(crate) fn name(alloc: Global, text: &str) -> Result<Name, Fail> {
    some(Name::of(alloc, text)?)
}

pub(crate) fn target_name(alloc: Global, text: &str) -> Result<TargetName, Fail> {
    some(TargetName::of(alloc, text)?)
}

/// Modules go to `mod`, and their files end in `.bmi`.
pub(crate) fn setting(alloc: Global) -> Result<Setting, AllocError> {
    let module_dir = String::from_str(alloc, "mod")?;
    let module_ext = String::from_str(alloc, ".bmi")?;
    Ok(Setting {
        module_dir,
        module_ext,
        build_dir: None,
    })
}

/// Appends a line.
pub(crate) fn push_line(out: &mut Vec<u8>, line: &[u8]) -> Result<(), AllocError> {
    out.extend_from_slice(line)?;
    out.push(b'\n')?;
    Ok(())
}
