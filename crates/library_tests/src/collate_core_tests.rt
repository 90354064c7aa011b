//! Targets, in calls that the program does not make: with maps of a caller's own style, the dyndep
//! text alone with linked info files, and projects.

mod growths;
mod rehearsals;

use crate::common::{push_line, setting, target_name, value};
use crate::module_maps_tests::Bare;
use collate_core::{
    Collated, Listed, ProjectOut, ProjectTarget, Target, collate, collate_dyndep, project,
};
use module_maps::{Gcc, MapStyle};
use std::alloc::{AllocError, Global};
use std::test::Fail;

/// The info of a target `l`, whose module `B` has this file.
const INFO_L: &[u8] =
    br#"{"modules":[{"bmi":"./lib//B.bmi","name":"B","requires":[]}],"target":"l","version":1}"#;

/// One object that requires `B`.
const NEEDS_B: &[u8] =
    br#"{"version":1,"rules":[{"primary-output":"main.o","requires":[{"logical-name":"B"}]}]}"#;

/// One object that provides `B`.
const PROVIDES_B: &[u8] =
    br#"{"version":1,"rules":[{"primary-output":"b.o","provides":[{"logical-name":"B"}]}]}"#;

/// Two objects: `a.o` provides `A` and requires `B`, which `b.o` provides.
pub(crate) const TWO_OBJECTS: &[u8] =
    br#"{"version":1,"rules":[{"primary-output":"a.o","provides":[{"logical-name":"A"}],"requires":[{"logical-name":"B"}]},{"primary-output":"b.o","provides":[{"logical-name":"B"}]}]}"#;

/// The dyndep text, the info and the maps, each map after a line with its object.
fn push_collated(out: &mut Vec<u8>, collated: &Collated) -> Result<(), AllocError> {
    out.extend_from_slice(collated.dyndep())?;
    push_line(out, collated.info())?;
    for (object, map) in collated.objects().iter().zip(collated.maps()) {
        push_line(out, object.bytes())?;
        out.extend_from_slice(map)?;
    }
    Ok(())
}

/// What the target `t` collates to.
fn collated<M: MapStyle>(
    alloc: Global,
    scan: &[u8],
    infos: &[Listed<&[u8]>],
    style: Option<&M>,
) -> Result<Collated, Fail> {
    let name = target_name(alloc, "t")?;
    let setting = setting(alloc)?;
    let target = Target {
        name: &name,
        setting: &setting,
        scans: &[Listed::First(scan)],
        infos,
        kept: &[],
    };
    value(collate(alloc, &target, style))
}

/// The texts of a target with maps of the caller's own style.
pub(crate) fn texts_in_own_style(alloc: Global) -> Result<Vec<u8>, Fail> {
    let collated = collated(alloc, NEEDS_B, &[Listed::First(INFO_L)], Some(&Bare))?;
    let mut out = Vec::new(alloc);
    push_collated(&mut out, &collated)?;
    Ok(out)
}

/// The dyndep text alone of a target that links an info.
pub(crate) fn dyndep_alone(alloc: Global) -> Result<Vec<u8>, Fail> {
    let name = target_name(alloc, "t")?;
    let setting = setting(alloc)?;
    let target = Target {
        name: &name,
        setting: &setting,
        scans: &[Listed::First(NEEDS_B)],
        infos: &[Listed::First(INFO_L)],
        kept: &[],
    };
    value(collate_dyndep(alloc, &target))
}

/// What two targets collate to, of which the second links the first.
fn both_of_a_project(alloc: Global) -> Result<ProjectOut, Fail> {
    let first = target_name(alloc, "t0")?;
    let second = target_name(alloc, "t1")?;
    let setting = setting(alloc)?;
    let targets = [
        ProjectTarget {
            name: &first,
            setting: &setting,
            scans: &[Listed::First(PROVIDES_B)],
            linked: &[],
            kept: &[],
        },
        ProjectTarget {
            name: &second,
            setting: &setting,
            scans: &[Listed::First(NEEDS_B)],
            linked: &[0],
            kept: &[],
        },
    ];
    value(project(alloc, &targets, Some(&Gcc)))
}

/// The texts of both targets of a project.
pub(crate) fn project_texts(alloc: Global) -> Result<Vec<u8>, Fail> {
    let both = both_of_a_project(alloc)?;
    let mut out = Vec::new(alloc);
    for collated in &both.targets {
        push_collated(&mut out, collated)?;
    }
    Ok(out)
}
