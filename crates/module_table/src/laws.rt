//! Laws of tables: functions that do nothing, and whose contracts callers' proofs may cite.
ghost use Rattle.module_table.specs.Added.{AddedOrderable, AllRequired, FilesApart, FilesOnce};
ghost use Rattle.module_table.specs.Added.{OneFile, RequiredFiles};
ghost use Rattle.module_table.specs.Beginnings.{BeginningIsReported, SoundIsWhole};
ghost use Rattle.module_table.specs.EnoughParts.{PartIsSound, PartHasTasks, PartIsNeeded};
ghost use Rattle.module_table.specs.Outcomes.{SoundHasNoFault, FaultlessIsSound, OneTableFault};

/// A table is sound and its objects provide the private names if and only if none of the faults M1
/// to M10 is present.
pub fn sound_is_faultless()
    ensures no_fault { SoundHasNoFault }
    ensures sound { FaultlessIsSound }
{}

/// At most one fault can be reported for a table: the same data, and for a cycle the same objects
/// in the same order.
#[tactic(auto, using(crate::proofs::OneReported::one_told))]
pub fn one_fault_is_reported()
    ensures { OneTableFault }
{}

/// A beginning of a target's objects or info files is enough for the fault of all, if it repeats a
/// path or a target name: the fault is M1 or M2. A beginning that has no fault is the whole.
pub fn a_repetition_is_reported()
    ensures reported { BeginningIsReported }
    ensures whole { SoundIsWhole }
{}

/// What a sound table means for the files that are added to a build. The inputs that objects gain
/// from one another can be ordered. A file belongs to at most one module of one object, and no
/// module's file is an object. An object's pairs are all names that it requires, with the files of
/// their modules, and each name has one file.
pub fn added_files_can_be_ordered()
    ensures orderable { AddedOrderable }
    ensures once { FilesOnce }
    ensures apart { FilesApart }
    ensures required { RequiredFiles }
    ensures all_required { AllRequired }
    ensures one_file { OneFile }
{}

/// A part of the linked modules that is enough for a table: if the table of the part is sound, so
/// is the table of all. Then the objects of both require the same. If the part keeps what its
/// modules require, the objects of both also need the same.
pub fn sound_part_is_enough()
    ensures sound { PartIsSound }
    ensures tasks { PartHasTasks }
    ensures needed { PartIsNeeded }
{}
