//! The rules of scan documents, and what a target tells the targets that link it.

use crate::name::{Name, TargetName};
use ninja_text::Path;
use std::marker::Model;

/// A rule of a scan document: an object file, the modules that its source provides, each with its
/// BMI, and the names of the modules that it requires, both in the order of the document.
#[derive(Drop)]
pub struct Rule {
    pub object: Path,
    pub provided: Vec<(Name, Path)>,
    pub required: Vec<Name>,
}

impl Model for Rule {
    ghost use Rattle.document_values.specs.Rule.{RuleValue};

    ghost Value = { RuleValue };

    ghost view = { λ r. record {
      object = r.object;
      provided = r.provided.items;
      required = r.required.items;
    } };
}

/// A module that a target provides: its BMI (compiled module file), the modules that it requires,
/// each with its BMI, and whether it is private.
#[derive(Drop)]
pub struct InfoModule {
    pub name: Name,
    pub file: Path,
    pub required: Vec<(Name, Path)>,
    pub is_private: bool,
}

impl Model for InfoModule {
    ghost use Rattle.document_values.specs.Info.{ModuleValue};

    ghost Value = { ModuleValue };

    ghost view = { λ v. record {
      name = v.name;
      file = v.file;
      required = v.required.items;
      is_private = v.is_private;
    } };
}

/// What a target tells the targets that link it.
#[derive(Drop)]
pub struct Info {
    pub target: TargetName,
    pub modules: Vec<InfoModule>,
}

impl Model for Info {
    ghost use Rattle.document_values.specs.Info.{InfoValue};

    ghost Value = { InfoValue };

    ghost view = { λ i. record { target = i.target; modules = i.modules.items } };
}
