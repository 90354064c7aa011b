//! Laws of documents, for callers' proofs: each is the contract of a function that does nothing.

ghost use Rattle.std.specs.Prelude.{◌≡◌, true, List, IsUtf8};
ghost use Rattle.scan_docs.specs.Prelude.{Bytes, IsAccepted, HasOneAnswer, SettingValue, RuleValue};
ghost use Rattle.scan_docs.specs.Prelude.{scan_checks, AreRules, rules_of, InfoValue, info_checks};
ghost use Rattle.scan_docs.specs.Prelude.{IsInfo, info_of, IsSoundInfo, info_text, ReadsBack};
ghost use Rattle.scan_docs.specs.Prelude.{is_target_name, ProjectValue, project_checks, IsProject};
ghost use Rattle.scan_docs.specs.Prelude.{project_of, target_checks, TargetDocumentValue, IsTarget};
ghost use Rattle.scan_docs.specs.Prelude.{spec_of};

use document_values::TargetName;

/// All bytes, read as a document of one kind, have at most one result: one value or one fault, and
/// never both.
#[tactic(auto, using(crate::proofs::Exact::one_answer_of_each))]
pub fn bytes_have_one_result()
    ensures scan { (setting : SettingValue) (bytes : Bytes)
        → HasOneAnswer (scan_checks setting) (AreRules setting) bytes }
    ensures info { (bytes : Bytes) → HasOneAnswer info_checks IsInfo bytes }
    ensures target { (bytes : Bytes) → HasOneAnswer target_checks IsTarget bytes }
    ensures project { (bytes : Bytes) → HasOneAnswer project_checks IsProject bytes }
{}

/// The value of an accepted document is the value of a function of its bytes.
pub fn bytes_determine_the_value()
    ensures scan { (setting : SettingValue) (bytes : Bytes) (rules : List RuleValue)
        → IsAccepted (scan_checks setting) (AreRules setting) bytes rules
        → rules ≡ rules_of setting bytes }
    ensures info { (bytes : Bytes) (info : InfoValue)
        → IsAccepted info_checks IsInfo bytes info → info ≡ info_of bytes }
    ensures target { (bytes : Bytes) (spec : TargetDocumentValue)
        → IsAccepted target_checks IsTarget bytes spec → spec ≡ spec_of bytes }
    ensures project { (bytes : Bytes) (project : ProjectValue)
        → IsAccepted project_checks IsProject bytes project → project ≡ project_of bytes }
{}

/// The text of an info whose names and paths are accepted is read as the same info. If the text is
/// longer than a document may be, and only then, reading it fails.
#[tactic(auto, using(crate::proofs::InfoTexts::text_again))]
pub fn info_reads_back()
    ensures { (info : InfoValue) → IsSoundInfo info → ReadsBack info (info_text info) }
{}

/// The name of a target is accepted, and it is UTF-8.
pub fn target_names_are_valid(name: &TargetName)
    ensures accepted { is_target_name name.now ≡ true }
    ensures utf8 { IsUtf8 name.now }
{
    name.text();
}
