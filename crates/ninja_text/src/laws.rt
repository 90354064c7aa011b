//! Laws about lines, tokens, escapes and paths. A law is the contract of a function that does
//! nothing; callers call it to use the law in a proof.
ghost use Rattle.std.specs.Prelude.{◌↔◌, ◌≡◌, [], All, Err, List, Ok};
ghost use Rattle.ninja_text.specs.Prelude.{AreTokens, Bytes, Component, Divides, ForSome, IsPath};
ghost use Rattle.ninja_text.specs.Prelude.{IsFaultless, IsReadAsSpelled, IsShaped, PathText, Text};
ghost use Rattle.ninja_text.specs.Prelude.{IsValueAsSpelled, ReducesTo, Spells, SpellsValue, parts};
ghost use Rattle.ninja_text.specs.Prelude.{TokenAt, assignment_of, components, is_rooted, path_of};
ghost use Rattle.ninja_text.specs.Prelude.{reduced, seen_tokens, text_of_line, tokens};
ghost use Rattle.ninja_text.specs.declared.fault.PathFault.TheVariants.{Empty};

/// A text is divided into lines and a rest in exactly one way.
pub fn a_text_is_divided_in_one_way()
    ensures some { (bytes : Bytes)
        → (lines : List Text) × (rest : Bytes) × Divides bytes lines rest }
    ensures one { (bytes : Bytes) (lines others : List Text) (rest left : Bytes)
        → Divides bytes lines rest → Divides bytes others left
        → (lines ≡ others) × (rest ≡ left) }
{}

/// The tokens that [`words`](crate::words) returns divide the text, with only spaces and
/// continuations between them, and no other list of tokens does.
pub fn a_text_has_one_list_of_tokens()
    ensures some { (text : Text) → AreTokens text (tokens text) }
    ensures one { (text : Text) (ts : List TokenAt) → AreTokens text ts → ts ≡ tokens text }
{}

/// The value that is read from a word, or from an assignment, is the one that its bytes stand for,
/// so a reader and a writer agree on it. This holds for each line that a cutter can return, unless
/// the line is a comment or has a lexical error. The bytes of an assignment's value stand for one
/// value only; [`a_word_has_one_meaning`] says the same about words.
pub fn values_are_read_as_spelled()
    ensures words { (line : Text) → IsFaultless line
        → All IsReadAsSpelled (seen_tokens (text_of_line line)) }
    ensures values { (line : Text) → IsFaultless line
        → ForSome (assignment_of (text_of_line line)) IsValueAsSpelled }
    ensures one_value { (raw a b : Text) → SpellsValue raw a → SpellsValue raw b → a ≡ b }
{}

/// An escaped word stands for at most one value.
pub fn a_word_has_one_meaning()
    ensures { (raw a b : Text) → Spells raw a → Spells raw b → a ≡ b }
{}

/// A list of components has one canonical form, whatever the order of the steps.
pub fn a_list_has_one_canonical_form()
    ensures reached { (list : List Component) → ReducesTo list (reduced list) }
    ensures only { (list other : List Component) → ReducesTo list other → other ≡ reduced list }
{}

/// The path of a string has the components that are left of the string's components, whatever the
/// order of the steps. It is absolute if and only if the string is. A string of whose components
/// none are left has no path. Each path has canonical shape.
pub fn a_path_has_what_is_left_of_its_string()
    ensures path { (text path : PathText) → path_of text ≡ Ok path
        → (is_rooted path ≡ is_rooted text) × ReducesTo (components text) (parts path) }
    ensures empty { (text : PathText) → path_of text ≡ Err Empty ↔ ReducesTo (components text) [] }
    ensures shape { (path : PathText) → IsPath path → IsShaped path }
{}
