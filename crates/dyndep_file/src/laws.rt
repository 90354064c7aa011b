//! Laws about the definitions. A law is the contract of a function that does nothing; callers call
//! it to use the law in a proof.
ghost use Rattle.std.specs.Prelude.{◌≡◌, ◌↔◌, List, All, None};
ghost use Rattle.dyndep_file.specs.Prelude.{OneList, NotBoth, OneOfBoth, OneReadFault};
ghost use Rattle.dyndep_file.specs.Prelude.{GoesOnUnrefused, FaultStays, OnlyTooLong};
ghost use Rattle.dyndep_file.specs.Prelude.{TooLongIfWritable, FirstFault, StandsForOnly};
ghost use Rattle.dyndep_file.specs.Prelude.{StatementValue, write_fault, CanBeWritten, dyndep_text};

/// The grammar relates a text to at most one list of statements.
pub fn a_text_stands_for_one_list()
    ensures { OneList }
{}

/// A text has either a list of statements or an error.
pub fn a_text_stands_for_a_list_or_has_a_fault()
    ensures not_both { NotBoth }
    ensures one_of_both { OneOfBoth }
{}

/// A text has at most one error, at one line.
pub fn a_text_has_one_fault()
    ensures { OneReadFault }
{}

/// A reader without an error was fed no faulty line, and no line that is too long.
pub fn accepted_bytes_have_no_fault()
    ensures { GoesOnUnrefused }
{}

/// An error that `feed` returns is the error of every text that begins with the bytes fed so far.
pub fn fault_stays()
    ensures { FaultStays }
{}

/// If all paths of the statements can be escaped, the only possible error is a build line that is
/// too long. The same holds for one statement.
pub fn writable_statements_can_only_be_too_long()
    ensures lists { OnlyTooLong }
    ensures statements { TooLongIfWritable }
{}

/// If the first statements have no error and the next one has, its error is that of the list.
pub fn the_first_fault_counts()
    ensures { FirstFault }
{}

/// The text of statements that can be written stands for these statements and for no other list.
pub fn written_text_stands_for_statements()
    ensures { (statements : List StatementValue) →
        All CanBeWritten statements → StandsForOnly (dyndep_text statements) statements }
{}

/// A list of statements has no error if and only if each of them can be written.
pub fn faultless_statements_can_be_written()
    ensures { (statements : List StatementValue) →
        write_fault statements ≡ None ↔ All CanBeWritten statements }
{}
