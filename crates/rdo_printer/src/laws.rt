//! What holds of the words and the texts that are printed.

ghost use Rattle.rdo_printer.specs.Law.{WordsAreRead, TextIsRead, ScriptIsRead, ScriptIsWhole};

/// What is printed of a statement is read as the same statement: its words, its text in any script, and a script of such texts, up
/// to its end.
pub fn what_is_printed_is_read()
    ensures words { WordsAreRead }
    ensures text { TextIsRead }
    ensures script { ScriptIsRead }
    ensures whole { ScriptIsWhole }
{}
