//! What holds of the grammar.

ghost use Rattle.rdo_labels.specs.Alike.{ReadAlike, RefusedAlike, TextReadAlike, TextRefusedAlike};

/// What is read or refused is decided by the kinds and the spellings of its tokens and of the one behind them: in any list of tokens whose labels descend, and so in any text.
pub fn labels_do_not_matter()
    ensures read { ReadAlike }
    ensures refused { RefusedAlike }
    ensures text_read { TextReadAlike }
    ensures text_refused { TextRefusedAlike }
{}
