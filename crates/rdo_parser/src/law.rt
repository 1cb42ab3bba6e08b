//! What holds of the definitions that the contracts cite.

ghost use Rattle.rdo_parser.specs.Ahead.{RefusedWhateverFollows, ReadWhateverFollows};
ghost use Rattle.rdo_parser.specs.Script.{ItemsInOrder, StopInOrder};

/// No statement goes on with the offending token: what follows that token doesn't matter, nor what follows the token after a statement.
pub fn one_token_ahead()
    ensures refused { RefusedWhateverFollows }
    ensures read { ReadWhateverFollows }
{}

/// The items of a script are read one after another, up to its end or a `$ STOP`.
pub fn items_in_order()
    ensures items { ItemsInOrder }
    ensures stop { StopInOrder }
{}
