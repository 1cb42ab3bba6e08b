// What the scan finds, said of the slots as they stand.
ghost use Rattle.std.specs.Prelude.{◌≡◌, ◌+◌, ◌++◌, ℕ, List, Option, length, map};
ghost use Rattle.std.specs.List.{flat_map};
ghost use Rattle.aij_journal.specs.declared.part.AijPart.{AijPart as Part};
ghost use Rattle.journal_scan.specs.declared.group.Group.{Group as Written};
ghost use Rattle.journal_scan.specs.declared.scan.Scan.{Scan as Scanned};
ghost use Rattle.journal_scan.specs.declared.scan.Stage.TheVariants.{Ended};
ghost use Rattle.journal_scan.specs.Whole.{Holds, Hold, slots_of, AreWhole, AreGroups};
ghost use Rattle.journal_scan.specs.Reading.{begins_at, read_all, groups_of};
ghost use Rattle.journal_scan.specs.Standing.{what_stands, groups_in};

/// What is computed from a slot's bytes stands in it, and nothing else does.
pub fn one_thing_stands()
    ensures stands { (slot : List ℕ) → Holds slot (what_stands slot) }
    ensures only { (slot : List ℕ) (what : Option Part) → Holds slot what → what ≡ what_stands slot }
{}

/// The groups that reading finds are the whole groups of the slots, and no others are. The next one has the next number, and is written behind the last.
pub fn finds_whole_groups()
    ensures groups { (first : ℕ) (slots : List (Option Part))
        → AreGroups first slots (groups_of first slots) }
    ensures only { (first : ℕ) (slots : List (Option Part)) (groups : List Written)
        → AreGroups first slots groups → groups ≡ groups_of first slots }
    ensures anywhere { (slot first : ℕ) (slots : List (Option Part))
        → (read_all (begins_at slot first) slots).groups ≡ groups_of first slots }
    ensures next_number { (slot first : ℕ) (slots : List (Option Part))
        → (read_all (begins_at slot first) slots).next_number ≡ first + length (groups_of first slots) }
    ensures next_slot { (slot first : ℕ) (slots : List (Option Part))
        → (read_all (begins_at slot first) slots).next_slot
        ≡ slot + length (flat_map slots_of (groups_of first slots)) }
{}

/// The slots of whole groups that were written one behind another are read as just these groups, and behind them reading goes on with the next number.
pub fn finds_what_was_written()
    ensures just { (first : ℕ) (groups : List Written) (slots : List (List ℕ))
        → AreWhole first groups → Hold slots (flat_map slots_of groups)
        → groups_in first slots ≡ groups }
    ensures more { (first : ℕ) (groups : List Written) (slots behind : List (List ℕ))
        → AreWhole first groups → Hold slots (flat_map slots_of groups)
        → groups_in first (slots ++ behind) ≡ groups ++ groups_in (first + length groups) behind }
{}

/// Slots may be read in pieces, and those behind the end of reading change nothing.
pub fn reads_in_pieces()
    ensures pieces { (scan : Scanned) (slots behind : List (Option Part))
        → read_all scan (slots ++ behind) ≡ read_all (read_all scan slots) behind }
    ensures ended { (scan : Scanned) (slots : List (Option Part)) → scan.stage ≡ Ended → read_all scan slots ≡ scan }
{}
