// Each step keeps the facts: a slot written, a barrier that answered Ok.
ghost use Rattle.std.specs.Prelude.{◌≡◌, ◌≢◌, ◌≤◌, ◌<◌, ◌+◌, ◌-◌, ℕ, List, length, slice_get, Some, None};
ghost use Rattle.rdb_types.specs.declared.file.FileId.{FileId};
ghost use Rattle.rdb_types.specs.declared.file.FileKind.TheVariants.{Root as RootKind, Area, Ruj, Aij};
ghost use Rattle.journal_reading.specs.rdb_outside.Disk.{Adds, Pending, IsStable};
ghost use Rattle.new_database.specs.root_file.declared.Root.{Root};
ghost use Rattle.new_database.specs.root_file.Root.{IsRoot};
ghost use Rattle.ruj_journal.specs.declared.entry.RujEntry.{RujEntry};
ghost use Rattle.ruj_journal.specs.Entry.{IsEntry};
ghost use Rattle.new_database.specs.aij_journal.declared.part.AijPart.{AijPart};
ghost use Rattle.new_database.specs.aij_journal.Header.{IsHeader};
ghost use Rattle.journal_reading.specs.journal_scan.Standing.{what_stands};
ghost use Rattle.new_database.specs.Maker.{root_file, aij_file};
ghost use Rattle.stable_lines.specs.Slots.{area_file, ruj_file, IsMember, IsAreaFile, line_at, named, Undo, entry_at};
ghost use Rattle.stable_lines.specs.Journal.{next_number, next_slot, commit_of};
ghost use Rattle.stable_lines.specs.Image.{IsNoneOf};
ghost use Rattle.stable_lines.specs.Kept.{IsRujHeader};
ghost use Rattle.stable_lines.specs.Progress.{Open, Flight, Progress, begun, saved, without, flying, landed, fallen, begun_anew, settled};
ghost use Rattle.stable_lines.specs.Facts.{Facts, RootStands};
ghost use Rattle.stable_lines.specs.Steps.{IsReady, MayBeSpace, NamesNone};

use journal_reading::Disk;

/// A write keeps the facts, whether it answered Ok or failed: they are the facts of the same progress.
pub fn a_write_keeps_the_facts<D: Disk>(before: &D, after: &D)
    // A slot of a snapshot file, a backup, or behind the root.
    ensures other { (now : Progress) (file : FileId) (slot : ℕ) (bytes : List ℕ)
        → Adds file slot bytes (D.view before.now) (D.view after.now)
        → file.kind ≢ Ruj → file.kind ≢ Area → file.kind ≢ Aij → (file.kind ≡ RootKind → slot ≢ 0)
        → Facts (Pending (D.view before.now)) now → Facts (Pending (D.view after.now)) now }

    // A root with a ceiling above the numbers drawn.
    ensures root { (now : Progress) (bytes : List ℕ)
        → Adds root_file 0 bytes (D.view before.now) (D.view after.now)
        → RootStands (Pending (D.view before.now)) now bytes
        → Facts (Pending (D.view before.now)) now → Facts (Pending (D.view after.now)) now }

    // A space page.
    ensures space { (now : Progress) (file number : ℕ) (bytes : List ℕ)
        → Adds (area_file file) (number - 1) bytes (D.view before.now) (D.view after.now)
        → IsAreaFile file → MayBeSpace (Pending (D.view before.now)) now file number bytes
        → Facts (Pending (D.view before.now)) now → Facts (Pending (D.view after.now)) now }

    // A header that names the member's open transaction.
    ensures named_header { (now : Progress) (member : ℕ) (transaction : Open) (bytes : List ℕ)
        → Adds (ruj_file member) 0 bytes (D.view before.now) (D.view after.now)
        → now.going member ≡ Some transaction → IsRujHeader bytes → named bytes ≡ transaction.tsn.number
        → now.former ≡ None
        → ((content : List ℕ) (root : Root) → Pending (D.view before.now) root_file 0 content
        → IsRoot content root → root.state ≢ 3)
        → Facts (Pending (D.view before.now)) now → Facts (Pending (D.view after.now)) now }

    // A header that names none, of a member without an open transaction.
    ensures closed_header { (now : Progress) (member : ℕ) (bytes : List ℕ)
        → Adds (ruj_file member) 0 bytes (D.view before.now) (D.view after.now)
        → now.going member ≡ None → IsRujHeader bytes → named bytes ≡ 0 → 1 ≤ now.next_tsn
        → Facts (Pending (D.view before.now)) now → Facts (Pending (D.view after.now)) now }

    // An entry of the member's open transaction, behind those that stand, of a line that has none there.
    ensures entry { (now : Progress) (member slot : ℕ) (transaction : Open) (e : RujEntry) (bytes : List ℕ)
        → Adds (ruj_file member) slot bytes (D.view before.now) (D.view after.now)
        → now.going member ≡ Some transaction → IsEntry bytes e → e.tsn ≡ transaction.tsn
        → IsNoneOf e.key transaction.entries → length transaction.entries < slot
        → Facts (Pending (D.view before.now)) now → Facts (Pending (D.view after.now)) now }

    // An after-image of a transaction that is about to commit.
    ensures part { (now : Progress) (slot : ℕ) (bytes : List ℕ)
        → Adds aij_file slot bytes (D.view before.now) (D.view after.now)
        → next_slot now.journal ≤ slot
        → ((part : AijPart) → what_stands bytes ≡ Some part → part.line ≡ None
        → part.number < next_number now.journal)
        → now.former ≡ None → now.flight ≡ None
        → Facts (Pending (D.view before.now)) now → Facts (Pending (D.view after.now)) now }

    // The commit slot of the group in flight.
    ensures commit { (now : Progress) (slot : ℕ) (bytes : List ℕ) (flight : Flight)
        → Adds aij_file slot bytes (D.view before.now) (D.view after.now)
        → now.flight ≡ Some flight → slot ≡ next_slot now.journal + length flight.group.lines
        → what_stands bytes ≡ commit_of flight.group
        → Facts (Pending (D.view before.now)) now → Facts (Pending (D.view after.now)) now }

    // The header of a journal that is begun anew.
    ensures journal { (now : Progress) (bytes : List ℕ)
        → Adds aij_file 0 bytes (D.view before.now) (D.view after.now)
        → IsHeader bytes now.journal.first
        → Facts (Pending (D.view before.now)) now → Facts (Pending (D.view after.now)) now }
{}

/// Behind a barrier only the content is left. What stands there allows each step of the transactions.
pub fn a_barrier_gains<D: Disk>(disk: &D)
    requires stable { IsStable (D.view disk.now) }
    // One more entry stands: its line may be changed on its page from now on.
    ensures saves { (now : Progress) → Facts (Pending (D.view disk.now)) now
        → (member : ℕ) (transaction : Open) (undo : Undo) → now.going member ≡ Some transaction
        → IsEntry ((D.view disk.now).content (ruj_file member) (length transaction.entries + 1))
        (entry_at transaction.tsn (length transaction.entries + 1) undo)
        → named ((D.view disk.now).content (ruj_file member) 0) ≡ transaction.tsn.number
        → ((flight : Flight) → now.flight ≡ Some flight → flight.member ≢ member)
        → Facts (Pending (D.view disk.now)) (saved member transaction undo now) }

    // A group whose lines and slots stand takes off: its commit slot may be written.
    ensures takes_off { (now : Progress) → Facts (Pending (D.view disk.now)) now
        → (flight : Flight) → now.flight ≡ None → now.former ≡ None
        → IsReady now (D.view disk.now).content flight
        → Facts (Pending (D.view disk.now)) (flying flight now) }

    // Its commit slot stands: it is committed.
    ensures lands { (now : Progress) → Facts (Pending (D.view disk.now)) now
        → (flight : Flight) → now.flight ≡ Some flight
        → what_stands ((D.view disk.now).content aij_file (next_slot now.journal + length flight.group.lines))
        ≡ commit_of flight.group
        → Facts (Pending (D.view disk.now)) (landed flight now) }

    // It doesn't stand: nothing flies any more.
    ensures falls { (now : Progress) → Facts (Pending (D.view disk.now)) now
        → (flight : Flight) → now.flight ≡ Some flight
        → what_stands ((D.view disk.now).content aij_file (next_slot now.journal + length flight.group.lines))
        ≢ commit_of flight.group
        → Facts (Pending (D.view disk.now)) (fallen now) }

    // No line of a transaction bears it any more: it has ended as undone.
    ensures undone { (now : Progress) → Facts (Pending (D.view disk.now)) now
        → (member : ℕ) (transaction : Open) → now.going member ≡ Some transaction
        → ((flight : Flight) → now.flight ≡ Some flight → flight.member ≢ member)
        → ((index : ℕ) (undo : Undo) → slice_get transaction.entries index ≡ Some undo
        → (line_at (D.view disk.now).content undo.key).tsn.number ≢ transaction.tsn.number)
        → Facts (Pending (D.view disk.now)) (without member now) }

    // The new header of the journal stands.
    ensures settles { (now : Progress) → Facts (Pending (D.view disk.now)) now
        → IsHeader ((D.view disk.now).content aij_file 0) now.journal.first
        → Facts (Pending (D.view disk.now)) (settled now) }
{}

/// What is begun without a device call.
pub fn beginnings_keep_the_facts<D: Disk>(disk: &D)
    // A transaction draws the next number, where each root that a crash may leave has its ceiling above.
    ensures transaction { (now : Progress) → Facts (Pending (D.view disk.now)) now
        → (member : ℕ) → IsMember member → now.going member ≡ None → 1 ≤ now.next_tsn
        → ((content : List ℕ) (root : Root) → Pending (D.view disk.now) root_file 0 content
        → IsRoot content root → now.next_tsn < root.ceiling)
        → Facts (Pending (D.view disk.now)) (begun member now) }

    // The journal is to be begun anew with a number above its groups, while no header names a transaction.
    ensures journal { (now : Progress) → Facts (Pending (D.view disk.now)) now
        → (first : ℕ) → next_number now.journal ≤ first → NamesNone (Pending (D.view disk.now))
        → ((member : ℕ) → IsMember member
        → (header : List ℕ) × Pending (D.view disk.now) (ruj_file member) 0 header)
        → now.former ≡ None → now.flight ≡ None
        → Facts (Pending (D.view disk.now)) (begun_anew first now) }
{}
