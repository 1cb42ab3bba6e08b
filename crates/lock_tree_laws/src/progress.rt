ghost use Rattle.std.specs.Prelude.{◌≡◌, ◌+◌, ℕ, List, true, None, Some};
ghost use Rattle.rdb_types.specs.declared.node.Node.{Node};
ghost use Rattle.lock_needs.specs.declared.party.OpenWant.{OpenWant};
ghost use Rattle.lock_needs.specs.Nodes.{is_on, above_of};
ghost use Rattle.lock_tree_laws.specs.LockTable.{granted_at};
ghost use Rattle.lock_tree_laws.specs.Parties.{unasked, asked_at};
ghost use Rattle.lock_tree_laws.specs.Forest.{State, IsWhole, opened_of, party_of};
ghost use Rattle.lock_tree_laws.specs.Progress.{is_spare, measure, IsLess, Falls, IsServedAt, LeavesOthers};

/// A measure falls, so no lock goes to and fro: where a lock that was stronger than it had to be comes down, and where an open want
/// is asked at its node, comes to the next one, or ends. It can't fall for ever.
pub fn the_measure_falls()
    ensures served { (s r : State) (owner : ℕ) (n : Node) → IsWhole s → IsWhole r → ((u : ℕ) → party_of r.parties u ≡ party_of s.parties u) → IsServedAt owner (party_of s.parties owner) n s.table r.table → is_spare (granted_at s.table owner) (party_of s.parties owner) n ≡ true → Falls owner s r }
    ensures asked { (s r : State) (owner : ℕ) (w : OpenWant) → LeavesOthers owner s r → opened_of s owner ≡ Some (unasked w) → opened_of r owner ≡ Some (asked_at w w.here) → Falls owner s r }
    ensures next { (s r : State) (owner : ℕ) (w v : OpenWant) → LeavesOthers owner s r → opened_of s owner ≡ Some w → opened_of r owner ≡ Some v → v ≡ unasked v → v.need ≡ w.need → above_of v.here ≡ Some w.here → is_on v.here v.need.node ≡ true → Falls owner s r }
    ensures ended { (s r : State) (owner : ℕ) (w : OpenWant) → LeavesOthers owner s r → opened_of s owner ≡ Some w → opened_of r owner ≡ None → Falls owner s r }
    ensures not_for_ever { (us : List ℕ) (states : ℕ → State) → ((i : ℕ) → IsLess (measure us (states (i + 1))) (measure us (states i))) → ⊥ }
{}
