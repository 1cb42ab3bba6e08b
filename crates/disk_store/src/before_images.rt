// What reads of committed lines ask of the members that a store has in memory.
ghost use Rattle.std.specs.Prelude.{◌≡◌, true, false, Some, None};
ghost use Rattle.disk_store.specs.BeforeImages.{its_own, seen_of};

use crate::{Member, MemberStage, Recovery};
use member_rooms::CommitTurn;
use rdb_types::{Dbkey, Tsn};
use reader_lines::HasBeforeImages;

impl Member {
    // Whether before-images of its transaction stand, and lines may bear its number.
    fn has_before_images(&self) -> bool
        ensures yes { result ≡ true → seen_of self.now ≡ Some (its_own self.now) }
        ensures no { result ≡ false → seen_of self.now ≡ None }
    {
        match self.stage {
            MemberStage::Committing(CommitTurn::Going(_)) => true,
            MemberStage::Dead {
                commits: _,
                recovery,
            } => match recovery {
                Recovery::Ending => false,
                Recovery::Judging => true,
                Recovery::Undoing { left: _ } => true,
                Recovery::Restoring => true,
            },
            _ => false,
        }
    }
}

impl HasBeforeImages for Member {
    ghost use Rattle.disk_store.specs.BeforeImages.{seen_of};

    ghost seen = { seen_of };

    fn bears(&self, tsn: Tsn) -> bool {
        self.has_before_images() && self.tsn.number == tsn.number
    }

    fn place(&self, key: Dbkey) -> Option<u32> {
        let keys = self.written.keys();
        for place in 0..keys.len() as u32 {
            if keys[place as usize] == key {
                return Some(place);
            }
        }
        None
    }
}
