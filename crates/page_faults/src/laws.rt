// What the lists of faulty pages say.
ghost use Rattle.std.specs.Prelude.{◌≡◌, ◌≤◌, ℕ, List, []};
ghost use Rattle.area_files.specs.Areas.{IsPage};
ghost use Rattle.rdb_outside.specs.Disk.{Image};
ghost use Rattle.rmu_texts.specs.declared.faults.VerifyFault.{VerifyFault};
ghost use Rattle.page_faults.specs.declared.checks.PageCheck.{PageCheck};
ghost use Rattle.page_faults.specs.Checks.{IsFault, IsFine};
ghost use Rattle.page_faults.specs.Listing.{ListsAll};

/// Where nothing is listed, each page of each area file is fine.
pub fn nothing_listed()
    ensures { (image : Image) (asked : PageCheck) → ListsAll image asked []
        → (file page : ℕ) → 1 ≤ file → file ≤ 3 → IsPage page → IsFine image asked file page }
{}

/// A page is a fault or fine, and an image has one list.
pub fn listed_once()
    ensures apart { (image : Image) (asked : PageCheck) (file page : ℕ)
        → IsFault image asked file page → IsFine image asked file page → ⊥ }
    ensures one { (image : Image) (asked : PageCheck) (a b : List VerifyFault)
        → ListsAll image asked a → ListsAll image asked b → a ≡ b }
{}
