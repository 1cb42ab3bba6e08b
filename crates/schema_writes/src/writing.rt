// Several lines put into a view.
ghost use Rattle.std.specs.Prelude.{◌≡◌, ℕ, true, List, OnOk};
ghost use Rattle.std.specs.List.{AllByRecursion};
ghost use Rattle.line_view.specs.Knowledge.{Lines};
ghost use Rattle.line_view.specs.Writes.{laid_all};
ghost use Rattle.catalog_definitions.specs.Leaving.{erasures};
ghost use Rattle.statement_view.specs.Over.{Stands, laid_over};
ghost use Rattle.statement_view.specs.Areas.{is_among, WritesOf};

use line_view::Write;
use rdb_types::{Dbkey, Image, NoMemory};
use statement_view::Changed;

fn copied_image(image: &Option<Image>) -> Option<Image>
    ensures { result ≡ image.now }
{
    match image {
        Some(image) => Some(Image::from_bytes(image.bytes())),
        None => None,
    }
}

/// Puts writes into the view, in their order.
pub fn put_all(view: &mut Changed<'_>, writes: &[Write]) -> Result<(), NoMemory>
    ensures stands { OnOk result ((first : Lines) → Stands view.old first → Stands view.new first) }
    ensures laid { OnOk result ((first : Lines) → Stands view.old first → laid_over view.new.lines first ≡ laid_all writes.now (laid_over view.old.lines first)) }
    ensures areas { OnOk result ((areas : List ℕ) → AllByRecursion (λ w. is_among areas (w.key).area ≡ true) writes.now → WritesOf areas view.old view.new) }
    ensures known { view.new.base ≡ view.old.base }
{
    for write in writes {
        view.put(write.key, copied_image(&write.image))?;
    }
    Ok(())
}

/// Erases lines in the view.
pub(crate) fn erase_all(view: &mut Changed<'_>, keys: &[Dbkey]) -> Result<(), NoMemory>
    ensures stands { OnOk result ((first : Lines) → Stands view.old first → Stands view.new first) }
    ensures laid { OnOk result ((first : Lines) → Stands view.old first → laid_over view.new.lines first ≡ laid_all (erasures keys.now) (laid_over view.old.lines first)) }
    ensures areas { OnOk result ((areas : List ℕ) → AllByRecursion (λ k. is_among areas k.area ≡ true) keys.now → WritesOf areas view.old view.new) }
    ensures known { view.new.base ≡ view.old.base }
{
    for key in keys {
        view.put(*key, None)?;
    }
    Ok(())
}
