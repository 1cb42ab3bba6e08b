// Laws of the images of lines.
ghost use Rattle.std.specs.Prelude.{◌≤◌, ℕ, List, length};
ghost use Rattle.catalog_lines.specs.declared.line.CatalogLine.{CatalogLine as Line};
ghost use Rattle.catalog_lines.specs.Lines.{IsCatalogLine};

/// The image of a line of the catalog fits the lesser class of lines, of 208 bytes.
pub fn catalog_lines_fit_the_lesser_class()
    ensures fits { (bytes : List ℕ) (line : Line) → IsCatalogLine bytes line → length bytes ≤ 208 }
{}
