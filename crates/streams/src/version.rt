// The version of Olivastrum, here and nowhere else in the sources.
ghost use Rattle.std.specs.Prelude.{◌∷◌, []};
ghost use Rattle.text.specs.Pages.{PutsWithin};

use text::Page;

// Puts the version into a page.
pub fn put(page: &mut Page)
    ensures { PutsWithin 20 page.old (48 ∷ 46 ∷ 49 ∷ 54 ∷ 46 ∷ 53 ∷ []) page.new }
{
    page.put_short(b"0.16.5");
}
