// Moments of a rotation, where they stand in its line, and what goes from one to another.
ghost use Rattle.std.specs.Prelude.{◌≡◌, ◌+◌};
ghost use Rattle.pictures.specs.Parts.{held, placed, bar_of, line_of};

use crate::{Scene, Shape};
use text::phrases::Phrase;

// The moment so many ticks behind another. Those behind the end of the line are all one.
pub(crate) fn moment(scene: Scene, from: u64, ticks: u64) -> u64
    ensures { result ≡ held scene (from + ticks) }
{
    let top = u64::from(scene.bound) + 1;
    let begin = from.min(top);
    let more = ticks.min(top);
    (begin + more).min(top)
}

// Where a moment stands.
pub(crate) fn place(scene: Scene, moment: u64) -> u64
    ensures { result ≡ placed scene moment }
{
    100 * moment.min(u64::from(scene.bound))
}

// So many ticks from a moment on, as a bar.
pub(crate) fn bar(shape: Shape, scene: Scene, from: u64, ticks: u64) -> Phrase<Shape>
    ensures { result ≡ bar_of shape scene from ticks }
{
    let bound = u64::from(scene.bound);
    let begin = place(scene, from);
    let end = place(scene, moment(scene, from, ticks));
    Phrase::four(shape, begin, bound, end - begin, 2 * bound)
}

// And as a line at a height.
pub(crate) fn line(shape: Shape, scene: Scene, height: u32, from: u64, ticks: u64) -> Phrase<Shape>
    ensures { result ≡ line_of shape scene height from ticks }
{
    let y = u64::from(height) * u64::from(scene.bound);
    let begin = place(scene, from);
    let end = place(scene, moment(scene, from, ticks));
    Phrase::four(shape, begin, y, end, y)
}
