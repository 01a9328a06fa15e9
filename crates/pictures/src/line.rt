// The line of a rotation: its beginning, its end, and the room that it has for numbers.
ghost use Rattle.std.specs.Prelude.{◌≡◌};
ghost use Rattle.pictures.specs.Parts.{rotation_begin, line_begin, bound_mark, rotation_end, room_of};

use crate::{Pen, Scene, Shape};
use tallies::Lap;
use text::phrases::Phrase;

// Where no line has begun, the rotation.
#[tactic(auto, unfolding(crate::specs::Parts::rotation_begin))]
pub(crate) fn rotation_begin(pen: Pen, lap: Lap) -> Option<Phrase<Shape>>
    ensures { result ≡ rotation_begin pen lap }
{
    if pen.has_begun() {
        return None;
    }
    let rotation = std::num::wrapping_add_u64(lap.rotation, 1);
    Some(Phrase::one(Shape::RotationBegin, rotation))
}

// Its line, as long as the bound and 4/100 of that high.
#[tactic(auto, unfolding(crate::specs::Parts::line_begin))]
pub(crate) fn line_begin(scene: Scene, pen: Pen) -> Option<Phrase<Shape>>
    ensures { result ≡ line_begin scene pen }
{
    if pen.has_begun() {
        return None;
    }
    let bound = u64::from(scene.bound);
    Some(Phrase::two(Shape::LineBegin, 100 * bound, 4 * bound))
}

// The mark of the bound at its end.
#[tactic(auto, unfolding(crate::specs::Parts::bound_mark))]
pub(crate) fn bound_mark(scene: Scene, pen: Pen) -> Option<Phrase<Shape>>
    ensures { result ≡ bound_mark scene pen }
{
    if pen.has_begun() {
        return None;
    }
    let bound = u64::from(scene.bound);
    let end = 100 * bound;
    Some(Phrase::three(Shape::BoundMark, end, end, 4 * bound))
}

// The end of a line, where one ends.
#[tactic(auto, unfolding(crate::specs::Parts::rotation_end))]
pub(crate) fn rotation_end(last: bool) -> Option<Phrase<Shape>>
    ensures { result ≡ rotation_end last }
{
    if last {
        return Some(Phrase::bare(Shape::RotationEnd));
    }
    None
}

// From where on there is room; a line that begins has room everywhere.
pub(crate) fn room_of(pen: Pen) -> u64
    ensures { result ≡ room_of pen }
{
    match pen {
        Pen::Up => 0,
        Pen::Down(room) => room,
    }
}
