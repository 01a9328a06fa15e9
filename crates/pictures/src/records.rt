// What is drawn of a mark, and the frame of the named record.
ghost use Rattle.std.specs.Prelude.{◌≡◌};
ghost use Rattle.pictures.specs.Parts.{number_of, mark_begin, frame, mark_part};

use crate::{Scene, Shape, places};
use log_records::MarkEntry;
use tallies::Lap;
use text::phrases::Phrase;

// The number of a record behind those of a lap.
pub(crate) fn number_of(lap: Lap) -> u64
    ensures { result ≡ number_of lap }
{
    std::num::wrapping_add_u64(lap.records, 1)
}

// The beginning of a mark, with all that its record says.
fn mark_begin(lap: Lap, m: MarkEntry) -> Phrase<Shape>
    ensures { result ≡ mark_begin lap m }
{
    let number = number_of(lap);
    let station = u64::from(m.station);
    let mark = u64::from(m.mark);
    Phrase::three(Shape::MarkBegin, number, station, mark)
}

// The frame of the named record: from where it begins to a moment, at least 3 bounds wide, and always within the line.
#[tactic(auto, unfolding(crate::specs::Parts::frame))]
pub(crate) fn frame(scene: Scene, lap: Lap, to: u64) -> Option<Phrase<Shape>>
    ensures { result ≡ frame scene lap to }
{
    if number_of(lap) != scene.named {
        return None;
    }
    let bound = u64::from(scene.bound);
    let begin = places::place(scene, lap.elapsed).min(97 * bound);
    let width = places::place(scene, to).saturating_sub(begin);
    let wide = width.max(3 * bound);
    Some(Phrase::four(Shape::Frame, begin, 0, wide, 4 * bound))
}

// The parts of a mark, which is drawn only where it is named.
#[tactic(auto, unfolding(crate::specs::Parts::mark_part))]
pub(crate) fn mark_part(scene: Scene, lap: Lap, m: MarkEntry, k: usize) -> Option<Phrase<Shape>>
    ensures { result ≡ mark_part scene lap m k }
{
    match k {
        3 => Some(mark_begin(lap, m)),
        11 => frame(scene, lap, lap.elapsed),
        _ => None,
    }
}
