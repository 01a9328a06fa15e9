// What is drawn of a visit: where it begins, its station's number, what it sent, its walk and its limit.
ghost use Rattle.std.specs.Prelude.{◌≡◌, ◌+◌, cond};
ghost use Rattle.units.specs.Places.{at};
ghost use Rattle.units.specs.Small.{Same};
ghost use Rattle.pictures.specs.Parts.{held, synchronous_at, asynchronous_at, walk_at, end_at, limit_at, begin_shape, visit_begin, tick, is_shown, is_roomy, room_past, number_shape, station_number, synchronous_bar, asynchronous_bar, walk_line, limit_line, cut_mark, visit_part};

use crate::{Pen, Scene, Shape, line, places, records};
use log_records::VisitEntry;
use tallies::Lap;
use text::phrases::Phrase;

// A visit that is drawn: what every picture is drawn by, the pen before it, how far the records before it have come, whether its station is switched through, and what its record says.
#[derive(Clone, Copy)]
pub(crate) struct DrawnVisit {
    pub scene: Scene,
    pub pen: Pen,
    pub lap: Lap,
    pub through: bool,
    pub visit: VisitEntry,
}

// ---- moments, as far as the line asks for them

impl DrawnVisit {
    // So many ticks behind where it begins.
    fn moment(self, ticks: u64) -> u64
        ensures { result ≡ held self.scene (self.lap.elapsed + ticks) }
    {
        places::moment(self.scene, self.lap.elapsed, ticks)
    }

    // What it sent in all.
    fn sent(self) -> u64
        ensures { result ≡ self.visit.synchronous + self.visit.asynchronous }
    {
        u64::from(self.visit.synchronous) + u64::from(self.visit.asynchronous)
    }

    // The ticks of its walk.
    fn walk(self) -> u64
        ensures { Same (at self.scene.w self.visit.station) result }
    {
        tallies::walk_of(&self.scene.w, self.visit.station)
    }

    // Where its synchronous part begins, in the mode's order.
    #[tactic(auto, unfolding(crate::specs::Parts::synchronous_at))]
    fn synchronous_at(self) -> u64
        ensures { result ≡ held self.scene (synchronous_at self.scene self.lap self.visit) }
    {
        if self.scene.earlier {
            return self.moment(u64::from(self.visit.asynchronous));
        }
        self.moment(0)
    }

    // Where its asynchronous part begins.
    #[tactic(auto, unfolding(crate::specs::Parts::asynchronous_at))]
    fn asynchronous_at(self) -> u64
        ensures { result ≡ held self.scene (asynchronous_at self.scene self.lap self.visit) }
    {
        if self.scene.earlier {
            return self.moment(0);
        }
        self.moment(u64::from(self.visit.synchronous))
    }

    // Where its walk begins.
    fn walk_at(self) -> u64
        ensures { result ≡ held self.scene (walk_at self.lap self.visit) }
    {
        self.moment(self.sent())
    }

    // Where it ends.
    fn end_at(self) -> u64
        ensures { result ≡ held self.scene (end_at self.scene self.lap self.visit) }
    {
        self.moment(self.sent() + self.walk())
    }

    // Where its limit ends.
    fn limit_at(self) -> u64
        ensures { result ≡ held self.scene (limit_at self.scene self.lap self.visit) }
    {
        let limit = u64::from(self.visit.limit);
        places::moment(self.scene, self.asynchronous_at(), limit)
    }
}

// ---- where it begins

// A station that is switched through looks different.
#[tactic(auto, unfolding(crate::specs::Parts::begin_shape))]
fn begin_shape(through: bool) -> Shape
    ensures { result ≡ begin_shape through }
{
    if through {
        Shape::ThroughBegin
    } else {
        Shape::VisitBegin
    }
}

// The shape of its station's number.
#[tactic(auto, unfolding(crate::specs::Parts::number_shape))]
fn number_shape(through: bool, roomy: bool) -> Shape
    ensures { result ≡ number_shape through roomy }
{
    if through {
        if roomy {
            return Shape::ThroughNumber;
        }
        return Shape::TightThroughNumber;
    }
    if roomy {
        return Shape::Number;
    }
    Shape::TightNumber
}

impl DrawnVisit {
    // The beginning of the visit, with all that its record says.
    fn visit_begin(self) -> Phrase<Shape>
        ensures { result ≡ visit_begin self.through self.lap self.visit }
    {
        let number = records::number_of(self.lap);
        let form = begin_shape(self.through);
        let visit = self.visit;
        let station = u64::from(visit.station);
        let start = u64::from(visit.start);
        let limit = u64::from(visit.limit);
        let synchronous = u64::from(visit.synchronous);
        let asynchronous = u64::from(visit.asynchronous);
        Phrase {
            form,
            numbers: [number, station, start, limit, synchronous, asynchronous],
        }
    }

    // Where it begins; of a station that is switched through over the whole height.
    #[tactic(auto, unfolding(crate::specs::Parts::tick))]
    fn tick(self) -> Phrase<Shape>
        ensures { result ≡ tick self.scene self.through self.lap }
    {
        let bound = u64::from(self.scene.bound);
        let begin = places::place(self.scene, self.lap.elapsed);
        if self.through {
            return Phrase::three(Shape::ThroughTick, begin, begin, 4 * bound);
        }
        Phrase::four(Shape::Tick, begin, bound, begin, 3 * bound)
    }

    // Its station's number, above it.
    fn station_number(self) -> Phrase<Shape>
        ensures { result ≡ station_number self.scene self.pen self.through self.lap self.visit }
    {
        let shape = number_shape(self.through, self.is_roomy());
        let begin = places::place(self.scene, self.lap.elapsed);
        let bound = u64::from(self.scene.bound);
        let station = u64::from(self.visit.station);
        Phrase::four(shape, begin, bound, bound, station)
    }
}

// ---- room for its number

impl DrawnVisit {
    // Whether its number is to be shown: something was sent, or its station is switched through.
    fn is_shown(self) -> bool
        ensures { result ≡ is_shown self.through self.visit }
    {
        self.through | (0 < self.visit.synchronous) | (0 < self.visit.asynchronous)
    }

    // Whether it is, and there is room for it where the visit begins.
    fn is_roomy(self) -> bool
        ensures { result ≡ is_roomy self.scene self.pen (is_shown self.through self.visit) self.lap }
    {
        let room = line::room_of(self.pen);
        let begin = places::place(self.scene, self.lap.elapsed);
        self.is_shown() & (room <= begin)
    }

    // From where on there is room behind it.
    #[tactic(auto, unfolding(crate::specs::Parts::room_past))]
    pub(crate) fn room_past(self) -> u64
        ensures { result ≡ room_past self.scene self.pen (is_shown self.through self.visit) self.lap }
    {
        if self.is_roomy() {
            return places::place(self.scene, self.lap.elapsed) + 3 * u64::from(self.scene.bound);
        }
        line::room_of(self.pen)
    }
}

// ---- what it sent, the walk, the limit, and the end of the line

impl DrawnVisit {
    // What it sent, asynchronously or synchronously.
    fn bar(self, asynchronous: bool) -> Phrase<Shape>
        ensures { result ≡ cond asynchronous (asynchronous_bar self.scene self.lap self.visit) (synchronous_bar self.scene self.lap self.visit) }
    {
        let visit = self.visit;
        if asynchronous {
            let from = self.asynchronous_at();
            let ticks = u64::from(visit.asynchronous);
            return places::bar(Shape::Asynchronous, self.scene, from, ticks);
        }
        let from = self.synchronous_at();
        let ticks = u64::from(visit.synchronous);
        places::bar(Shape::Synchronous, self.scene, from, ticks)
    }

    // The walk to the next station.
    fn walk_line(self) -> Phrase<Shape>
        ensures { result ≡ walk_line self.scene self.lap self.visit }
    {
        places::line(Shape::Walk, self.scene, 2, self.walk_at(), self.walk())
    }

    // The limit, from where the asynchronous part begins.
    fn limit_line(self) -> Phrase<Shape>
        ensures { result ≡ limit_line self.scene self.lap self.visit }
    {
        let from = self.asynchronous_at();
        let ticks = u64::from(self.visit.limit);
        places::line(Shape::Limit, self.scene, 3, from, ticks)
    }

    // The mark of a visit that ends behind the end of the line, or whose limit does.
    #[tactic(auto, using(crate::proofs::PlacedLaws::past, crate::proofs::PlacedLaws::within), unfolding(crate::specs::Parts::cut_mark))]
    fn cut_mark(self) -> Option<Phrase<Shape>>
        ensures { result ≡ cut_mark self.scene self.lap self.visit }
    {
        let bound = u64::from(self.scene.bound);
        let end = self.end_at();
        let limit = self.limit_at();
        let far = end.max(limit);
        if bound < far {
            return Some(Phrase {
                form: Shape::Cut,
                numbers: [98 * bound, bound, 3 * bound, 100 * bound, 2 * bound, 0],
            });
        }
        None
    }

    // Part k of the visit: what was sent stands in the mode's order.
    #[tactic(auto, using(crate::proofs::PlacedLaws::frame_held), unfolding(crate::specs::Parts::visit_part, crate::specs::Parts::visit_behind, crate::specs::Parts::first_bar, crate::specs::Parts::second_bar))]
    pub(crate) fn part(self, k: usize) -> Option<Phrase<Shape>>
        ensures { result ≡ visit_part self.scene self.pen self.through self.lap self.visit k }
    {
        let earlier = self.scene.earlier;
        match k {
            3 => Some(self.visit_begin()),
            4 => Some(self.tick()),
            5 => Some(self.station_number()),
            6 => Some(self.bar(earlier)),
            7 => Some(self.bar(!earlier)),
            8 => Some(self.walk_line()),
            9 => Some(self.limit_line()),
            10 => self.cut_mark(),
            11 => records::frame(self.scene, self.lap, self.end_at()),
            _ => None,
        }
    }
}
