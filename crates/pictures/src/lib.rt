// The picture of a record that is drawn, as a list of parts: each is a shape, by its name, and the numbers that stand in it. The words of the shapes are the program's. A line is a rotation; from left to right 100 units are a tick, and the line is as long as the token may be away, and 4/100 of that high.
#![tactic(auto)]

pub(crate) mod line;
pub(crate) mod places;
pub(crate) mod records;
pub(crate) mod visits;

ghost use Rattle.std.specs.Prelude.{◌≡◌};
ghost use Rattle.pictures.specs.Parts.{begun, entry_part, is_last, room_behind, part_at, pen_after, line_end, no_pen};

use log_records::{Entry, VisitEntry};
use tallies::Drawn;
use text::phrases::Phrase;
use visits::DrawnVisit;

// The shapes. What each of them is in words stands in the program.
#[derive(Clone, Copy)]
pub enum Shape {
    // The beginning of a rotation's line, the line itself, and the mark of the bound at its end.
    RotationBegin,
    LineBegin,
    BoundMark,
    // A record, and what it says.
    VisitBegin,
    ThroughBegin,
    MarkBegin,
    // Where a visit begins; and where one begins of a station that is switched through.
    Tick,
    ThroughTick,
    // The station's number, where there is room for it and where there is none; of one that is switched through.
    Number,
    TightNumber,
    ThroughNumber,
    TightThroughNumber,
    // What a visit sent, the walk to the next station, and the limit from where its asynchronous part begins.
    Synchronous,
    Asynchronous,
    Walk,
    Limit,
    // The visit goes on behind the end of the line.
    Cut,
    // The named record.
    Frame,
    // The end of a record, and of a line.
    RecordEnd,
    RotationEnd,
}

// What every picture of a log is drawn by.
#[derive(Clone, Copy)]
pub struct Scene {
    // Within so many ticks the token is back: the length of a line.
    pub bound: u32,
    // The 2002 edition: the asynchronous part comes first.
    pub earlier: bool,
    // N, and w of each station.
    pub n: u32,
    pub w: [u32; 128],
    // The record that is named, from 1; 0: none.
    pub named: u64,
}

// Between two records.
#[derive(Clone, Copy)]
pub enum Pen {
    // No line has begun.
    Up,
    // On a line that has begun; from here on it has room for a number.
    Down(u64),
}

// A record that is drawn: what every picture is drawn by, the pen before the record, and the record.
#[derive(Clone, Copy)]
pub struct Drawing {
    pub scene: Scene,
    pub pen: Pen,
    pub drawn: Drawn,
}

// How many parts a record has; those that are not there among them.
pub const PART_COUNT: usize = 14;

// No line has begun.
pub fn pen_up() -> Pen
    ensures { result ≡ no_pen }
{
    Pen::Up
}

impl Pen {
    // Whether a line has begun.
    pub fn has_begun(self) -> bool
        ensures { result ≡ begun self }
    {
        matches!(self, Pen::Down(_))
    }
}

impl Drawing {
    // The visit that the record is.
    fn of_visit(self, visit: VisitEntry) -> DrawnVisit
        ensures { result ≡ record { scene = self.scene; pen = self.pen; lap = self.drawn.lap; through = self.drawn.through; visit = visit } }
    {
        DrawnVisit {
            scene: self.scene,
            pen: self.pen,
            lap: self.drawn.lap,
            through: self.drawn.through,
            visit,
        }
    }

    // The parts of a visit, or of a mark.
    fn entry_part(self, k: usize) -> Option<Phrase<Shape>>
        ensures { result ≡ entry_part self.scene self.pen self.drawn.through self.drawn.lap self.drawn.entry k }
    {
        match self.drawn.entry {
            Entry::Visit(visit) => self.of_visit(visit).part(k),
            Entry::Mark(m) => records::mark_part(self.scene, self.drawn.lap, m, k),
        }
    }

    // The last visit of a rotation ends its line.
    fn is_last(self) -> bool
        ensures { result ≡ is_last self.scene self.drawn.lap self.drawn.entry }
    {
        match self.drawn.entry {
            Entry::Visit(_) => u64::from(self.scene.n) <= u64::from(self.drawn.lap.turn) + 1,
            Entry::Mark(_) => false,
        }
    }

    // From where on there is room for a number behind the record: a mark has none.
    fn room_behind(self) -> u64
        ensures { result ≡ room_behind self.scene self.pen self.drawn.through self.drawn.lap self.drawn.entry }
    {
        match self.drawn.entry {
            Entry::Visit(visit) => self.of_visit(visit).room_past(),
            Entry::Mark(_) => line::room_of(self.pen),
        }
    }

    // Part k of the record, if it is there; behind the last of them there is none.
    #[tactic(auto, unfolding(crate::specs::Parts::part_at))]
    pub fn part_at(self, k: usize) -> Option<Phrase<Shape>>
        ensures { result ≡ part_at self.scene self.pen self.drawn k }
    {
        match k {
            0 => line::rotation_begin(self.pen, self.drawn.lap),
            1 => line::line_begin(self.scene, self.pen),
            2 => line::bound_mark(self.scene, self.pen),
            12 => Some(Phrase::bare(Shape::RecordEnd)),
            13 => line::rotation_end(self.is_last()),
            _ => self.entry_part(k),
        }
    }

    // The pen behind the record.
    #[tactic(auto, unfolding(crate::specs::Parts::pen_after))]
    pub fn pen_after(self) -> Pen
        ensures { result ≡ pen_after self.scene self.pen self.drawn }
    {
        if self.is_last() {
            return Pen::Up;
        }
        Pen::Down(self.room_behind())
    }
}

// Behind the last record: a line that has begun is ended.
#[tactic(auto, unfolding(crate::specs::Parts::line_end))]
pub fn line_end(pen: Pen) -> Option<Phrase<Shape>>
    ensures { result ≡ line_end pen }
{
    line::rotation_end(pen.has_begun())
}
