// An entry of a log: one visit, five numbers; or one mark, two.
#![tactic(auto)]

ghost use Rattle.std.specs.Prelude.{◌≡◌};
ghost use Rattle.log_records.specs.Visit.{blank_visit};
ghost use Rattle.log_records.specs.Mark.{blank_mark};

// A visit's field: its tag, its length, and how many bytes it has.
pub const VISIT_TAG: u8 = 16;

pub const VISIT_SIZE: u32 = 17;

pub const VISIT_LENGTH: usize = 20;

// A mark's field.
pub const MARK_TAG: u8 = 17;

pub const MARK_SIZE: u32 = 2;

pub const MARK_LENGTH: usize = 5;

// A visit of a log. Any numbers may stand here.
#[repr(C)]
#[derive(Clone, Copy)]
pub struct VisitEntry {
    // 0 to 255 in a log; in a good one below N.
    pub station: u32,
    // The recorder's tick counter when the visit started; it runs past its top to 0.
    pub start: u32,
    // How long asynchronous frames were allowed to start.
    pub limit: u32,
    pub synchronous: u32,
    pub asynchronous: u32,
}

// A mark of a log: a station was switched through, or is in again. Any numbers may stand here.
#[repr(C)]
#[derive(Clone, Copy)]
pub struct MarkEntry {
    // 0 to 255 in a log; in a good one below N.
    pub station: u32,
    // 1: switched through; 0: in again.
    pub mark: u32,
}

// An entry of a log.
#[derive(Clone, Copy)]
pub enum Entry {
    Visit(VisitEntry),
    Mark(MarkEntry),
}

// An entry that is handed out, and the place behind its field; the blank visit and 0 where no entry stands.
#[derive(Clone, Copy)]
pub struct NextEntry {
    pub entry: Entry,
    pub next: usize,
}

// The blank visit: every number 0.
pub fn blank_visit() -> VisitEntry
    ensures { result ≡ blank_visit }
{
    VisitEntry {
        station: 0,
        start: 0,
        limit: 0,
        synchronous: 0,
        asynchronous: 0,
    }
}

// The blank mark: both numbers 0.
pub fn blank_mark() -> MarkEntry
    ensures { result ≡ blank_mark }
{
    MarkEntry {
        station: 0,
        mark: 0,
    }
}
