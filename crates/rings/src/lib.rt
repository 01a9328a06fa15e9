// The ring by value: opening, the test of soundness, visits, handing in, and stations switched through.
#![tactic(auto)]

mod frames;
pub mod in_place;
mod marking;
mod messages;
mod opening;
mod soundness;
mod steps;
mod timing;
mod view;

ghost use Rattle.std.specs.Prelude.{◌≡◌};
ghost use Rattle.rings.specs.Bounds.{Placed};
ghost use Rattle.rings.specs.Opening.{opening};
ghost use Rattle.rings.specs.Sound.{is_sound};
ghost use Rattle.rings.specs.Steps.{visited};
ghost use Rattle.rings.specs.HandingIn.{handed_in};
ghost use Rattle.rings.specs.Marking.{marked, unmarked};

use plans::Alloc;
use sets::Set;
use units::{Station, Ticks, numbers};

// A ring's whole state. Only the first N places of each array are ever looked at or raised.
#[repr(C)]
#[derive(Clone, Copy)]
pub struct Ring {
    pub set: Set,
    pub alloc: Alloc,
    // TRT, the time since the station's last token arrival, in the 2002 edition since its last synchronous part began; in an FDDI ring the station's timer.
    pub trt: [u32; 128],
    // FDDI's late counts. A timely-token ring neither looks at them nor changes them.
    pub late: [u32; 128],
    // s, what the station sent of synchronous traffic at its last visit.
    pub sent: [u32; 128],
    // What remains of the held message; 0: none is held.
    pub rest: [u32; 128],
    // The station that has the token.
    pub token: u32,
    // The held message's arrival, and after it the last accepted one.
    pub arrival: [u64; 128],
    // A message was ever accepted there: 0 is no, anything else yes.
    pub had: [u8; 128],
    // The station is switched through: 0 is no, anything else yes.
    pub mark: [u8; 128],
    // The start of the station's last synchronous part, which is that of its last visit but in the 2002 edition; there was one where the station's number is below visits.
    pub last: [u64; 128],
    pub clock: u64,
    pub visits: u64,
    // u, the sum of S − s. An FDDI ring neither looks at it nor changes it.
    pub unused: u64,
}

// A ring's timers: TRT or timer and late count of each station, and u.
#[derive(Clone, Copy)]
pub struct Timers {
    pub trt: [u32; 128],
    pub late: [u32; 128],
    pub unused: u64,
}

// What a visit asks for: so many frames of one length.
#[repr(C)]
#[derive(Clone, Copy)]
pub struct Ask {
    pub frames: u32,
    pub length: u32,
}

// A message to hand in.
#[repr(C)]
#[derive(Clone, Copy)]
pub struct Message {
    pub station: Station,
    pub length: Ticks,
    pub arrival: Ticks,
}

// What happened at a visit.
#[repr(C)]
#[derive(Clone, Copy)]
pub struct VisitRecord {
    pub station: Station,
    pub start: Ticks,
    pub trt: Ticks,
    pub limit: Ticks,
    pub synchronous: Ticks,
    pub asynchronous: Ticks,
    // Finish and margin of the message that was completed; both 0 where none was.
    pub finish: Ticks,
    pub margin: i64,
    // 1: a message was completed. 0: none was.
    pub completed: u8,
}

// A visit's answer: what happened, and the number, 0 or a refusal with the blank record.
#[repr(C)]
#[derive(Clone, Copy)]
pub struct VisitAnswer {
    pub record: VisitRecord,
    pub number: u8,
}

// The ring after a visit, and the visit's answer.
#[repr(C)]
#[derive(Clone, Copy)]
pub struct Visited {
    pub ring: Ring,
    pub answer: VisitAnswer,
}

// What a marking answers: what it took back, and the number, 0 or a refusal with nothing taken back.
#[repr(C)]
#[derive(Clone, Copy)]
pub struct MarkAnswer {
    // What remained of the message that was withdrawn, and its arrival; both 0 where none was.
    pub rest: Ticks,
    pub arrival: Ticks,
    // 1: a message was withdrawn. 0: none was.
    pub withdrawn: u8,
    pub number: u8,
}

// The ring after a marking, and the marking's answer.
#[repr(C)]
#[derive(Clone, Copy)]
pub struct MarkedRing {
    pub ring: Ring,
    pub answer: MarkAnswer,
}

// The ring after a handing in, or after a mark was taken off, and the number.
#[repr(C)]
#[derive(Clone, Copy)]
pub struct Taken {
    pub ring: Ring,
    pub number: u8,
}

// The opened ring and 0, or the blank ring and the refusal.
#[repr(C)]
#[derive(Clone, Copy)]
pub struct Opened {
    pub ring: Ring,
    pub number: u8,
}

// A ring's state is sound: none of the lines of 8 holds.
pub fn sound(ring: Ring) -> bool
    ensures { result ≡ is_sound ring }
{
    soundness::sound_lent(&ring)
}

// How many places each array of a ring has: 128, which some promises ask of a ring (`Shaped`).
pub fn count_places(ring: Ring) -> u32
    ensures { Placed ring result }
{
    numbers::MOST_STATIONS
}

// Opening: the opened ring, or the first of 2, 4, 5, 16 and 7 that applies with the blank ring. The plan is judged where it stands in the ring; then TRT is what the silent first rotation leaves, and u the sum of S.
pub fn open(set: Set, alloc: Alloc) -> Opened
    ensures { result ≡ opening set alloc }
{
    let mut ring = opening::blank_ring();
    ring.set = set;
    ring.alloc = alloc;
    let head = ring.set.head;
    let n = ring.set.n;
    let number = opening::opening_number(
        head,
        n,
        &ring.set.w,
        &ring.set.c,
        &ring.set.d,
        &ring.set.p,
        &ring.alloc.s,
    );
    if number != numbers::ACCEPTED {
        ring = opening::blank_ring();
    } else {
        let trt = arrays::sums_to_last(&ring.set.w, n);
        ring.unused = units::sum_lent(&ring.alloc.s, n);
        ring.trt = trt;
    }
    Opened { ring, number }
}

// By value: each method takes the ring and hands out the next one inside its answer.
impl Ring {
    // A visit at the station that has the token, with these asynchronous frames asked for: the moved ring and the record, or the lowest of 8, 10 and 13 that applies with the ring as it was.
    pub fn visit(mut self, ask: Ask) -> Visited
        ensures { result ≡ visited self ask }
    {
        let answer = in_place::visit_on(&mut self, ask);
        Visited { ring: self, answer }
    }

    // Handing in a message: the ring that holds it, or the first of 8 to 11, 15 and 12 that applies with the ring as it was.
    pub fn hand_in(mut self, message: Message) -> Taken
        ensures { result ≡ handed_in self message }
    {
        let number = in_place::hand_in_on(&mut self, message);
        Taken { ring: self, number }
    }

    // Switching a station through: the ring with its mark set and without its message, which is withdrawn, or the lower of 8 and 9 that applies with the ring as it was.
    pub fn mark(mut self, station: Station) -> MarkedRing
        ensures { result ≡ marked self station }
    {
        let answer = in_place::mark_on(&mut self, station);
        MarkedRing { ring: self, answer }
    }

    // Switching a station in again: the ring without its mark, or the lower of 8 and 9 that applies with the ring as it was.
    pub fn unmark(mut self, station: Station) -> Taken
        ensures { result ≡ unmarked self station }
    {
        let number = in_place::unmark_on(&mut self, station);
        Taken { ring: self, number }
    }
}
