// The ★ worked run of the build definition: four stations, messages of 20 that arrive at 0 and at 100 and are handed in then, six visits with 1,000 asynchronous ticks asked for. It prints the table.
#![tactic(auto)]

use plans::Alloc;
use rings::{Ask, Message, Ring, VisitRecord};
use sets::{Head, Set};
use std::io::Print;
use units::{Station, Ticks, numbers};

// What cannot be written is left out.
fn text(rt: &impl Print, words: &str) {
    let _ = rt.print(words);
}

fn digits(rt: &impl Print, x: u64) {
    let _ = rt.print(x);
}

// A number, and the column's end.
fn column(rt: &impl Print, x: u64) {
    text(rt, " | ");
    digits(rt, x);
}

// The margin; one below 0 is late.
fn margin_column(rt: &impl Print, margin: i64) {
    match u64::try_from(margin) {
        Ok(size) => column(rt, size),
        Err(_) => text(rt, " | late"),
    }
}

// A row of the table.
fn row(rt: &impl Print, visit: u64, v: VisitRecord) {
    digits(rt, visit);
    column(rt, v.station.0);
    column(rt, v.start.0);
    column(rt, v.trt.0);
    column(rt, v.limit.0);
    column(rt, v.synchronous.0);
    column(rt, v.asynchronous.0);
    column(rt, v.finish.0);
    margin_column(rt, v.margin);
    text(rt, "\n");
}

// Four stations, TTRT 100, w 2, 0, 0, 0, all C 20, D 100, P 100.
fn four_stations() -> Set {
    let mut w: [u32; 128] = [0; 128];
    w[0] = 2;
    Set {
        head: Head {
            ttrt: 100,
            mode: numbers::TIMELY,
            frame: 1,
            grid: 1,
        },
        n: 4,
        w,
        c: [20; 128],
        d: [100; 128],
        p: [100; 128],
    }
}

// A refusal's line.
fn refusal(rt: &impl Print, number: u8) {
    text(rt, "refused ");
    digits(rt, u64::from(number));
    text(rt, "\n");
}

// A message of 20 is handed in; a refusal is printed.
fn message(rt: &impl Print, ring: Ring, station: u64, arrival: u64) -> Ring {
    let taken = ring.hand_in(Message {
        station: Station(station),
        length: Ticks(20),
        arrival: Ticks(arrival),
    });
    if taken.number != 0 {
        refusal(rt, taken.number);
    }
    taken.ring
}

// One at each station.
fn messages(rt: &impl Print, mut ring: Ring, arrival: u64) -> Ring {
    for station in 0..4 {
        ring = message(rt, ring, station, arrival);
    }
    ring
}

// A visit with 1,000 asynchronous ticks asked for: the row, or the refusal.
fn visit(rt: &impl Print, ring: Ring, visit: u64) -> Ring {
    let visited = ring.visit(Ask {
        frames: 1000,
        length: 1,
    });
    let answer = visited.answer;
    if answer.number == 0 {
        row(rt, visit, answer.record);
    } else {
        refusal(rt, answer.number);
    }
    visited.ring
}

fn main(rt: HostRuntime) {
    let set = four_stations();
    let plan = plans::plan(set);
    let alloc = plan.alloc;
    let opened = rings::open(set, alloc);
    text(
        &rt,
        "Visit | Station | Start | TRT | Limit | Sync | Async | Finish | Margin\n",
    );
    let mut ring = messages(&rt, opened.ring, 0);
    for number in 1..5 {
        ring = visit(&rt, ring, number);
    }
    ring = messages(&rt, ring, 100);
    ring = visit(&rt, ring, 5);
    visit(&rt, ring, 6);
}
