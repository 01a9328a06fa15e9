// Every case of the build definition's "Allocations", those without ★ too, run through the planner.
#![tactic(auto)]

use sets::{Head, Set};
use std::io::Print;
use units::numbers;
use units::refusals::answer_number;

// What cannot be written is left out.
fn say(rt: &impl Print, words: &str) {
    let _ = rt.print(words);
}

fn number(rt: &impl Print, x: u64) {
    let _ = rt.print(x);
}

fn space(rt: &impl Print) {
    say(rt, " ");
}

fn line(rt: &impl Print) {
    say(rt, "\n");
}

// One row of the table at TTRT 100: D, C and the smallest S.
fn row(rt: &impl Print, d: u32, c: u32) {
    number(rt, u64::from(d));
    space(rt);
    number(rt, u64::from(c));
    space(rt);
    number(rt, plans::smallest(1, 100, c, d));
    line(rt);
}

// A set of n equal stations, of which the first alone has walk time.
fn equal_stations(ttrt: u32, n: u32, tau: u32, d: u32, c: u32) -> Set {
    let mut w: [u32; 128] = [0; 128];
    w[0] = tau;
    Set {
        head: Head {
            ttrt,
            mode: numbers::TIMELY,
            frame: 1,
            grid: 1,
        },
        n,
        w,
        c: [c; 128],
        d: [d; 128],
        p: [d; 128],
    }
}

// The plan of a set: its number and, of an accepted one, S of the first station and of the second, and A*.
fn planned(rt: &impl Print, t: Set) {
    let answer = plans::plan(t);
    let alloc = answer.alloc;
    let s = alloc.s;
    say(rt, "number ");
    let refusal = answer.number;
    number(rt, u64::from(refusal));
    if refusal == 0 {
        say(rt, " S ");
        number(rt, u64::from(s[0]));
        space(rt);
        number(rt, u64::from(s[1]));
        say(rt, " spare ");
        number(rt, plans::spare(t, alloc));
        say(rt, " judged ");
        let again = answer_number(plans::judge_plan(t, alloc));
        number(rt, u64::from(again));
    }
    line(rt);
}

// The table at TTRT 100, row by row.
fn table(rt: &impl Print) {
    row(rt, 250, 30);
    row(rt, 250, 100);
    row(rt, 250, 101);
    row(rt, 250, 130);
    row(rt, 200, 10);
    row(rt, 60, 10);
    row(rt, 60, 0);
    row(rt, 100, 20);
}

fn main(rt: HostRuntime) {
    table(&rt);
    planned(&rt, equal_stations(100, 2, 2, 60, 9));
    planned(&rt, equal_stations(100, 2, 2, 60, 10));
    planned(&rt, equal_stations(1, 1, 1, 1, 0));
    planned(&rt, equal_stations(1, 1, 1, 1, 1));
    // No station, 129 stations, D 0, τ 0, τ above TTRT, τ at TTRT.
    planned(&rt, equal_stations(100, 0, 2, 60, 9));
    planned(&rt, equal_stations(100, 129, 2, 60, 9));
    planned(&rt, equal_stations(100, 2, 2, 0, 9));
    planned(&rt, equal_stations(100, 2, 0, 60, 9));
    planned(&rt, equal_stations(100, 2, 101, 60, 0));
    planned(&rt, equal_stations(100, 2, 100, 60, 0));
}
