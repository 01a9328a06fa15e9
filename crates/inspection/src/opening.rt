// An inspection before its first record: the silent first rotation has ended.
ghost use Rattle.std.specs.Prelude.{◌≡◌, ◌%◌, ◌^◌};
ghost use Rattle.inspection.specs.Opening.{passing_times, BegunLent};

use super::{Course, Inspection, counter};

// What a 32-bit counter shows of a number.
fn shown(x: u64) -> u32
    ensures { result ≡ x % 2 ^ 32 }
{
    (x % 4_294_967_296) as u32
}

// When the silent first rotation passed each station, counted from its beginning.
fn passing_times(w: &[u32; 128], n: u32) -> [u32; 128]
    ensures { result ≡ passing_times n w.now }
{
    let mut times = [0; 128];
    let mut walked: u32 = 0;
    for i in 0..units::places(n) {
        times[i] = walked;
        walked = counter::later(walked, w[i]);
    }
    times
}

// The inspection of a log whose plan has these w and S, before its first record.
pub(crate) fn begin_lent<'a>(w: &'a [u32; 128], s: &'a [u32; 128], n: u32) -> Inspection
    ensures { BegunLent n w.now s.now result }
{
    let base = passing_times(w, n);
    let clock = shown(units::sum_lent(w, n));
    let unused = shown(units::sum_lent(s, n));
    let course = Course {
        token: 0,
        clock,
        unused,
        first: true,
        start: 0,
        span: 0,
    };
    Inspection {
        base,
        sent: [0; 128],
        mark: [0; 128],
        course,
        records: 0,
        rule: 0,
    }
}
