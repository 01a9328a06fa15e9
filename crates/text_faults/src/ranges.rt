// The first number of a line that is out of its range.
ghost use Rattle.std.specs.Prelude.{◌≡◌};
ghost use Rattle.text_faults.specs.Ranges.{unless, station_out, number_out};

use crate::lines;
use line_reader::Scan;
use units::numbers;

// The ranges, as 64-bit numbers: by a cast, since no function is called in a constant.
const MOST_TTRT: u64 = numbers::MOST_TTRT as u64;

const LAST_MODE: u64 = numbers::LAST_MODE as u64;

const MOST_FRAME: u64 = numbers::MOST_FRAME as u64;

const MOST_GRID: u64 = numbers::MOST_GRID as u64;

const MOST_WALK: u64 = numbers::MOST_WALK as u64;

const MOST_C: u64 = numbers::MOST_C as u64;

const MOST_D: u64 = numbers::MOST_D as u64;

const MOST_P: u64 = numbers::MOST_P as u64;

const MOST_S: u64 = numbers::MOST_S as u64;

// This number, if the test fails.
fn unless(holds: bool, number: u8) -> u8
    ensures { result ≡ unless holds number }
{
    if holds {
        return 0;
    }
    number
}

// Of a station: w, C, D, P, and S, which is 0 where it has none.
fn station_out(values: [u64; 5]) -> u8
    ensures { result ≡ station_out values }
{
    let walk = values[0];
    let longest = values[1];
    let due = values[2];
    let gap = values[3];
    let share = values[4];
    if walk > MOST_WALK {
        return 5;
    }
    if longest > MOST_C {
        return 6;
    }
    let due_fits = (1 <= due) & (due <= MOST_D);
    if !due_fits {
        return 7;
    }
    let gap_fits = (due <= gap) & (gap <= MOST_P);
    if !gap_fits {
        return 8;
    }
    unless(share <= MOST_S, 9)
}

// Of any line that can be read. A field of the header that may be left out may not say 1, which its absence means.
pub(crate) fn number_out(s: Scan) -> u8
    ensures { result ≡ number_out s }
{
    let first = s.values[0];
    if s.word == lines::TTRT {
        return unless((1 <= first) & (first <= MOST_TTRT), 1);
    }
    if s.word == lines::MODE {
        return unless((2 <= first) & (first <= LAST_MODE), 2);
    }
    if s.word == lines::FRAME {
        return unless((2 <= first) & (first <= MOST_FRAME), 3);
    }
    if s.word == lines::GRID {
        return unless((2 <= first) & (first <= MOST_GRID), 4);
    }
    if s.word == lines::STATION {
        return station_out(s.values);
    }
    0
}
