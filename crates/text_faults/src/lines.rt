// The lines that a text may have, by their words: how many numbers each has, and how large these may be.
ghost use Rattle.std.specs.Prelude.{◌≡◌};
ghost use Rattle.text_faults.specs.Lines.{is_single, least_of, most_of, is_byte, limit_of, fits, begins, is_read, place_of};

use line_reader::Scan;

// The letters of `ttrt`, of `mode`, of `frame`, of `grid`, of `station`, of `visit` and of `mark`, each as one number to base 256.
pub(crate) const TTRT: u64 = 1_953_788_532;

pub(crate) const MODE: u64 = 1_836_016_741;

pub(crate) const FRAME: u64 = 440_005_651_813;

pub(crate) const GRID: u64 = 1_735_551_332;

pub(crate) const STATION: u64 = 32_497_584_235_442_030;

const VISIT: u64 = 508_575_312_244;

const MARK: u64 = 1_835_102_827;

// A word with one number.
fn is_single(word: u64) -> bool
    ensures { result ≡ is_single word }
{
    let first = (word == TTRT) | (word == MODE);
    let second = (word == FRAME) | (word == GRID);
    first | second
}

// How many numbers the line has at least; 0 where no line begins so.
#[tactic(auto, unfolding(crate::specs::Lines::least_of))]
fn least_of(word: u64) -> usize
    ensures { result ≡ least_of word }
{
    if is_single(word) {
        return 1;
    }
    match word {
        STATION => 4,
        VISIT => 5,
        MARK => 2,
        _ => 0,
    }
}

// How many it has at most: a station of a plan has one more.
pub(crate) fn most_of(word: u64) -> usize
    ensures { result ≡ most_of word }
{
    if word == STATION {
        return 5;
    }
    least_of(word)
}

// Number k of the line is one of a byte: a visit's station, both numbers of a mark.
pub(crate) fn is_byte(word: u64, k: usize) -> bool
    ensures { result ≡ is_byte word k }
{
    let visit = (word == VISIT) & (k == 1);
    let mark = (word == MARK) & (k <= 2);
    visit | mark
}

fn limit_of(word: u64, k: usize) -> u64
    ensures { result ≡ limit_of word k }
{
    if is_byte(word, k) {
        return 255;
    }
    4_294_967_295
}

// Every number that was read is at most as large as it may be.
fn fits(s: Scan) -> bool
    ensures { result ≡ fits s }
{
    let first = s.values[0] <= limit_of(s.word, 1);
    let second = s.values[1] <= limit_of(s.word, 2);
    let third = s.values[2] <= 4_294_967_295;
    let fourth = s.values[3] <= 4_294_967_295;
    let fifth = s.values[4] <= 4_294_967_295;
    first & (second & (third & (fourth & fifth)))
}

// What was read so far begins a line that can be read.
pub(crate) fn begins(s: Scan) -> bool
    ensures { result ≡ begins s }
{
    let readable = !(s.phase == line_reader::UNREADABLE);
    let most = most_of(s.word);
    let named = (1 <= most) & ((s.count <= most) & fits(s));
    readable & ((s.word == 0) | named)
}

// It is such a line: it has enough numbers.
pub(crate) fn is_read(s: Scan) -> bool
    ensures { result ≡ is_read s }
{
    let least = least_of(s.word);
    begins(s) & (least <= s.count)
}

// The place of the next word: 0 for the first, else the number that it would be; behind five numbers always 6.
pub(crate) fn place_of(s: Scan) -> usize
    ensures { result ≡ place_of s }
{
    if s.word == 0 {
        return 0;
    }
    if s.count < 5 {
        return s.count + 1;
    }
    6
}
