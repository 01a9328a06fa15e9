// `tune`: a request sheet planned at every TTRT of a range, some of them at a time, and the lines that say what was found: each is a form of words, by its name, and its numbers. The words of the forms are the program's.
#![tactic(auto)]

mod lines;

ghost use Rattle.std.specs.Prelude.{◌≡◌};
ghost use Rattle.command_tune.specs.Tune.{is_range, refused_with, begun, is_done, size_of, went_on};
ghost use Rattle.command_tune.specs.Lines.{number_of, line_count, line_at};

use sets::Set;
use text::phrases::Phrase;
use tuning::Tuning;
use units::numbers;
use units::refusals::answer_number;

// The forms of words. What each of them says stands in `adviser`.
#[derive(Clone, Copy)]
pub enum Form {
    Refused,
    // The range, and the request's own TTRT.
    Tried,
    OwnPlan,
    OwnRefused,
    // How many have a plan, and which.
    Plans,
    Smallest,
    Largest,
    Below,
    NoneBelow,
    Above,
    NoneAbove,
    Best,
    // The first line of the plan at the best.
    Plan,
}

// A range of TTRT, tried up to the next one.
#[derive(Clone, Copy)]
pub struct Tune {
    pub set: Set,
    // 0, or the refusal.
    pub number: u8,
    // What planning answers at the set's own TTRT.
    pub own: u8,
    pub from: u32,
    pub to: u32,
    pub next: u64,
    pub seen: Tuning,
}

// How many TTRT are tried at a time.
pub const STEP: u64 = 4_096;

// FROM and TO are a range of TTRT.
fn is_range(from: u64, to: u64) -> bool
    ensures { result ≡ is_range from to }
{
    (1 <= from) & (from <= to) & (to <= 1_000_000)
}

// A refused request: no TTRT is tried.
fn refused(number: u8) -> Tune
    ensures { result ≡ refused_with number }
{
    Tune {
        set: sets::blank_set(),
        number,
        own: 0,
        from: 0,
        to: 0,
        next: 1,
        seen: tuning::no_tuning(),
    }
}

// A request sheet's bytes, and the range from FROM to TO, before the first TTRT is tried.
pub fn begin(sheet: &[u8], from: u64, to: u64) -> Tune
    ensures { result ≡ begun sheet.now from to }
{
    let scanned = field_reader::scan_sheet(sheet, false);
    if scanned.number != numbers::ACCEPTED {
        return refused(scanned.number);
    }
    if !is_range(from, to) {
        return refused(numbers::OUT_OF_RANGE);
    }
    let set = sheets::read_given(sheet, false).set;
    let number = answer_number(tuning::judge(set));
    if number != numbers::ACCEPTED {
        return refused(number);
    }
    let planned = plans::plan(set);
    Tune {
        set,
        number: numbers::ACCEPTED,
        own: planned.number,
        from: from as u32,
        to: to as u32,
        next: from,
        seen: tuning::no_tuning(),
    }
}

// Every TTRT of the range was tried.
pub fn is_done(k: Tune) -> bool
    ensures { result ≡ is_done k }
{
    u64::from(k.to) < k.next
}

// How many are tried next: those that are left, and not too many at a time.
fn size_of(next: u64, to: u32) -> u32
    ensures { result ≡ size_of next to }
{
    let left = (u64::from(to) + 1).saturating_sub(next);
    left.min(STEP) as u32
}

// Some TTRT more.
pub fn go_on(k: Tune) -> Tune
    ensures { result ≡ went_on k }
{
    if is_done(k) {
        return k;
    }
    let size = size_of(k.next, k.to);
    let first = k.next as u32;
    let seen = tuning::tune_over(k.set, first, size, k.seen);
    let next = k.next + u64::from(size);
    Tune { next, seen, ..k }
}

// 0 where the set has a plan at some TTRT of the range; else the refusal, which is 6 where it has none.
pub fn number_of(k: Tune) -> u8
    ensures { result ≡ number_of k }
{
    if k.number != numbers::ACCEPTED {
        return k.number;
    }
    if k.seen.count == 0 {
        return numbers::NO_ALLOCATION;
    }
    numbers::ACCEPTED
}

// How many lines there are.
pub fn line_count(k: Tune) -> usize
    ensures { result ≡ line_count k }
{
    if k.number != numbers::ACCEPTED {
        return 1;
    }
    if k.seen.count == 0 {
        return 3;
    }
    9
}

// Line i, from 0; behind the last of them there is none.
pub fn line_at(k: Tune, i: usize) -> Option<Phrase<Form>>
    ensures { result ≡ line_at k i }
{
    if line_count(k) <= i {
        return None;
    }
    if k.number != numbers::ACCEPTED {
        return Some(Phrase::one(Form::Refused, u64::from(k.number)));
    }
    if i < 3 {
        return Some(lines::first(k, i));
    }
    Some(lines::found(k, i))
}
