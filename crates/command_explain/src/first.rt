// The phrases before the stations': the verdict, and behind it the first fault, the header's numbers that are out of their ranges, τ, or the header.
ghost use Rattle.std.specs.Prelude.{◌≡◌};
ghost use Rattle.fields.specs.Fields.{is_allowed};
ghost use Rattle.command_explain.specs.First.{verdict_form, verdict, kind_at, may_stand, stands, may_stand_by, fault_phrase, row_at, out_form, header_out, header_phrase, tau_out, header, one_line, second_phrase, first_phrase};

use crate::{Explained, Form, Place};
use fields::Passed;
use sets::Head;
use text::phrases::Phrase;
use units::numbers;

// The form of the verdict on a sheet that is accepted.
#[tactic(auto, unfolding(crate::specs::First::verdict_form))]
fn verdict_form(plan: bool) -> Form
    ensures { result ≡ verdict_form plan }
{
    if plan { Form::Accepted } else { Form::Planned }
}

// The verdict.
#[tactic(auto, unfolding(crate::specs::First::verdict))]
fn verdict(e: Explained) -> Phrase<Form>
    ensures { result ≡ verdict e }
{
    if e.number != numbers::ACCEPTED {
        let number = u64::from(e.number);
        return Phrase::one(Form::Refused, number);
    }
    let n = u64::from(e.set.n);
    let ttrt = u64::from(e.set.head.ttrt);
    Phrase::four(verdict_form(e.plan), n, ttrt, e.sums.tau, e.sums.spare)
}

// ---- 1, 2, 3

// A kind of field: its tag, its one length, and the form that says that it may stand there.
#[derive(Clone, Copy)]
pub(crate) struct Kind {
    tag: u8,
    size: u8,
    form: Form,
}

// The kinds, in the order of their tags.
fn kind_at(k: usize) -> Kind
    ensures { result ≡ kind_at k }
{
    match k {
        0 => Kind {
            tag: fields::HEAD_TAG,
            size: 4,
            form: Form::MayTtrt,
        },
        1 => Kind {
            tag: fields::STATION_TAG,
            size: 16,
            form: Form::MayStation,
        },
        2 => Kind {
            tag: fields::ALLOCATION_TAG,
            size: 4,
            form: Form::MayShare,
        },
        3 => Kind {
            tag: fields::MODE_TAG,
            size: 1,
            form: Form::MayMode,
        },
        4 => Kind {
            tag: fields::FRAME_TAG,
            size: 4,
            form: Form::MayFrame,
        },
        5 => Kind {
            tag: fields::GRID_TAG,
            size: 4,
            form: Form::MayGrid,
        },
        _ => Kind {
            tag: fields::END_TAG,
            size: 0,
            form: Form::MayEnd,
        },
    }
}

// Such a field may stand behind the fields that passed: the start of one is tried.
fn is_allowed(passed: Passed, tag: u8, size: u8) -> bool
    ensures { result ≡ is_allowed passed tag size }
{
    let start: [u8; 3] = [tag, 0, size];
    let field = fields::field_at(&start, 0, passed);
    field.number != numbers::WRONG_SHAPE
}

// Kind k, if it may stand there.
#[tactic(auto, unfolding(crate::specs::First::may_stand))]
fn may_stand(passed: Passed, k: usize) -> Option<Phrase<Form>>
    ensures { result ≡ may_stand passed k }
{
    let kind = kind_at(k);
    if !is_allowed(passed, kind.tag, kind.size) {
        return None;
    }
    let tag = u64::from(kind.tag);
    let size = u64::from(kind.size);
    Some(Phrase::two(kind.form, tag, size))
}

// What stands at the place of the fault. Behind the end field, and where fewer than three bytes are left, it is said only how many.
#[tactic(auto, unfolding(crate::specs::First::stands))]
fn stands(number: u8, place: Place) -> Phrase<Form>
    ensures { result ≡ stands number place }
{
    let behind = number == numbers::RUNS_ON;
    let cut = place.left < 3;
    if behind | cut {
        return Phrase::two(Form::Left, place.byte, place.left);
    }
    Phrase::four(Form::Start, place.byte, place.tag, place.size, place.left)
}

// What may stand there: behind the end field nothing.
#[tactic(auto, unfolding(crate::specs::First::may_stand_by))]
fn may_stand_by(number: u8, passed: Passed, k: usize) -> Option<Phrase<Form>>
    ensures { result ≡ may_stand_by number passed k }
{
    if number != numbers::RUNS_ON {
        return may_stand(passed, k);
    }
    if k == 0 {
        return Some(Phrase::bare(Form::MayNothing));
    }
    None
}

// Phrase j of a first fault: as what the bytes were read, what stands there, and what may.
#[tactic(auto, unfolding(crate::specs::First::fault_phrase))]
fn fault_phrase(e: Explained, j: usize) -> Option<Phrase<Form>>
    ensures { result ≡ fault_phrase e j }
{
    match j {
        0 => Some(Phrase::either(e.plan, Form::AsPlan, Form::AsRequest)),
        1 => Some(stands(e.number, e.place)),
        _ => may_stand_by(e.number, e.place.passed, j - 2),
    }
}

// ---- 4

// A field of the header: its tag, the least number that may stand in it, and the forms of one that is out of range, and of a 1.
#[derive(Clone, Copy)]
pub(crate) struct Row {
    tag: u8,
    low: u64,
    out: Form,
    one: Form,
}

// The header's fields, in the order of their tags.
fn row_at(k: usize) -> Row
    ensures { result ≡ row_at k }
{
    match k {
        0 => Row {
            tag: fields::HEAD_TAG,
            low: 1,
            out: Form::TtrtOut,
            one: Form::TtrtOut,
        },
        1 => Row {
            tag: fields::MODE_TAG,
            low: 2,
            out: Form::ModeOut,
            one: Form::ModeOne,
        },
        2 => Row {
            tag: fields::FRAME_TAG,
            low: 2,
            out: Form::FrameOut,
            one: Form::FrameOne,
        },
        _ => Row {
            tag: fields::GRID_TAG,
            low: 2,
            out: Form::GridOut,
            one: Form::GridOne,
        },
    }
}

// The form of a number that is out of range: a 1 is to be left out.
#[tactic(auto, unfolding(crate::specs::First::out_form))]
fn out_form(row: Row, value: u32) -> Form
    ensures { result ≡ out_form row value }
{
    if value == fields::ABSENT {
        row.one
    } else {
        row.out
    }
}

// Field k of the header, if its number is out of range.
#[tactic(auto, unfolding(crate::specs::First::header_out))]
fn header_out(h: Head, said: Head, k: usize) -> Option<Phrase<Form>>
    ensures { result ≡ header_out h said k }
{
    let row = row_at(k);
    let range = faults::header_range(h, row.tag);
    if !range.out {
        return None;
    }
    let stands = faults::header_range(said, row.tag);
    let value = u64::from(stands.value);
    let high = u64::from(range.high);
    Some(Phrase::three(out_form(row, stands.value), value, row.low, high))
}

// Phrase j of these; there are four.
#[tactic(auto, unfolding(crate::specs::First::header_phrase))]
fn header_phrase(e: Explained, j: usize) -> Option<Phrase<Form>>
    ensures { result ≡ header_phrase e j }
{
    if j < 4 {
        return header_out(e.set.head, e.said, j);
    }
    None
}

// ---- 5 and the header

// τ, which is not 1 to TTRT.
fn tau_out(e: Explained) -> Phrase<Form>
    ensures { result ≡ tau_out e }
{
    let ttrt = u64::from(e.set.head.ttrt);
    Phrase::three(Form::TauOut, e.sums.tau, 1, ttrt)
}

// The header's numbers.
fn header(h: Head) -> Phrase<Form>
    ensures { result ≡ header h }
{
    let ttrt = u64::from(h.ttrt);
    let mode = u64::from(h.mode);
    let frame = u64::from(h.frame);
    let grid = u64::from(h.grid);
    Phrase::four(Form::Header, ttrt, mode, frame, grid)
}

// ---- all of them

// The line behind the verdict, where it is only one.
#[tactic(auto, unfolding(crate::specs::First::one_line))]
fn one_line(e: Explained, j: usize) -> Option<Phrase<Form>>
    ensures { result ≡ one_line e j }
{
    if j != 0 {
        return None;
    }
    if e.number == numbers::BAD_WALK_TIME {
        return Some(tau_out(e));
    }
    Some(header(e.set.head))
}

// Phrase j behind the verdict.
#[tactic(auto, unfolding(crate::specs::First::second_phrase))]
fn second(e: Explained, j: usize) -> Option<Phrase<Form>>
    ensures { result ≡ second_phrase e j }
{
    let walked = (1 <= e.number) & (e.number <= numbers::RUNS_ON);
    if walked {
        return fault_phrase(e, j);
    }
    if e.number == numbers::OUT_OF_RANGE {
        return header_phrase(e, j);
    }
    one_line(e, j)
}

// Phrase j before the stations'.
#[tactic(auto, unfolding(crate::specs::First::first_phrase))]
pub(crate) fn phrase(e: Explained, j: usize) -> Option<Phrase<Form>>
    ensures { result ≡ first_phrase e j }
{
    if j == 0 {
        return Some(verdict(e));
    }
    second(e, j - 1)
}
