// The lines: a form of words, and its numbers.
ghost use Rattle.std.specs.Prelude.{◌≡◌};
ghost use Rattle.command_tune.specs.Lines.{own_line, or_none, first_line, found_line};

use crate::{Form, Tune};
use text::phrases::Phrase;

// The set's own TTRT, with what planning answers there.
fn own(ttrt: u64, number: u8) -> Phrase<Form>
    ensures { result ≡ own_line ttrt number }
{
    if number == 0 {
        return Phrase::one(Form::OwnPlan, ttrt);
    }
    Phrase::two(Form::OwnRefused, ttrt, u64::from(number))
}

// A TTRT; 0 stands for none.
fn or_none(some: Form, none: Form, x: u64) -> Phrase<Form>
    ensures { result ≡ or_none some none x }
{
    if x == 0 {
        return Phrase::bare(none);
    }
    Phrase::one(some, x)
}

// The range, the set's own TTRT, and how many have a plan.
pub(crate) fn first(k: Tune, i: usize) -> Phrase<Form>
    ensures { result ≡ first_line k i }
{
    match i {
        0 => Phrase::two(Form::Tried, u64::from(k.from), u64::from(k.to)),
        1 => own(u64::from(k.set.head.ttrt), k.own),
        _ => Phrase::one(Form::Plans, u64::from(k.seen.count)),
    }
}

// Which have one, and which of them is the best.
pub(crate) fn found(k: Tune, i: usize) -> Phrase<Form>
    ensures { result ≡ found_line k i }
{
    match i {
        3 => Phrase::one(Form::Smallest, u64::from(k.seen.smallest)),
        4 => Phrase::one(Form::Largest, u64::from(k.seen.largest)),
        5 => or_none(Form::Below, Form::NoneBelow, u64::from(k.seen.below)),
        6 => or_none(Form::Above, Form::NoneAbove, u64::from(k.seen.above)),
        7 => Phrase::one(Form::Best, u64::from(k.seen.best)),
        _ => {
            let n = u64::from(k.set.n);
            let best = u64::from(k.seen.best);
            let tau = sets::walk_time(k.set);
            let spare = u64::from(k.seen.spare);
            Phrase::four(Form::Plan, n, best, tau, spare)
        }
    }
}
