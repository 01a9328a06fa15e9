// What the parts are made of: the answer, the plan as a whole, and what the named record must have.
ghost use Rattle.std.specs.Prelude.{◌≡◌};
ghost use Rattle.inspection.specs.Counter.{ticks_between};
ghost use Rattle.command_page.specs.Account.{is_other, outcome_of, refusal_of, bound_ticks, bound_of, sums_of, due_of};

use crate::{Due, Outcome, Sums};
use inspection::Inspection;
use inspection_stream::Inspecting;
use plans::Alloc;
use sets::Set;
use sheets::ReadPlan;
use units::numbers;

// ---- the answer

// The log's plan is not that of the plan sheet.
fn is_other(p: ReadPlan, k: Inspecting) -> bool
    ensures { result ≡ is_other p k }
{
    !differences::same_plan(p.set, p.alloc, k.start.set, k.start.alloc)
}

// The plan sheet's refusal, the log's, another plan, a broken rule, or none.
pub(crate) fn outcome_of(given: bool, p: ReadPlan, k: Inspecting) -> Outcome
    ensures { result ≡ outcome_of given p k }
{
    let refused = given & (p.number != numbers::ACCEPTED);
    if refused {
        return Outcome::PlanRefused;
    }
    if inspection_stream::number_of(k) != numbers::ACCEPTED {
        return Outcome::Refused;
    }
    let another = given & is_other(p, k);
    if another {
        return Outcome::Another;
    }
    if k.looked.inspection.rule == 0 {
        return Outcome::Accepted;
    }
    Outcome::Broken
}

// The number of the refusal.
pub(crate) fn refusal_of(given: bool, p: ReadPlan, k: Inspecting) -> u8
    ensures { result ≡ refusal_of given p k }
{
    let refused = given & (p.number != numbers::ACCEPTED);
    if refused {
        return p.number;
    }
    inspection_stream::number_of(k)
}

// ---- the plan as a whole

// Within how many ticks the token is back.
fn bound_ticks(t: Set, a: Alloc) -> u64
    ensures { result ≡ bound_ticks t a }
{
    let ttrt = u64::from(t.head.ttrt);
    if t.head.mode == numbers::FDDI {
        let more = u64::from(t.head.frame).saturating_sub(1);
        return ttrt + units::sum_first(a.s, t.n) + more;
    }
    ttrt
}

// As a number of 32 bits, which every plan's is.
fn bound_of(t: Set, a: Alloc) -> u32
    ensures { result ≡ bound_of t a }
{
    bound_ticks(t, a).min(4_294_967_295) as u32
}

// The sum of S, τ, A*, and what follows of them.
pub(crate) fn sums_of(t: Set, a: Alloc) -> Sums
    ensures { result ≡ sums_of t a }
{
    let sum = units::sum_first(a.s, t.n);
    let tau = sets::walk_time(t);
    let more = u64::from(t.head.frame).saturating_sub(1);
    let spare = plans::spare(t, a);
    Sums {
        sum,
        tau,
        spare,
        burst: spare + more,
        bound: bound_of(t, a),
    }
}

// ---- the named record

// The ticks from one showing of a counter to a later one.
fn ticks_between(earlier: u32, later: u32) -> u32
    ensures { result ≡ ticks_between earlier later }
{
    later.wrapping_sub(earlier)
}

// What the record behind those of an inspection must have, and where it comes from.
pub(crate) fn due_of(s: Inspection, t: Set, a: Alloc) -> Due
    ensures { result ≡ due_of s t a }
{
    let expected = inspection::expect(s, t, a);
    let course = s.course;
    let p = (course.token % 128) as usize;
    Due {
        expected,
        start: course.start.wrapping_add(course.span),
        unused: course.unused,
        run: ticks_between(s.base[p], course.clock),
        through: s.mark[p] != 0,
    }
}
