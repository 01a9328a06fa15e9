// The parts of the finding and of the named record: the word, what it means, and a row for each rule with what was expected, what was found and where that comes from.
ghost use Rattle.std.specs.Prelude.{◌≡◌};
ghost use Rattle.text.specs.Phrases.{two};
ghost use Rattle.command_page.specs.Named.{word_of, meaning_of, is_judged, row_of, start_numbers, asynchronous_numbers, numbers_of, limit_from, source_of, visit_row, mark_row, rule_row, named_begin, named_part, named_where, rules_where, finding_part};

use crate::{Account, Due, Form, Outcome};
use log_records::{Entry, MarkEntry, VisitEntry};
use sets::Head;
use text::phrases::Phrase;
use units::numbers;

// ---- the finding

// The word above the finding.
fn word(outcome: Outcome) -> Phrase<Form>
    ensures { result ≡ word_of outcome }
{
    match outcome {
        Outcome::PlanRefused => Phrase::bare(Form::WordPlanRefused),
        Outcome::Refused => Phrase::bare(Form::WordRefused),
        Outcome::Another => Phrase::bare(Form::WordAnother),
        Outcome::Broken => Phrase::bare(Form::WordBroken),
        Outcome::Accepted => Phrase::bare(Form::WordAccepted),
    }
}

// What it means: of a refusal its number's sentence.
fn meaning(outcome: Outcome, number: u8, named: u64) -> Phrase<Form>
    ensures { result ≡ meaning_of outcome number named }
{
    match outcome {
        Outcome::PlanRefused | Outcome::Refused => Phrase::one(Form::Sentence, u64::from(number)),
        Outcome::Another => Phrase::bare(Form::MeansAnother),
        Outcome::Broken => Phrase::one(Form::MeansBroken, named),
        Outcome::Accepted => Phrase::bare(Form::MeansAccepted),
    }
}

// The records were judged: only then is there more.
pub(crate) fn is_judged(outcome: Outcome) -> bool
    ensures { result ≡ is_judged outcome }
{
    matches!(outcome, Outcome::Broken | Outcome::Accepted)
}

// The five rules, where the records were judged by them.
#[tactic(auto, unfolding(crate::specs::Named::rules_where))]
fn rules(judged: bool) -> Option<Phrase<Form>>
    ensures { result ≡ rules_where judged }
{
    if judged {
        return Some(Phrase::bare(Form::Rules));
    }
    None
}

// ---- the rows of the named record

// Rule r of a record that breaks this one first.
#[tactic(auto, unfolding(crate::specs::Named::row_of))]
fn row(broken: usize, r: usize) -> Phrase<Form>
    ensures { result ≡ row_of broken r }
{
    if r < broken {
        return Phrase::bare(Form::Kept);
    }
    if r == broken {
        return Phrase::bare(Form::Broken);
    }
    Phrase::bare(Form::Behind)
}

// The start, where it is not that of the first visit: what was expected, what was found, the start of the visit before and what that one took.
#[tactic(auto, unfolding(crate::specs::Named::start_numbers))]
fn start(x: Due, v: VisitEntry) -> Phrase<Form>
    ensures { result ≡ start_numbers x v }
{
    let found = u64::from(v.start);
    if x.expected.first {
        return Phrase::one(Form::FirstStart, found);
    }
    let expected = u64::from(x.start);
    let last = u64::from(x.expected.last);
    let span = u64::from(x.expected.span);
    Phrase::four(Form::StartRule, expected, found, last, span)
}

// The asynchronous amount: with frames of one tick at most the limit, else whole frames up to F.
#[tactic(auto, unfolding(crate::specs::Named::asynchronous_numbers))]
fn asynchronous(x: Due, v: VisitEntry) -> Phrase<Form>
    ensures { result ≡ asynchronous_numbers x v }
{
    let limit = u64::from(x.expected.limit);
    let found = u64::from(v.asynchronous);
    if x.expected.longest == 1 {
        return Phrase::two(Form::TickRule, limit, found);
    }
    let longest = u64::from(x.expected.longest);
    Phrase::three(Form::FrameRule, limit, found, longest)
}

// A rule with two numbers: what was expected, and what was found.
fn compared(form: Form, expected: u32, found: u32) -> Phrase<Form>
    ensures { result ≡ two form expected found }
{
    let expected = u64::from(expected);
    let found = u64::from(found);
    Phrase::two(form, expected, found)
}

// What was expected by rule r, and what was found.
#[tactic(auto, unfolding(crate::specs::Named::numbers_of))]
fn expected(x: Due, v: VisitEntry, r: usize) -> Phrase<Form>
    ensures { result ≡ numbers_of x v r }
{
    match r {
        1 => compared(Form::StationRule, x.expected.station, v.station),
        2 => start(x, v),
        3 => compared(Form::LimitRule, x.expected.limit, v.limit),
        4 => compared(Form::SynchronousRule, x.expected.share, v.synchronous),
        _ => asynchronous(x, v),
    }
}

// Where the limit comes from.
#[tactic(auto, unfolding(crate::specs::Named::limit_from))]
fn limit_from(h: Head, x: Due) -> Phrase<Form>
    ensures { result ≡ limit_from h x }
{
    if x.through {
        return Phrase::bare(Form::ThroughLimit);
    }
    let ttrt = u64::from(h.ttrt);
    let run = u64::from(x.run);
    if h.mode == numbers::FDDI {
        return Phrase::two(Form::FddiLimit, ttrt, run);
    }
    let more = u64::from(h.frame).saturating_sub(1);
    let unused = u64::from(x.unused);
    Phrase::four(Form::TimelyLimit, ttrt, more, unused, run)
}

// Where the expected numbers of rule r come from: the limit, and the most of synchronous time, S; of the other rules it is said with the numbers.
#[tactic(auto, unfolding(crate::specs::Named::source_of))]
fn source(h: Head, x: Due, r: usize) -> Option<Phrase<Form>>
    ensures { result ≡ source_of h x r }
{
    match r {
        3 => Some(limit_from(h, x)),
        4 => Some(Phrase::either(x.through, Form::ThroughShare, Form::Share)),
        _ => None,
    }
}

// Part j of rule r of a named visit.
#[tactic(auto, unfolding(crate::specs::Named::visit_row))]
fn visit_row(
    h: Head,
    x: Due,
    broken: usize,
    v: VisitEntry,
    r: usize,
    j: usize,
) -> Option<Phrase<Form>>
    ensures { result ≡ visit_row h x broken v r j }
{
    match j {
        0 => Some(row(broken, r)),
        1 => Some(expected(x, v, r)),
        _ => source(h, x, r),
    }
}

// A mark has the station rule alone: below which its station must be, its station and its mark.
#[tactic(auto, unfolding(crate::specs::Named::mark_row))]
fn mark_row(x: Due, m: MarkEntry, r: usize, j: usize) -> Option<Phrase<Form>>
    ensures { result ≡ mark_row x m r j }
{
    if r != 1 {
        return None;
    }
    if j == 0 {
        return Some(Phrase::bare(Form::Broken));
    }
    if j == 1 {
        let count = u64::from(x.expected.count);
        let station = u64::from(m.station);
        let mark = u64::from(m.mark);
        return Some(Phrase::three(Form::MarkRule, count, station, mark));
    }
    None
}

// Part j of rule r of a named record.
fn rule_row(
    h: Head,
    x: Due,
    broken: usize,
    entry: Entry,
    r: usize,
    j: usize,
) -> Option<Phrase<Form>>
    ensures { result ≡ rule_row h x broken entry r j }
{
    match entry {
        Entry::Visit(visit) => visit_row(h, x, broken, visit, r, j),
        Entry::Mark(mark) => mark_row(x, mark, r, j),
    }
}

// The beginning of a named record: its number.
fn begin(named: u64, entry: Entry) -> Phrase<Form>
    ensures { result ≡ named_begin named entry }
{
    match entry {
        Entry::Visit(_) => Phrase::one(Form::NamedVisit, named),
        Entry::Mark(_) => Phrase::one(Form::NamedMark, named),
    }
}

// ---- all of them

// Part k of the named record: its beginning, three parts for each of the five rules, its end.
#[tactic(auto, unfolding(crate::specs::Named::named_part))]
fn part(a: Account, k: usize) -> Option<Phrase<Form>>
    ensures { result ≡ named_part a k }
{
    let last = a.last;
    if k == 0 {
        return Some(begin(a.named, last));
    }
    if k < 16 {
        let broken = usize::from(a.rule);
        let r = (k - 1) / 3 + 1;
        return rule_row(a.set.head, a.due, broken, last, r, (k - 1) % 3);
    }
    if k == 16 {
        return Some(Phrase::bare(Form::NamedEnd));
    }
    None
}

// It is there only where a record is named.
fn part_where(outcome: Outcome, a: Account, k: usize) -> Option<Phrase<Form>>
    ensures { result ≡ named_where outcome a k }
{
    match outcome {
        Outcome::Broken => part(a, k),
        _ => None,
    }
}

// Part k of the finding, from 0 to 19.
#[tactic(auto, unfolding(crate::specs::Named::finding_part))]
pub(crate) fn finding(a: Account, k: usize) -> Option<Phrase<Form>>
    ensures { result ≡ finding_part a k }
{
    let outcome = a.outcome;
    match k {
        0 => Some(word(outcome)),
        1 => Some(meaning(outcome, a.number, a.named)),
        2 => rules(is_judged(outcome)),
        _ => part_where(outcome, a, k - 3),
    }
}
