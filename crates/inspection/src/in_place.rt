// A record on lent arrays and numbers: the arrays are changed where they stand, and at a refusal or a broken rule they are not.
ghost use Rattle.std.specs.Prelude.{◌≡◌};
ghost use Rattle.log_records.specs.declared.Entry.TheVariants.{Visit};
ghost use Rattle.inspection.specs.Kept.{standing, none_compared, SteppedOn, MarkedOn, kept_of, InspectedOn};

use super::{Compared, Course, KeptNext, LogEntry, Progress, Step, frames, keeping, moving, rules};
use log_records::{MarkEntry, VisitEntry};
use sets::Head;
use units::numbers;

// Nothing is compared: both numbers 0.
fn none_compared() -> Compared
    ensures { result ≡ none_compared }
{
    Compared {
        expected: 0,
        found: 0,
    }
}

// A visit more, where no rule is broken yet.
fn visit_on<'a>(
    w: &'a [u32; 128],
    s: &'a [u32; 128],
    base: &'a mut [u32; 128],
    sent: &'a mut [u32; 128],
    mark: &'a mut [u8; 128],
    head: Head,
    n: u32,
    course: Course,
    records: u64,
    visit: VisitEntry,
) -> Step
    ensures { SteppedOn (standing base.old sent.old mark.old course records 0) head n w.now s.now (Visit visit) (standing base.new sent.new mark.new result.course result.records result.rule) result.compared }
{
    let p = rules::place(course.token);
    let began = base[p];
    let share = s[p];
    let due = rules::due(course, head, n, mark[p], began, share);
    let fits = frames::frames_fit(due.limit, due.longest, visit.asynchronous);
    let rule = rules::visit_rule(due, visit, fits);
    if rule != 0 {
        let compared = super::compare_visit(due, visit, rule);
        return Step {
            course,
            records,
            rule,
            compared,
        };
    }
    let lead = moving::lead_of(head, visit.asynchronous);
    base[p] = moving::base_after(head, course.clock, began, lead);
    let before = sent[p];
    sent[p] = visit.synchronous;
    let next = moving::course_after(course, n, share, before, w[p], visit);
    let more = records.wrapping_add(1);
    let compared = none_compared();
    Step {
        course: next,
        records: more,
        rule,
        compared,
    }
}

// A mark more, where no rule is broken yet: the marks alone change.
fn mark_on(mark: &mut [u8; 128], n: u32, course: Course, records: u64, switched: MarkEntry) -> Step
    ensures { MarkedOn mark.old n course records switched mark.new result }
{
    let rule = rules::mark_rule(n, switched);
    if rule != 0 {
        let compared = Compared {
            expected: n,
            found: switched.station,
        };
        return Step {
            course,
            records,
            rule,
            compared,
        };
    }
    let place = rules::place(switched.station);
    mark[place] = moving::mark_of(switched.mark);
    let counted = records.wrapping_add(1);
    let compared = none_compared();
    Step {
        course,
        records: counted,
        rule,
        compared,
    }
}

// A record that a host hands in, on the arrays of the inspection that it keeps.
pub fn inspect_on<'a>(
    w: &'a [u32; 128],
    s: &'a [u32; 128],
    base: &'a mut [u32; 128],
    sent: &'a mut [u32; 128],
    mark: &'a mut [u8; 128],
    head: Head,
    n: u32,
    progress: Progress,
    told: LogEntry,
) -> KeptNext
    ensures { InspectedOn (kept_of w.now s.now base.old sent.old mark.old head n progress) told (kept_of w.now s.now base.new sent.new mark.new head n result.progress) result }
{
    let number = keeping::record_number(n, told);
    if number != numbers::ACCEPTED {
        return KeptNext {
            progress,
            number,
            answer: keeping::refused_record(number),
        };
    }
    let course = keeping::course_in(progress);
    if progress.rule != 0 {
        let none = none_compared();
        return keeping::next_of(course, progress.records, progress.rule, none);
    }
    if told.kind == u32::from(log_records::VISIT_TAG) {
        let visit = told.visit;
        let step = visit_on(
            w,
            s,
            &mut *base,
            &mut *sent,
            &mut *mark,
            head,
            n,
            course,
            progress.records,
            visit,
        );
        return keeping::next_of(step.course, step.records, step.rule, step.compared);
    }
    let switched = told.mark;
    let step = mark_on(&mut *mark, n, course, progress.records, switched);
    keeping::next_of(step.course, step.records, step.rule, step.compared)
}
