// Records of a log, one after another, up to the first one that breaks a rule.
ghost use Rattle.std.specs.Prelude.{◌≡◌};
ghost use Rattle.logs.specs.Reading.{handed_from};
ghost use Rattle.inspection.specs.Records.{inspected_all, InspectedLent};

use super::{Inspection, moving, rules};
use log_records::Entry;
use plans::Alloc;
use sets::{Head, Set};

// Inspects so many records more, the first at this place of the bytes, with the plan's w and S lent. Nothing behind a broken rule is looked at.
pub fn inspect_lent<'a>(
    before: Inspection,
    head: Head,
    n: u32,
    w: &'a [u32; 128],
    s: &'a [u32; 128],
    log: &[u8],
    first: usize,
    records: usize,
) -> Inspection
    ensures { InspectedLent before head n w.now s.now (handed_from records log.now first) result }
{
    if before.rule != 0 {
        return before;
    }
    let mut state = before;
    let mut at = first;
    for _ in 0..records {
        let handed = logs::log_entry(log, at);
        let entry = handed.entry;
        let course = state.course;
        let p = rules::place(course.token);
        let base = state.base[p];
        let share = s[p];
        let due = rules::due(course, head, n, state.mark[p], base, share);
        let rule = rules::broken_rule(due, entry);
        if rule != 0 {
            state.rule = rule;
            break;
        }
        match entry {
            Entry::Visit(visit) => {
                let lead = moving::lead_of(head, visit.asynchronous);
                state.base[p] = moving::base_after(head, course.clock, base, lead);
                let sent = state.sent[p];
                let walk = w[p];
                state.course = moving::course_after(course, n, share, sent, walk, visit);
                state.sent[p] = visit.synchronous;
            }
            Entry::Mark(switched) => {
                let place = rules::place(switched.station);
                state.mark[place] = moving::mark_of(switched.mark);
            }
        }
        state.records = state.records.wrapping_add(1);
        at = handed.next;
    }
    state
}

// The same with the plan by value.
pub fn inspect_records(
    before: Inspection,
    set: Set,
    alloc: Alloc,
    log: &[u8],
    first: usize,
    records: usize,
) -> Inspection
    ensures { result ≡ inspected_all before set alloc (handed_from records log.now first) }
{
    let head = set.head;
    inspect_lent(before, head, set.n, &set.w, &alloc.s, log, first, records)
}
