// What a line of a log's text lets out.
ghost use Rattle.std.specs.Prelude.{◌≡◌};
ghost use Rattle.log_records.specs.Entry.{entry_bytes};
ghost use Rattle.text.specs.Text.{Put};
ghost use Rattle.command_compose.specs.Compose.{NumbersFit};
ghost use Rattle.command_compose.specs.Sent.{visit_in, mark_in, entry_in, plan_sent, sent_by, PlanRoom, RecordRoom, LineRoom};

use crate::Draft;
use line_reader::Scan;
use log_records::{MarkEntry, VisitEntry};

// The visit that a line names.
fn visit_in(s: Scan) -> VisitEntry
    requires { NumbersFit s }
    ensures { result ≡ visit_in s }
{
    VisitEntry {
        station: crate::narrow(s.values[0]),
        start: crate::narrow(s.values[1]),
        limit: crate::narrow(s.values[2]),
        synchronous: crate::narrow(s.values[3]),
        asynchronous: crate::narrow(s.values[4]),
    }
}

// The mark that a line names.
fn mark_in(s: Scan) -> MarkEntry
    requires { NumbersFit s }
    ensures { result ≡ mark_in s }
{
    let station = crate::narrow(s.values[0]);
    let mark = crate::narrow(s.values[1]);
    MarkEntry { station, mark }
}

// At the first record, the fields of the plan.
fn put_plan(page: &mut [u8], at: usize, d: Draft) -> usize
    requires { PlanRoom d at page.old }
    ensures { Put page.old at (plan_sent d) page.new result }
{
    if d.kind == 2 {
        let written = sheets::write_plan_fields(d.set, d.alloc, page);
        return written.length;
    }
    at
}

// A record's field, a visit's or a mark's.
fn put_record(page: &mut [u8], at: usize, s: Scan) -> usize
    requires { RecordRoom s at page.old }
    ensures { Put page.old at (entry_bytes (entry_in s)) page.new result }
{
    if crate::is_visit_line(s) {
        let visit = visit_in(s);
        sheets::records::put_visit(page, at, visit);
        return at + log_records::VISIT_LENGTH;
    }
    let mark = mark_in(s);
    sheets::records::put_mark(page, at, mark);
    at + log_records::MARK_LENGTH
}

// What a line lets out, put into the page from the place on; the place behind it.
pub(crate) fn put_line(page: &mut [u8], at: usize, d: Draft, s: Scan) -> usize
    requires { LineRoom d at page.old }
    ensures { Put page.old at (sent_by d s) page.new result }
{
    if !crate::is_record_line(s) {
        return at;
    }
    let behind = crate::with_record(d);
    if !crate::goes_out(behind) {
        return at;
    }
    let begun = put_plan(page, at, d);
    put_record(page, begun, s)
}
