// What `inspect` prints of a log that was read whole: `accepted N`; `record K RULE` and a line for people; or `refused N`.
#![tactic(auto)]

ghost use Rattle.std.specs.Prelude.{◌≡◌, ◌∷◌, length};
ghost use Rattle.text.specs.Text.{space, Printed};
ghost use Rattle.text.specs.Pages.{HasRoom, Puts};
ghost use Rattle.command_inspect.specs.FindingText.{accepted_line, rule_word, record_line, frames_aim, aim_of, before_of, unit_of, compared_line, mark_line, people_line, broken_text, finding_text, is_accepted, FoundOn};

use inspection::Compared;
use inspection_stream::Inspecting;
use log_records::Entry;
use text::{PAGE_SIZE, Page};
use units::numbers;

// What was found is on a page: how many bytes it is, and whether the log is accepted.
#[repr(C)]
#[derive(Clone, Copy)]
pub struct Found {
    pub length: usize,
    pub accepted: bool,
}

// `accepted N`.
fn put_accepted(page: &mut Page, records: u64)
    requires { HasRoom 42 page.old }
    ensures { Puts 42 page.old (accepted_line records) page.new }
{
    page.put_short(b"accepted");
    page.put_field(records);
    page.put_end();
}

// A space, and the word of a rule.
fn put_rule(page: &mut Page, rule: u8)
    requires { HasRoom 20 page.old }
    ensures { Puts 20 page.old (space ∷ rule_word rule) page.new }
{
    match rule {
        1 => page.put_short(b" station"),
        2 => page.put_short(b" start"),
        3 => page.put_short(b" limit"),
        4 => page.put_short(b" synchronous"),
        _ => page.put_short(b" asynchronous"),
    }
}

// `record K RULE`.
fn put_record(page: &mut Page, number: u64, rule: u8)
    requires { HasRoom 62 page.old }
    ensures { Puts 62 page.old (record_line number rule) page.new }
{
    page.put_short(b"record");
    page.put_field(number);
    put_rule(page, rule);
    page.put_end();
}

// ---- the line for people

// What frames are expected: ` whole frames of one length up to F, begun below`.
fn put_frames(page: &mut Page, longest: u32)
    requires { HasRoom 81 page.old }
    ensures { Puts 81 page.old (frames_aim longest) page.new }
{
    page.put_short(b" whole frames of one");
    page.put_short(b" length up to");
    page.put_field(u64::from(longest));
    page.put_short(b", begun below");
}

// What the expected number is, by the rule.
fn put_aim(page: &mut Page, rule: u8, longest: u32)
    requires { HasRoom 81 page.old }
    ensures { Puts 81 page.old (aim_of rule longest) page.new }
{
    match rule {
        1 => page.put_short(b" station"),
        2 => {}
        3 => page.put_short(b" limit"),
        _ if (rule == 4) | (longest == 1) => page.put_short(b" at most"),
        _ => put_frames(page, longest),
    }
}

// What a start is counted from: the record before; where that is a mark, the visit before.
fn put_before(page: &mut Page, before: Entry)
    requires { HasRoom 20 page.old }
    ensures { Puts 20 page.old (before_of before) page.new }
{
    match before {
        Entry::Visit(_) => page.put_short(b" record before"),
        Entry::Mark(_) => page.put_short(b" visit before"),
    }
}

// What it is counted in: of a start ` ticks after the record before`.
fn put_unit(page: &mut Page, rule: u8, before: Entry)
    requires { HasRoom 40 page.old }
    ensures { Puts 40 page.old (unit_of rule before) page.new }
{
    if rule != 2 {
        return;
    }
    page.put_short(b" ticks after the");
    put_before(page, before);
}

// Of a visit: the number that was expected, and the one that was found.
fn put_compared(page: &mut Page, rule: u8, longest: u32, before: Entry, compared: Compared)
    requires { HasRoom 204 page.old }
    ensures { Puts 204 page.old (compared_line rule longest before compared) page.new }
{
    page.put_short(b"expected");
    put_aim(page, rule, longest);
    page.put_field(u64::from(compared.expected));
    put_unit(page, rule, before);
    page.put_short(b", found");
    page.put_field(u64::from(compared.found));
    page.put_end();
}

// Of a mark: what it must be, its station and its mark.
fn put_mark(page: &mut Page, stations: Compared, mark: u32)
    requires { HasRoom 204 page.old }
    ensures { Puts 204 page.old (mark_line stations mark) page.new }
{
    page.put_short(b"expected");
    page.put_short(b" a station below");
    page.put_field(u64::from(stations.expected));
    page.put_short(b" and mark 0 or 1");
    page.put_short(b", found");
    page.put_field(u64::from(stations.found));
    page.put_field(u64::from(mark));
    page.put_end();
}

// The line for people, by the kind of the record.
fn put_people(
    page: &mut Page,
    rule: u8,
    longest: u32,
    before: Entry,
    entry: Entry,
    compared: Compared,
)
    requires { HasRoom 204 page.old }
    ensures { Puts 204 page.old (people_line rule longest before entry compared) page.new }
{
    match entry {
        Entry::Visit(_) => put_compared(page, rule, longest, before, compared),
        Entry::Mark(mark) => put_mark(page, compared, mark.mark),
    }
}

// ---- all of it

// Both lines of a log with a record that breaks a rule.
fn put_broken(page: &mut Page, inspecting: Inspecting)
    requires { HasRoom 266 page.old }
    ensures { Puts 266 page.old (broken_text inspecting) page.new }
{
    let set = inspecting.start.set;
    let looked = inspecting.looked;
    let state = looked.inspection;
    let finding = inspection::found(state, 0);
    put_record(page, finding.record, state.rule);
    let compared = inspection::compare(state, set, inspecting.start.alloc, looked.last);
    put_people(
        page,
        state.rule,
        set.head.frame,
        looked.before,
        looked.last,
        compared,
    );
}

// What was found, or the refusal.
fn put_said(page: &mut Page, inspecting: Inspecting)
    requires { HasRoom 266 page.old }
    ensures { Puts 266 page.old (finding_text inspecting) page.new }
{
    let number = inspection_stream::number_of(inspecting);
    if number != numbers::ACCEPTED {
        page.put_refused(number);
        return;
    }
    let state = inspecting.looked.inspection;
    if state.rule == 0 {
        put_accepted(page, state.records);
        return;
    }
    put_broken(page, inspecting);
}

// What is printed when all was read. A page that is too small gets nothing.
fn put_text(inspecting: Inspecting, page: &mut [u8]) -> usize
    ensures { Printed (finding_text inspecting) page.old page.new result }
{
    if page.len() < PAGE_SIZE {
        return 0;
    }
    let mut page = Page::new(page);
    put_said(&mut page, inspecting);
    page.length()
}

// The log was read, and none of its records breaks a rule.
fn is_accepted(inspecting: Inspecting) -> bool
    ensures { result ≡ is_accepted inspecting }
{
    let number = inspection_stream::number_of(inspecting);
    let state = inspecting.looked.inspection;
    (number == numbers::ACCEPTED) & (state.rule == 0)
}

// What is printed when all was read, at the start of the page, and whether the log is accepted. A page that is too small gets nothing.
pub fn put_finding(inspecting: Inspecting, page: &mut [u8]) -> Found
    ensures { FoundOn inspecting page.old page.new result }
{
    let length = put_text(inspecting, page);
    let accepted = is_accepted(inspecting);
    Found { length, accepted }
}
