// A page, from its head to its foot: the log is read once for what is said of it, and once more for its picture.
use crate::drawing::Easel;
use crate::reading::Reading;
use crate::{drawing, forms, reading, texts};
use command_page::{Account, Outcome};
use commands::status;
use picture_stream::Watching;
use pictures::Scene;
use std::env::Env;
use std::fs::Files;
use std::io::Print;
use streams::complaints::Complain;
use streams::{ending, loading, version, words};
use text::Page;

// Nothing is drawn: for the first reading.
fn bare_easel() -> Easel {
    Easel {
        scene: Scene {
            bound: 0,
            earlier: false,
            n: 0,
            w: [0; 128],
            named: 0,
        },
        window: picture_stream::nothing_drawn(),
    }
}

// Puts the finding at the start of a page, in the words of `inspect` or, where a plan sheet is given, of `inspect PLAN`.
fn put_either(plan: Option<&[u8]>, watching: Watching, page: &mut [u8]) -> usize {
    let inspecting = watching.inspecting;
    match plan {
        Some(sheet) => command_inspect_plan::inspect_text(sheet, inspecting, page).length,
        None => command_inspect::put_finding(inspecting, page).length,
    }
}

// Says it.
fn say_either(rt: &(impl Print + Complain), plan: Option<&[u8]>, watching: Watching) -> bool {
    let mut page = io::large_buffer();
    let put = put_either(plan, watching, &mut page);
    ending::say_put(rt, &page, put)
}

// The second part, what the finding means: of an accepted log without a visit that nothing was held to the rules.
fn say_meaning(rt: &(impl Print + Complain), account: Account) -> bool {
    if is_accepted(account.outcome) & (account.lines == 0) {
        return texts::means(rt) && texts::no_visit(rt);
    }
    forms::say_part(rt, command_page::part_at(account, 1))
}

// The parts from the third on, up to the last, which begins the picture.
fn say_parts(rt: &(impl Print + Complain), account: Account, last: usize) -> bool {
    for k in 2..last {
        if !forms::say_part(rt, command_page::part_at(account, k)) {
            return false;
        }
    }
    true
}

// A station's number, behind those before it.
fn say_station(rt: &(impl Print + Complain), any: bool, station: u64) -> bool {
    if any {
        return ending::say_filled(rt, b", station #", [station, 0, 0, 0, 0, 0]);
    }
    ending::say_filled(rt, b"station #", [station, 0, 0, 0, 0, 0])
}

// The stations that are marked.
fn say_marked(rt: &(impl Print + Complain), mark: [u8; 128], n: u32) -> bool {
    let mut any = false;
    for (i, x) in mark[..units::places(n)].iter().enumerate() {
        if *x != 0 {
            if !say_station(rt, any, i as u64) {
                return false;
            }
            any = true;
        }
    }
    any || ending::say(rt, b"no station")
}

// Behind which records that is said.
fn say_when(rt: &(impl Print + Complain), named: u64) -> bool {
    if named == 0 {
        return ending::say(rt, b"<p>Switched through when the log ends: ");
    }
    ending::say_filled(
        rt,
        b"<p>Switched through before record #: ",
        [named, 0, 0, 0, 0, 0],
    )
}

// Who is switched through behind the records that keep every rule, by the inspection's own marks.
fn say_through(rt: &(impl Print + Complain), watching: Watching, account: Account) -> bool {
    if !is_judged(account.outcome) {
        return true;
    }
    let mark = watching.inspecting.looked.inspection.mark;
    say_when(rt, account.named)
        && say_marked(rt, mark, account.set.n)
        && ending::say(rt, b".</p>\n")
}

// All parts behind the first one; below what each station did it is said who is switched through.
fn say_account(rt: &(impl Print + Complain), watching: Watching, account: Account) -> bool {
    let last = command_page::part_count(account) - 1;
    say_meaning(rt, account)
        && say_parts(rt, account, last)
        && say_through(rt, watching, account)
        && forms::say_part(rt, command_page::part_at(account, last))
}

// The foot: the version, and how many bytes the log has.
fn say_foot(rt: &(impl Print + Complain), bytes: u64) -> bool {
    let mut buffer = io::buffer();
    let mut page = Page::new(&mut buffer);
    page.put_filled(b"<footer>\n<p>Olivastrum ", [0; 6]);
    version::put(&mut page);
    page.put_filled(
        b". The log has # bytes.</p>\n</footer>\n</body>\n</html>\n",
        [bytes, 0, 0, 0, 0, 0],
    );
    let put = page.length();
    ending::say_put(rt, &buffer, put)
}

// What stands before the picture: the head, the finding with its word, and all that is said of it.
fn say_first(
    rt: &(impl Print + Complain),
    plan: Option<&[u8]>,
    watching: Watching,
    account: Account,
) -> bool {
    let outcome = account.outcome;
    texts::begin(rt)
        && forms::say_part(rt, command_page::part_at(account, 0))
        && say_either(rt, plan, watching)
        && texts::end_finding(rt)
        && say_held(rt, plan.is_some(), outcome)
        && say_account(rt, watching, account)
}

// What a reading found, in numbers: the log's refusal, the rule that is broken, how many records keep every rule, and what was compared.
#[derive(Clone, Copy, PartialEq)]
struct Found {
    number: u8,
    rule: u8,
    records: u64,
    expected: u32,
    found: u32,
}

// What a reading found.
fn found_by(watching: Watching) -> Found {
    let inspecting = watching.inspecting;
    let number = inspection_stream::number_of(inspecting);
    let start = inspecting.start;
    let looked = inspecting.looked;
    let state = looked.inspection;
    let compared = inspection::compare(state, start.set, start.alloc, looked.last);
    Found {
        number,
        rule: state.rule,
        records: state.records,
        expected: compared.expected,
        found: compared.found,
    }
}

// Both readings have one finding.
fn same_finding(first: Watching, second: Watching) -> bool {
    found_by(first) == found_by(second)
}

// Both readings have one plan.
fn same_plan(first: Watching, second: Watching) -> bool {
    let one = first.inspecting.start;
    let other = second.inspecting.start;
    differences::same_plan(one.set, one.alloc, other.set, other.alloc)
}

// And one number for each place of the stations'.
fn same_sums(first: Watching, second: Watching) -> bool {
    tallies::same_numbers(first.seen.numbers, second.seen.numbers)
}

// All of it.
fn is_same(first: Watching, second: Watching) -> bool {
    same_plan(first, second) && same_sums(first, second) && same_finding(first, second)
}

// The log was changed between the two readings: the page says so, and so does standard error.
fn say_changed(rt: &(impl Print + Complain)) -> bool {
    rt.complain(b"page: the log was changed while it was read, or cannot be read twice\n");
    texts::changed(rt)
}

// The picture, by the second reading. Where that is another one, in its length, its plan, its finding or its sums, or cannot be made, the page says that it is not valid.
fn say_picture(
    rt: &(impl Files + Print + Complain),
    path: &str,
    account: Account,
    first: Reading,
) -> bool {
    let scene = command_page::scene_of(account);
    let window = account.window;
    let second = reading::read_all(rt, path, Easel { scene, window });
    let canvas = second.canvas;
    let ended = canvas.pen.is_some_and(|pen| drawing::end(rt, pen));
    if !ended {
        return false;
    }
    if (second.bytes == first.bytes) && is_same(first.canvas.watching, canvas.watching) {
        return true;
    }
    say_changed(rt);
    false
}

// Whether a plan sheet was named, of records that were judged.
fn say_held(rt: &(impl Print + Complain), given: bool, outcome: Outcome) -> bool {
    if !is_judged(outcome) {
        return true;
    }
    if given {
        return texts::plan_named(rt);
    }
    texts::no_plan_named(rt)
}

// The records were judged, so there is a picture.
fn is_judged(outcome: Outcome) -> bool {
    matches!(outcome, Outcome::Broken | Outcome::Accepted)
}

// Every rule is kept.
fn is_accepted(outcome: Outcome) -> bool {
    matches!(outcome, Outcome::Accepted)
}

// 0 exactly where the log is accepted.
fn status_of(outcome: Outcome) -> u8 {
    if is_accepted(outcome) {
        return status::DONE;
    }
    status::REFUSED
}

// All of a page about a log that was read once.
fn say_all(
    rt: &(impl Files + Print + Complain),
    path: &str,
    plan: Option<&[u8]>,
    first: Reading,
    bytes: u64,
) -> u8 {
    let watching = first.canvas.watching;
    let account = command_page::account_of(plan.is_some(), plan.unwrap_or(b""), watching);
    if !say_first(rt, plan, watching, account) {
        return status::FAILED;
    }
    let outcome = account.outcome;
    let drawn = !is_judged(outcome) || say_picture(rt, path, account, first);
    let ended = say_foot(rt, bytes);
    if drawn & ended {
        return status_of(outcome);
    }
    status::FAILED
}

// A page about the log in the file whose path is the word at this place.
pub(crate) fn say(
    rt: &(impl Env + Files + Print + Complain),
    word: usize,
    plan: Option<&[u8]>,
) -> u8 {
    let path = match words::path(rt, word) {
        Ok(path) => path,
        Err(error) => {
            loading::name(rt, b"page: ", b"the path of a log", error);
            return status::FAILED;
        }
    };
    let path = path.as_str();
    let first = reading::read_all(rt, path, bare_easel());
    match first.bytes {
        Some(bytes) => say_all(rt, path, plan, first, bytes),
        None => status::FAILED,
    }
}
