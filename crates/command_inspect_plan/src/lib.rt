// What `inspect PLAN` prints of a plan sheet and of a log that was read whole: `plan refused N`; `refused N` of the log; `another plan` and what differs; or what was found in the log.
#![tactic(auto)]

ghost use Rattle.std.specs.Prelude.{◌≡◌, ◌+◌, ◌≤◌, length};
ghost use Rattle.sheets.specs.Reading.{read_plan};
ghost use Rattle.text.specs.Text.{page_size};
ghost use Rattle.text.specs.Pages.{HasRoom, Puts};
ghost use Rattle.command_diff.specs.DiffText.{side_refused, lines_size};
ghost use Rattle.command_inspect_plan.specs.InspectText.{plan_word, another_text, is_another, LogAnswered, AnsweredOn};

use command_inspect::Found;
use inspection_stream::Inspecting;
use plans::Alloc;
use sets::Set;
use text::{PAGE_SIZE, Page};
use units::numbers;

// `plan refused N`.
fn put_refused(page: &mut Page, number: u8)
    requires { HasRoom 62 page.old }
    ensures { Puts 62 page.old (side_refused plan_word number) page.new }
{
    page.put_short(b"plan ");
    page.put_refused(number);
}

// `another plan`, and the lines of what differs.
fn put_another(page: &mut Page, t: Set, a: Alloc, u: Set, b: Alloc)
    requires { (t.n ≤ 128) × HasRoom (21 + lines_size) page.old }
    ensures { Puts (21 + lines_size) page.old (another_text t a u b) page.new }
{
    page.put_short(b"another plan");
    page.put_end();
    command_diff::put_lines(page, t, a, u, b);
}

// The log was read, and its plan is another one.
fn is_another(t: Set, a: Alloc, inspecting: Inspecting) -> bool
    ensures { result ≡ is_another t a inspecting }
{
    let number = inspection_stream::number_of(inspecting);
    let u = inspecting.start.set;
    let b = inspecting.start.alloc;
    let same = differences::same_plan(t, a, u, b);
    (number == numbers::ACCEPTED) & !same
}

// What is printed of a log against a plan that was read.
fn put_answer(t: Set, a: Alloc, inspecting: Inspecting, page: &mut [u8]) -> Found
    requires { (t.n ≤ 128) × (page_size ≤ length page.old) }
    ensures { LogAnswered t a inspecting page.old page.new result }
{
    if is_another(t, a, inspecting) {
        let set = inspecting.start.set;
        let alloc = inspecting.start.alloc;
        let mut page = Page::new(page);
        put_another(&mut page, t, a, set, alloc);
        return Found {
            length: page.length(),
            accepted: false,
        };
    }
    command_inspect::put_finding(inspecting, page)
}

// What `inspect PLAN` prints of the bytes of PLAN and of a log that was read whole, at the start of the page, and whether the log is accepted. A page that is too small gets nothing.
pub fn inspect_text(plan: &[u8], inspecting: Inspecting, page: &mut [u8]) -> Found
    ensures { AnsweredOn (read_plan plan.now) inspecting page.old page.new result }
{
    if page.len() < PAGE_SIZE {
        return Found {
            length: 0,
            accepted: false,
        };
    }
    let read = sheets::read_plan(plan);
    if read.number != numbers::ACCEPTED {
        let mut page = Page::new(page);
        put_refused(&mut page, read.number);
        return Found {
            length: page.length(),
            accepted: false,
        };
    }
    put_answer(read.set, read.alloc, inspecting, page)
}
