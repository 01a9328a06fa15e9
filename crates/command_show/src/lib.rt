// What `show` prints: a request or plan sheet as text, on byte slices.
#![tactic(auto)]

mod showing;

ghost use Rattle.std.specs.Prelude.{◌≡◌};
ghost use Rattle.sheets.specs.Reading.{read_plan};
ghost use Rattle.text.specs.Text.{Printed, Says};
ghost use Rattle.text.specs.Pages.{HasRoom, Puts};
ghost use Rattle.sheet_text_rules.specs.ShowText.{plan_shown, plan_lines_of, show_printed, shown_number};

use plans::Alloc;
use sets::Set;
use text::{PAGE_SIZE, Page, Said};
use units::numbers;

// The text of a plan sheet, or the refusal, and its number.
fn put_plan(page: &mut Page, sheet: &[u8]) -> u8
    requires { HasRoom 20_000 page.old }
    ensures text { Puts 20_000 page.old (plan_shown sheet.now) page.new }
    ensures number { result ≡ (read_plan sheet.now).number }
{
    let plan = sheets::read_plan(sheet);
    if plan.number != numbers::ACCEPTED {
        page.put_refused(plan.number);
        return plan.number;
    }
    showing::put_sheet(page, true, plan.set, plan.alloc);
    plan.number
}

// The text of a request sheet, or that of a plan sheet where the shape is another, and its number.
fn put_shown(page: &mut Page, sheet: &[u8]) -> u8
    requires { HasRoom 20_000 page.old }
    ensures text { Puts 20_000 page.old (show_printed sheet.now) page.new }
    ensures number { result ≡ shown_number sheet.now }
{
    let request = sheets::read_request(sheet);
    let number = request.number;
    if number == numbers::WRONG_SHAPE {
        return put_plan(page, sheet);
    }
    if number != numbers::ACCEPTED {
        page.put_refused(number);
        return number;
    }
    showing::put_sheet(page, false, request.set, plans::blank_alloc());
    number
}

// What `show` prints of a sheet's bytes, put at the start of the page, and its number.
pub fn show_text(sheet: &[u8], page: &mut [u8]) -> Said
    ensures { Says (show_printed sheet.now) (shown_number sheet.now) page.old page.new result }
{
    if page.len() < PAGE_SIZE {
        return Said {
            length: 0,
            number: numbers::BUFFER_TOO_SHORT,
        };
    }
    let mut page = Page::new(page);
    let number = put_shown(&mut page, sheet);
    Said {
        length: page.length(),
        number,
    }
}

// The text of a plan, put at the start of the page; nothing for one of more than 128 stations.
pub fn plan_text(set: Set, alloc: Alloc, page: &mut [u8]) -> usize
    ensures { Printed (plan_lines_of set alloc) page.old page.new result }
{
    if page.len() < PAGE_SIZE {
        return 0;
    }
    if 128 < set.n {
        return 0;
    }
    let mut page = Page::new(page);
    showing::put_sheet(&mut page, true, set, alloc);
    page.length()
}
