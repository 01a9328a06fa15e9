// What `plan` and `plan-sheet` put out, as functions on bytes.
#![tactic(auto)]

mod planning;

ghost use Rattle.std.specs.Prelude.{◌≡◌};
ghost use Rattle.text.specs.Text.{Says};
ghost use Rattle.text.specs.Pages.{HasRoom, Puts};
ghost use Rattle.sheets.specs.Reading.{read_request};
ghost use Rattle.command_plan.specs.PlanText.{request_text, plan_printed};
ghost use Rattle.command_plan.specs.PlanSheet.{planning_number, plan_of, WrotePlan};

use sheets::{ReadPlan, ReadRequest, Written};
use text::{PAGE_SIZE, Page, Said};
use units::numbers;

// The plan of a request that was read, with the first refusal of reading and planning.
pub fn plan_of(request: ReadRequest) -> ReadPlan
    ensures { result ≡ plan_of request }
{
    let ReadRequest { set, number } = request;
    let planned = plans::plan(set);
    let alloc = planned.alloc;
    if number != numbers::ACCEPTED {
        return ReadPlan { set, alloc, number };
    }
    ReadPlan {
        set,
        alloc,
        number: planned.number,
    }
}

// The plan of a request that was read, or the refusal, and its number.
fn put_said(page: &mut Page, request: ReadRequest) -> u8
    requires { HasRoom 6_000 page.old }
    ensures text { Puts 6_000 page.old (request_text request) page.new }
    ensures number { result ≡ planning_number request }
{
    let ReadPlan { set, alloc, number } = plan_of(request);
    if number != numbers::ACCEPTED {
        page.put_refused(number);
        return number;
    }
    planning::put_plan(page, set, alloc);
    number
}

// What is printed of a request that was read, its plan or the refusal, put at the start of the page, and its number.
pub fn request_text(request: ReadRequest, page: &mut [u8]) -> Said
    ensures { Says (request_text request) (planning_number request) page.old page.new result }
{
    if page.len() < PAGE_SIZE {
        return Said {
            length: 0,
            number: numbers::BUFFER_TOO_SHORT,
        };
    }
    let mut page = Page::new(page);
    let number = put_said(&mut page, request);
    Said {
        length: page.length(),
        number,
    }
}

// What `plan` prints of a request sheet's bytes, put at the start of the page, and its number.
pub fn plan_text(sheet: &[u8], page: &mut [u8]) -> Said
    ensures { Says (plan_printed sheet.now) (planning_number (read_request sheet.now)) page.old page.new result }
{
    let request = sheets::read_request(sheet);
    request_text(request, page)
}

// What `plan-sheet` writes: the plan sheet of a request sheet's bytes, put at the start of the buffer; refused, no byte of it changes.
pub fn plan_sheet(sheet: &[u8], out: &mut [u8]) -> Written
    ensures { WrotePlan (read_request sheet.now) out.old out.new result }
{
    let request = sheets::read_request(sheet);
    let plan = plan_of(request);
    if plan.number != numbers::ACCEPTED {
        return Written {
            length: 0,
            number: plan.number,
        };
    }
    sheets::write_plan(plan.set, plan.alloc, out)
}
