// The fields of a sheet, handed out one after another from the lent bytes. A reader holds the bytes and a cursor; nothing is copied.
// The functions over the struct are thin: all choices stand in `fields::field_at` and in `after`.
#![tactic(auto)]

ghost use Rattle.std.specs.Prelude.{◌≡◌, ◌+◌, ◌<◌, ◌^◌};
ghost use Rattle.fields.specs.Fields.{field_at};
ghost use Rattle.field_reader.specs.Cursor.{cursor_after, field_of, step_of, Advanced};
ghost use Rattle.field_reader.specs.Scanned.{stops_at, stop_number, with_field, scanned};

use fields::{Field, Passed};
use units::numbers;

// The lent bytes of a sheet, and where the next field begins.
#[derive(Clone, Copy)]
pub struct Reader<'a> {
    pub sheet: &'a [u8],
    pub at: usize,
}

// A reader at the first field.
pub fn new<'a>(sheet: &'a [u8]) -> Reader<'a>
    ensures { (result.sheet ≡ sheet.entry) × (result.at ≡ 0) }
{
    Reader { sheet, at: 0 }
}

// Looks at the next field.
pub fn peek<'a>(reader: Reader<'a>, passed: Passed) -> Field
    ensures { result ≡ field_of reader.entry passed }
{
    fields::field_at(reader.sheet, reader.at, passed)
}

// Where the cursor stands after a field: an accepted field moves it to the next one, a refused one leaves it.
pub fn after(at: usize, field: Field) -> usize
    ensures { result ≡ cursor_after at field }
{
    if field.number != numbers::ACCEPTED {
        return at;
    }
    field.next
}

// Hands out the next field and moves over it.
pub fn next<'s, 'a>(reader: &'s mut Reader<'a>, passed: Passed) -> Field
    ensures { Advanced reader.old passed reader.new result }
{
    let field = fields::field_at(reader.sheet, reader.at, passed);
    reader.at = after(reader.at, field);
    field
}

// The field at a place of the lent bytes, for whoever has no reader: one is made and looks.
pub fn field_of(sheet: &[u8], at: usize, passed: Passed) -> Field
    ensures { result ≡ field_at sheet.now at passed }
{
    peek(Reader { sheet, at }, passed)
}

// A field, and where the cursor stands after it.
#[derive(Clone, Copy)]
pub struct Step {
    pub field: Field,
    pub at: usize,
}

// The field at a place of the lent bytes and where the next one begins, for whoever has no reader: one is made and moves over the field.
pub fn step_of(sheet: &[u8], at: usize, passed: Passed) -> Step
    ensures { result ≡ step_of sheet.now at passed }
{
    let mut reader = Reader { sheet, at };
    let field = next(&mut reader, passed);
    Step {
        field,
        at: reader.at,
    }
}

// ---- a whole sheet

// What a walk over a sheet has seen: the number, 0 or 1, 2, 3; the fields that passed; and the place of the field at which it stopped.
#[derive(Clone, Copy)]
pub struct Scanned {
    pub number: u8,
    pub passed: Passed,
    pub at: usize,
}

// The walk stops at a field that is refused, and at the end field.
fn stops(field: Field) -> bool
    ensures { result ≡ stops_at field }
{
    let is_refused = field.number != numbers::ACCEPTED;
    is_refused | (field.tag == fields::END_TAG)
}

// Why it stops there; `size` is the length of the sheet.
fn stop_number(size: usize, field: Field) -> u8
    ensures { result ≡ stop_number size field }
{
    if field.number != numbers::ACCEPTED {
        return field.number;
    }
    if field.next < size {
        return numbers::RUNS_ON;
    }
    numbers::ACCEPTED
}

// One more field has passed, by its tag: a station, an allocation, or a field of the header, behind which the stations begin.
fn with_field(passed: Passed, tag: u8, next: usize) -> Passed
    requires { (passed.stations + 1 < 2 ^ 64) × (passed.allocations + 1 < 2 ^ 64) }
    ensures { result ≡ with_field passed tag next }
{
    if tag == fields::STATION_TAG {
        return Passed {
            stations: passed.stations + 1,
            ..passed
        };
    }
    if tag == fields::ALLOCATION_TAG {
        return Passed {
            allocations: passed.allocations + 1,
            ..passed
        };
    }
    Passed {
        head: tag,
        from: next,
        ..passed
    }
}

// Walks over a whole sheet, field by field, and says how far it is well-formed.
pub fn scan_sheet(sheet: &[u8], plan: bool) -> Scanned
    ensures { result ≡ scanned plan sheet.now }
{
    let mut passed = Passed {
        plan,
        head: 0,
        from: 0,
        stations: 0,
        allocations: 0,
    };
    let mut at: usize = 0;
    let mut step = step_of(sheet, at, passed);
    while !stops(step.field) {
        passed = with_field(passed, step.field.tag, step.at);
        at = step.at;
        step = step_of(sheet, at, passed);
    }
    Scanned {
        number: stop_number(sheet.len(), step.field),
        passed,
        at,
    }
}
