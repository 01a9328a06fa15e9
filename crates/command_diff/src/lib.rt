// What `diff` prints of two plan sheets: a line for each difference, `same`, or which side is refused.
#![tactic(auto)]

mod putting;

ghost use Rattle.sheets.specs.Reading.{read_plan};
ghost use Rattle.text.specs.Text.{line};
ghost use Rattle.text.specs.Pages.{HasRoom, Puts};
ghost use Rattle.command_diff.specs.DiffText.{old_word, new_word, same_word, lines_size, side_refused, LinesPutOn, Compared, DiffedOn};
ghost use Rattle.std.specs.Prelude.{cond, [], ◌∷◌};

use plans::Alloc;
use sets::Set;
use text::{PAGE_SIZE, Page};
use units::numbers;

// How many bytes of the page are the answer, and whether it is `same`.
#[repr(C)]
#[derive(Clone, Copy)]
pub struct Diffed {
    pub length: usize,
    pub same: bool,
}

// How many bytes of a page the lines of any two plans need at most.
pub const LINES_SIZE: usize = 60_000;

// The lines of the differences of two plans. A page that has no room for the longest, and a plan of more stations than there are, get nothing.
pub fn put_lines(page: &mut Page, t: Set, a: Alloc, u: Set, b: Alloc)
    ensures { LinesPutOn t a u b page.old page.new }
{
    let few = (t.n <= numbers::MOST_STATIONS) & (u.n <= numbers::MOST_STATIONS);
    if !few {
        return;
    }
    if page.room() < LINES_SIZE {
        return;
    }
    putting::put_differences(page, t, a, u, b);
}

// `old refused N` or `new refused N`.
fn put_refused(page: &mut Page, new: bool, number: u8)
    requires { HasRoom 62 page.old }
    ensures { Puts 62 page.old (side_refused (cond new new_word old_word) number) page.new }
{
    if new {
        page.put_line(b"new refused", &[u64::from(number)]);
        return;
    }
    page.put_line(b"old refused", &[u64::from(number)]);
}

// `same`.
fn put_same(page: &mut Page)
    requires { HasRoom 21 page.old }
    ensures { Puts 21 page.old (line (same_word ∷ [])) page.new }
{
    page.put_line(b"same", &[]);
}

// The lines of two files' plans, `same`, or which side is refused. It answers whether it is `same`.
fn put_compared(page: &mut Page, old: &[u8], new: &[u8]) -> bool
    requires { HasRoom lines_size page.old }
    ensures { Compared (read_plan old.now) (read_plan new.now) page.old page.new result }
{
    let before = sheets::read_plan(old);
    if before.number != numbers::ACCEPTED {
        put_refused(page, false, before.number);
        return false;
    }
    let after = sheets::read_plan(new);
    if after.number != numbers::ACCEPTED {
        put_refused(page, true, after.number);
        return false;
    }
    let begun = page.length();
    putting::put_differences(page, before.set, before.alloc, after.set, after.alloc);
    if page.length() == begun {
        put_same(page);
        return true;
    }
    false
}

// What `diff` prints of the bytes of two files, put at the start of the page.
pub fn diff_text(old: &[u8], new: &[u8], page: &mut [u8]) -> Diffed
    ensures { DiffedOn (read_plan old.now) (read_plan new.now) page.old page.new result }
{
    if page.len() < PAGE_SIZE {
        return Diffed {
            length: 0,
            same: false,
        };
    }
    let mut page = Page::new(page);
    let same = put_compared(&mut page, old, new);
    Diffed {
        length: page.length(),
        same,
    }
}
