// What `show` prints: a request or plan sheet as text.
ghost use Rattle.std.specs.Prelude.{◌+◌, ◌*◌, ◌<◌, ◌≤◌, [], ◌∷◌, length};
ghost use Rattle.fields.specs.Rows.{rows};
ghost use Rattle.fields.specs.Header.{further_count};
ghost use Rattle.text.specs.Text.{decimal_of, line};
ghost use Rattle.text.specs.Pages.{HasRoom, Puts};
ghost use Rattle.sheet_text_rules.specs.ShowText.{further_line, number_line, head_lines, station_line, sheet_text};

use plans::Alloc;
use sets::{Head, Set};
use text::Page;

// A line of a word and a number.
fn put_named(page: &mut Page, word: &[u8], number: u64)
    requires { (length word.now ≤ 20) × HasRoom 42 page.old }
    ensures { Puts 42 page.old (line (word.now ∷ decimal_of number ∷ [])) page.new }
{
    page.put_line(word, &[number]);
}

// `mode M`, `frame F` or `grid G`, by the tag, if the number is not what its absence means.
fn put_further(page: &mut Page, tag: u8, number: u32)
    requires { HasRoom 42 page.old }
    ensures { Puts 42 page.old (further_line tag number) page.new }
{
    if number == fields::ABSENT {
        return;
    }
    let told = u64::from(number);
    if tag == fields::MODE_TAG {
        put_named(page, b"mode", told);
        return;
    }
    if tag == fields::FRAME_TAG {
        put_named(page, b"frame", told);
        return;
    }
    put_named(page, b"grid", told);
}

// The lines of the header's numbers behind TTRT.
fn put_numbers(page: &mut Page, h: Head)
    requires { HasRoom (42 * further_count) page.old }
    ensures { Puts (42 * further_count) page.old (rows further_count (number_line h)) page.new }
{
    for k in 0..fields::FURTHER_COUNT {
        let tag = fields::MODE_TAG + k;
        let number = sets::head_number(h, tag);
        put_further(page, tag, number);
    }
}

// The header's lines: `ttrt N`, then those of the numbers behind it.
fn put_header(page: &mut Page, h: Head)
    requires { HasRoom (42 + 42 * further_count) page.old }
    ensures { Puts (42 + 42 * further_count) page.old (head_lines h further_count) page.new }
{
    put_named(page, b"ttrt", u64::from(h.ttrt));
    put_numbers(page, h);
}

// The line of station i.
fn put_station(page: &mut Page, plan: bool, t: Set, a: Alloc, i: usize)
    requires { (i < 128) × HasRoom 126 page.old }
    ensures { Puts 126 page.old (station_line plan t a i) page.new }
{
    let w = u64::from(t.w[i]);
    let c = u64::from(t.c[i]);
    let d = u64::from(t.d[i]);
    let p = u64::from(t.p[i]);
    let s = u64::from(a.s[i]);
    if plan {
        page.put_line(b"station", &[w, c, d, p, s]);
        return;
    }
    page.put_line(b"station", &[w, c, d, p]);
}

// A line for each station.
fn put_stations(page: &mut Page, plan: bool, t: Set, a: Alloc)
    requires { (t.n ≤ 128) × HasRoom (126 * 128) page.old }
    ensures { Puts (126 * 128) page.old (rows t.n (station_line plan t a)) page.new }
{
    for i in 0..units::places(t.n) {
        put_station(page, plan, t, a, i);
    }
}

// The header's lines, then the stations.
pub(crate) fn put_sheet(page: &mut Page, plan: bool, t: Set, a: Alloc)
    requires { (t.n ≤ 128) × HasRoom 20_000 page.old }
    ensures { Puts 20_000 page.old (sheet_text plan t a) page.new }
{
    put_header(page, t.head);
    put_stations(page, plan, t, a);
}
