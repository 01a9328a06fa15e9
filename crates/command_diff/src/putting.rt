// The lines of differences, put into a page one behind another.
ghost use Rattle.std.specs.Prelude.{◌≡◌, [], ◌∷◌, ◌-◌, ◌*◌, ◌≤◌, ◌<◌};
ghost use Rattle.units.specs.Places.{at as place_at};
ghost use Rattle.text.specs.Text.{line_on, space};
ghost use Rattle.text.specs.Pages.{HasRoom, Puts};
ghost use Rattle.differences.specs.Views.{header_of, number_of};
ghost use Rattle.differences.specs.Differences.{in_header, in_station, changed, gathered, headers_changed, station_changed, alone, alone_from, differences};
ghost use Rattle.command_diff.specs.DiffText.{letter_word, side_word, five_words, line_of, lines_of, lines_size};

use plans::Alloc;
use sets::{Head, Set};
use text::Page;

// ---- the header

// A number of the header, if it differs: its tag, old and new.
fn put_header(page: &mut Page, tag: u64, old: u32, new: u32)
    requires { HasRoom 63 page.old }
    ensures { Puts 63 page.old (lines_of (changed (in_header tag) old new)) page.new }
{
    if old == new {
        return;
    }
    page.put_number(tag);
    page.put_line(b"", &[u64::from(old), u64::from(new)]);
}

// Tags 1, 4, 5 and 6.
fn put_headers(page: &mut Page, h: Head, k: Head)
    requires { HasRoom 252 page.old }
    ensures { Puts 252 page.old (lines_of (headers_changed (header_of h) (header_of k))) page.new }
{
    put_header(page, 1, h.ttrt, k.ttrt);
    put_header(page, 4, h.mode, k.mode);
    put_header(page, 5, h.frame, k.frame);
    put_header(page, 6, h.grid, k.grid);
}

// ---- a station that both plans have

// w, C, D, P or S.
#[tactic(auto, unfolding(crate::specs::DiffText::letter_word))]
fn letter_of(letter: u8) -> u8
    ensures { result ∷ [] ≡ letter_word letter }
{
    match letter {
        0 => b'w',
        1 => b'C',
        2 => b'D',
        3 => b'P',
        _ => b'S',
    }
}

// One of its numbers, if it differs: the station, the letter, old and new.
fn put_number(page: &mut Page, station: u64, letter: u8, old: u32, new: u32)
    requires { HasRoom 83 page.old }
    ensures { Puts 83 page.old (lines_of (changed (in_station station letter) old new)) page.new }
{
    if old == new {
        return;
    }
    page.put_number(station);
    page.put_line(
        &[b' ', letter_of(letter)],
        &[u64::from(old), u64::from(new)],
    );
}

// All five.
fn put_station(page: &mut Page, t: Set, a: Alloc, u: Set, b: Alloc, i: usize)
    requires { (i < 128) × HasRoom 415 page.old }
    ensures { Puts 415 page.old (lines_of (station_changed (number_of t a) (number_of u b) i)) page.new }
{
    let station = i as u64;
    put_number(page, station, 0, t.w[i], u.w[i]);
    put_number(page, station, 1, t.c[i], u.c[i]);
    put_number(page, station, 2, t.d[i], u.d[i]);
    put_number(page, station, 3, t.p[i], u.p[i]);
    put_number(page, station, 4, a.s[i], b.s[i]);
}

// The stations that both plans have, in number order.
fn put_stations(page: &mut Page, t: Set, a: Alloc, u: Set, b: Alloc, shared: usize)
    requires { (shared ≤ 128) × HasRoom (415 * shared) page.old }
    ensures { Puts (415 * shared) page.old (lines_of (gathered shared (station_changed (number_of t a) (number_of u b)))) page.new }
{
    for i in 0..shared {
        put_station(page, t, a, u, b, i);
    }
}

// ---- stations that one plan alone has

// A space, and `new` or `old`.
fn put_side(page: &mut Page, new: bool)
    requires { HasRoom 20 page.old }
    ensures { Puts 20 page.old (space ∷ side_word new) page.new }
{
    if new {
        page.put_short(b" new");
        return;
    }
    page.put_short(b" old");
}

// Its w, C, D, P and S, and the line's end.
fn put_five(page: &mut Page, t: Set, a: Alloc, i: usize)
    requires { (i < 128) × HasRoom 106 page.old }
    ensures { Puts 106 page.old (line_on (five_words (place_at t.w i) (place_at t.c i) (place_at t.d i) (place_at t.p i) (place_at a.s i))) page.new }
{
    page.put_line(
        b"",
        &[
            u64::from(t.w[i]),
            u64::from(t.c[i]),
            u64::from(t.d[i]),
            u64::from(t.p[i]),
            u64::from(a.s[i]),
        ],
    );
}

// One of them: its number, the side, and its five numbers.
fn put_alone(page: &mut Page, new: bool, t: Set, a: Alloc, i: usize)
    requires { (i < 128) × HasRoom 146 page.old }
    ensures { Puts 146 page.old (line_of (alone new (number_of t a) i)) page.new }
{
    let station = i as u64;
    page.put_number(station);
    put_side(page, new);
    put_five(page, t, a, i);
}

// Those from one station on, up to another.
fn put_alones(page: &mut Page, new: bool, t: Set, a: Alloc, from: usize, end: usize)
    requires { ((from ≤ 128) × (end ≤ 128)) × HasRoom (146 * (end - from)) page.old }
    ensures { Puts (146 * (end - from)) page.old (lines_of (alone_from new (number_of t a) from (end - from))) page.new }
{
    for i in from..end {
        put_alone(page, new, t, a, i);
    }
}

// ---- all of it

// All differences of two plans.
pub(crate) fn put_differences(page: &mut Page, t: Set, a: Alloc, u: Set, b: Alloc)
    requires { ((t.n ≤ 128) × (u.n ≤ 128)) × HasRoom lines_size page.old }
    ensures { Puts lines_size page.old (lines_of (differences t a u b)) page.new }
{
    let n = units::places(t.n);
    let m = units::places(u.n);
    let shared = n.min(m);
    put_headers(page, t.head, u.head);
    put_stations(page, t, a, u, b, shared);
    put_alones(page, true, u, b, n, m);
    put_alones(page, false, t, a, m, n);
}
