// What `compose` makes of a text: a set, for a plan with its allocation, read line by line; and a log's bytes as its lines are read.
#![tactic(auto)]

mod sending;

ghost use Rattle.std.specs.Prelude.{◌≡◌, ◌<◌, ◌^◌};
ghost use Rattle.command_compose.specs.Compose.{all_fit, is_line, line_tag, misplaced, with_ttrt, with_further, NumbersFit, set_and, alloc_and, with_station, is_visit_line, is_mark_line, is_record_line, logged_kind, with_record, with_unread, record_drafted, line_drafted, on_next_line, compose_start, is_whole, WroteDraft};
ghost use Rattle.command_compose.specs.Sent.{goes_out, WroteEnd, Piece, ComposedPiece, ComposedOn};

use line_reader::Scan;
use plans::Alloc;
use sets::Set;
use sheets::Written;
use text::PAGE_SIZE;
use units::numbers;

// The letters of `ttrt`, of `mode`, of `frame`, of `grid`, of `station`, of `visit` and of `mark`, each as one number to base 256.
const TTRT: u64 = 1_953_788_532;

const MODE: u64 = 1_836_016_741;

const FRAME: u64 = 440_005_651_813;

const GRID: u64 = 1_735_551_332;

const STATION: u64 = 32_497_584_235_442_030;

const VISIT: u64 = 508_575_312_244;

const MARK: u64 = 1_835_102_827;

// How many bytes are read at once.
const PIECE_SIZE: usize = 2_048;

// What was read of a text, line by line.
#[derive(Clone, Copy)]
pub struct Draft {
    pub set: Set,
    pub alloc: Alloc,
    // The number of the line that is being read.
    pub line: u64,
    // The first line that cannot be read, if there is one.
    pub unread: Option<u64>,
    // The highest tag of the header's lines that were read, as on a sheet: 0 none, 1 TTRT, 4 the mode, 5 F, 6 g.
    pub head: u8,
    // The stations are a request's, 1, or a plan's, 2; 0: none was read. Behind a record 3 where the plan was accepted, 4 where it was refused.
    pub kind: u8,
    // A line stood out of place.
    pub wrong: bool,
}

// A text that is being read: the draft, and what was read of the line.
#[derive(Clone, Copy)]
pub struct Composing {
    pub draft: Draft,
    pub scan: Scan,
}

// The text goes on: where its reading stands, and how many bytes of the page go out.
#[derive(Clone, Copy)]
pub struct Composed {
    pub composing: Composing,
    pub length: usize,
}

fn all_fit(s: Scan) -> bool
    ensures { result ≡ all_fit s }
{
    s.values.iter().all(|value| *value < 4_294_967_296)
}

// This word, with this many numbers.
pub fn is_line(s: Scan, code: u64, count: usize) -> bool
    ensures { result ≡ is_line s code count }
{
    let readable = !(s.phase == line_reader::UNREADABLE);
    readable & ((s.word == code) & ((s.count == count) & all_fit(s)))
}

// The same, its lines out of place.
fn misplaced_in(d: Draft) -> Draft
    ensures { result ≡ misplaced d }
{
    Draft { wrong: true, ..d }
}

// TTRT stands on the first line, once.
fn with_ttrt(d: Draft, ttrt: u32) -> Draft
    ensures { result ≡ with_ttrt d ttrt }
{
    if d.head != 0 {
        return misplaced_in(d);
    }
    let head = sets::head_of(ttrt);
    Draft {
        set: Set { head, ..d.set },
        head: fields::HEAD_TAG,
        ..d
    }
}

// A further line of the header stands behind TTRT's and before the first station, above those with lower tags, once.
fn with_further(d: Draft, tag: u8, number: u32) -> Draft
    ensures { result ≡ with_further d tag number }
{
    let placed = (fields::HEAD_TAG <= d.head) & ((d.head < tag) & (d.set.n == 0));
    if !placed {
        return misplaced_in(d);
    }
    let given = fields::header_number(true, number);
    let head = sets::with_head_number(d.set.head, tag, given);
    Draft {
        set: Set { head, ..d.set },
        head: tag,
        ..d
    }
}

// A number that fits 32 bits.
pub(crate) fn narrow(x: u64) -> u32
    requires { x < 2 ^ 32 }
    ensures { result ≡ x }
{
    x as u32
}

// The next station of the set.
fn set_and(t: Set, s: Scan) -> Set
    requires { (t.n < 128) × NumbersFit s }
    ensures { result ≡ set_and t s }
{
    let at = t.n as usize;
    let mut longer = Set { n: t.n + 1, ..t };
    longer.w[at] = narrow(s.values[0]);
    longer.c[at] = narrow(s.values[1]);
    longer.d[at] = narrow(s.values[2]);
    longer.p[at] = narrow(s.values[3]);
    longer
}

// The allocation of the next station.
fn alloc_and(a: Alloc, n: u32, s: Scan) -> Alloc
    requires { (n < 128) × NumbersFit s }
    ensures { result ≡ alloc_and a n s }
{
    let mut longer = a;
    longer.s[n as usize] = narrow(s.values[4]);
    longer
}

// A station behind TTRT, one of at most 128, all of one kind.
fn with_station(d: Draft, s: Scan, kind: u8) -> Draft
    requires { NumbersFit s }
    ensures { result ≡ with_station d s kind }
{
    let same = (d.kind == 0) | (d.kind == kind);
    let placed = (fields::HEAD_TAG <= d.head) & ((d.set.n < 128) & same);
    if !placed {
        return misplaced_in(d);
    }
    let set = set_and(d.set, s);
    let alloc = alloc_and(d.alloc, d.set.n, s);
    Draft {
        set,
        alloc,
        kind,
        ..d
    }
}

// `visit STATION START LIMIT SYNC ASYNC`.
pub(crate) fn is_visit_line(s: Scan) -> bool
    ensures { result ≡ is_visit_line s }
{
    let short = s.values[0] < 256;
    is_line(s, VISIT, 5) & short
}

// `mark STATION MARK`.
fn is_mark_line(s: Scan) -> bool
    ensures { result ≡ is_mark_line s }
{
    let short = (s.values[0] < 256) & (s.values[1] < 256);
    is_line(s, MARK, 2) & short
}

// A visit or a mark.
pub(crate) fn is_record_line(s: Scan) -> bool
    ensures { result ≡ is_record_line s }
{
    is_visit_line(s) | is_mark_line(s)
}

// The kind of a plan's stations behind a record.
fn logged_kind(t: Set, a: Alloc) -> u8
    ensures { result ≡ logged_kind t a }
{
    if plans::judge_plan(t, a).is_ok() {
        return 3;
    }
    4
}

// A record behind a plan's stations, or behind another record.
pub(crate) fn with_record(d: Draft) -> Draft
    ensures { result ≡ with_record d }
{
    if d.kind == 2 {
        let kind = logged_kind(d.set, d.alloc);
        return Draft { kind, ..d };
    }
    if d.kind < 3 {
        return misplaced_in(d);
    }
    d
}

// The first line that cannot be read is named.
#[tactic(auto, unfolding(crate::specs::Compose::with_unread))]
fn with_unread(d: Draft) -> Draft
    ensures { result ≡ with_unread d }
{
    Draft {
        unread: d.unread.or(Some(d.line)),
        ..d
    }
}

// The tag of a line of the header behind TTRT's; 0 for any other line.
fn line_tag(s: Scan) -> u8
    ensures { result ≡ line_tag s }
{
    if is_line(s, MODE, 1) {
        return fields::MODE_TAG;
    }
    if is_line(s, FRAME, 1) {
        return fields::FRAME_TAG;
    }
    if is_line(s, GRID, 1) {
        return fields::GRID_TAG;
    }
    0
}

// A record, or a line that cannot be read.
fn record_drafted(d: Draft, s: Scan) -> Draft
    ensures { result ≡ record_drafted d s }
{
    if is_record_line(s) {
        return with_record(d);
    }
    with_unread(d)
}

// One line.
fn line_drafted(d: Draft, s: Scan) -> Draft
    ensures { result ≡ line_drafted d s }
{
    if line_reader::is_empty_line(s) {
        return d;
    }
    if is_line(s, TTRT, 1) {
        let ttrt = narrow(s.values[0]);
        return with_ttrt(d, ttrt);
    }
    let tag = line_tag(s);
    if fields::MODE_TAG <= tag {
        let number = narrow(s.values[0]);
        return with_further(d, tag, number);
    }
    if is_line(s, STATION, 4) {
        return with_station(d, s, 1);
    }
    if is_line(s, STATION, 5) {
        return with_station(d, s, 2);
    }
    record_drafted(d, s)
}

// The next line.
fn on_next_line(d: Draft) -> Draft
    ensures { result ≡ on_next_line d }
{
    Draft {
        line: line_reader::next_line(d.line),
        ..d
    }
}

// No line was read yet.
pub fn begin() -> Composing
    ensures { result ≡ compose_start }
{
    let draft = Draft {
        set: sets::blank_set(),
        alloc: plans::blank_alloc(),
        line: 1,
        unread: None,
        head: 0,
        kind: 0,
        wrong: false,
    };
    Composing {
        draft,
        scan: line_reader::fresh(),
    }
}

// A piece of the text, read line by line; what it lets out is put at the start of the page.
fn compose_piece(c: Composing, piece: &[u8], page: &mut [u8]) -> Composed
    requires { Piece piece.now page.old }
    ensures { ComposedPiece c piece.now page.old page.new result }
{
    let mut draft = c.draft;
    let mut read = c.scan;
    let mut next: usize = 0;
    for byte in piece {
        if *byte == b'\n' {
            next = sending::put_line(page, next, draft, read);
            let drafted = line_drafted(draft, read);
            draft = on_next_line(drafted);
            read = line_reader::fresh();
        } else {
            read = line_reader::step(read, *byte);
        }
    }
    Composed {
        composing: Composing { draft, scan: read },
        length: next,
    }
}

// The text goes on over at most 2,048 of its bytes: what they let out is put at the start of the page. A page that is too small leaves all as it was.
pub fn compose_on(c: Composing, text: &[u8], page: &mut [u8]) -> Composed
    ensures { ComposedOn c text.now page.old page.new result }
{
    if page.len() < PAGE_SIZE {
        return Composed {
            composing: c,
            length: 0,
        };
    }
    compose_piece(c, line_reader::piece(text, PIECE_SIZE), page)
}

// ---- the end of the text

// A sheet can be made.
fn is_whole(d: Draft) -> bool
    ensures { result ≡ is_whole d }
{
    d.unread.is_none() & (!d.wrong & (fields::HEAD_TAG <= d.head))
}

// The text is a log's so far.
pub(crate) fn goes_out(d: Draft) -> bool
    ensures { result ≡ goes_out d }
{
    is_whole(d) & (d.kind == 3)
}

// The sheet of the text that was read, put at the start of the buffer; refused, no byte of it changes.
fn write_draft(d: Draft, out: &mut [u8]) -> Written
    ensures { WroteDraft d out.old out.new result }
{
    if !is_whole(d) {
        return Written {
            length: 0,
            number: numbers::WRONG_SHAPE,
        };
    }
    if 2 <= d.kind {
        return sheets::write_plan(d.set, d.alloc, out);
    }
    sheets::write_request(d.set, out)
}

// The last bytes of the text that was read, put at the start of the buffer: a log's end, or the sheet; refused, no byte of it changes.
pub fn compose_end(d: Draft, out: &mut [u8]) -> Written
    ensures { WroteEnd d out.old out.new result }
{
    if !goes_out(d) {
        return write_draft(d, out);
    }
    let number = sheets::records::put_end(out, 0);
    if number != numbers::ACCEPTED {
        return Written { length: 0, number };
    }
    Written { length: 3, number }
}
