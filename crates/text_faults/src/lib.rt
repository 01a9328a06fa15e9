// Why `compose` makes no sheet of a text. The first line that cannot be read: the word at which it can no longer be read, and what was expected there. The first line with a number out of its range, and which number that is.
#![tactic(auto)]

mod lines;
mod ranges;

ghost use Rattle.std.specs.Prelude.{◌≡◌};
ghost use Rattle.text_faults.specs.Words.{is_word_end, shown, nothing_found, with_byte, word_ended, found_on};
ghost use Rattle.text_faults.specs.Watching.{watch_start, next_line, line_ended, watched, watch_after};
ghost use Rattle.text_faults.specs.Expected.{form_at, expected_of};

use line_reader::Scan;

// How many bytes of a word are kept.
pub const WORD_SIZE: usize = 64;

// What is expected at a place of a line.
#[derive(Clone, Copy)]
pub enum Form {
    // One of the words that a line begins with.
    Word,
    // A whole number of 32 bits.
    Number,
    // A whole number of one byte.
    Byte,
    // The end of the line.
    End,
}

// What is expected, and at which place: 0 is the line's first word, 1 its first number, and so on.
#[derive(Clone, Copy)]
pub struct Expected {
    pub form: Form,
    pub place: usize,
}

// The word of a line that is being read: its first bytes, as they are shown; how many; its place; and whether the line can no longer be read behind it.
#[derive(Clone, Copy)]
pub struct Found {
    pub bytes: [u8; WORD_SIZE],
    pub length: usize,
    pub place: usize,
    pub stuck: bool,
}

// A text that is watched as it is read.
#[derive(Clone, Copy)]
pub struct Watch {
    pub found: Found,
    pub scan: Scan,
    // The number of the line that is being read.
    pub line: u64,
    // The first line that cannot be read, if there is one. Behind it nothing is looked at.
    pub unread: Option<u64>,
    // The first line with a number that is out of its range; 0: none.
    pub out: u64,
    // Which number that is: 1 TTRT, 2 the mode, 3 F, 4 g, 5 w, 6 C, 7 D, 8 P, 9 S; 0: none.
    pub number: u8,
}

// ---- a word

// A blank, or the start of a comment.
fn is_word_end(byte: u8) -> bool
    ensures { result ≡ is_word_end byte }
{
    let blank = (byte == 32) | (byte == 9) | (byte == 13);
    blank | (byte == b'#')
}

// A byte as it is shown: what a terminal cannot show is a question mark.
fn shown(byte: u8) -> u8
    ensures { result ≡ shown byte }
{
    let plain = (33 <= byte) & (byte <= 126);
    if plain {
        return byte;
    }
    b'?'
}

// No byte of the word at this place was read yet.
fn nothing_found(place: usize) -> Found
    ensures { result ≡ nothing_found place }
{
    Found {
        bytes: [0; WORD_SIZE],
        length: 0,
        place,
        stuck: false,
    }
}

// One byte more of the word.
fn with_byte(f: Found, byte: u8) -> Found
    ensures { result ≡ with_byte f byte }
{
    let length = f.length;
    if length >= WORD_SIZE {
        return f;
    }
    let mut longer = Found {
        length: length + 1,
        ..f
    };
    longer.bytes[length] = shown(byte);
    longer
}

// The word has ended: can the line still be read?
fn word_ended(f: Found, s: Scan) -> Found
    ensures { result ≡ word_ended f s }
{
    if f.stuck {
        return f;
    }
    let begins = lines::begins(s);
    Found {
        stuck: !begins,
        ..f
    }
}

// One byte more of the line, which was read so far.
fn found_on(f: Found, s: Scan, byte: u8) -> Found
    ensures { result ≡ found_on f s byte }
{
    let over = f.stuck | (s.phase == line_reader::COMMENT);
    if over {
        return f;
    }
    if is_word_end(byte) {
        return word_ended(f, s);
    }
    if s.phase != line_reader::BETWEEN {
        return with_byte(f, byte);
    }
    let begun = nothing_found(lines::place_of(s));
    with_byte(begun, byte)
}

// ---- a line, and the text

// No line was read yet.
pub fn begin() -> Watch
    ensures { result ≡ watch_start }
{
    Watch {
        found: nothing_found(0),
        scan: line_reader::fresh(),
        line: 1,
        unread: None,
        out: 0,
        number: 0,
    }
}

// The next line, behind one that was read.
fn next_line(w: Watch, out: u64, number: u8) -> Watch
    ensures { result ≡ next_line w out number }
{
    Watch {
        found: nothing_found(0),
        scan: line_reader::fresh(),
        line: line_reader::next_line(w.line),
        out,
        number,
        ..w
    }
}

// A line has ended: it cannot be read, or it may be the first with a number out of its range.
fn line_ended(w: Watch) -> Watch
    ensures { result ≡ line_ended w }
{
    if !lines::is_read(w.scan) {
        let found = word_ended(w.found, w.scan);
        return Watch {
            found,
            unread: Some(w.line),
            ..w
        };
    }
    let number = ranges::number_out(w.scan);
    let first = (w.out == 0) & (number != 0);
    if first {
        return next_line(w, w.line, number);
    }
    next_line(w, w.out, w.number)
}

// One byte more of the text.
fn watched(w: Watch, byte: u8) -> Watch
    ensures { result ≡ watched w byte }
{
    if w.unread.is_some() {
        return w;
    }
    if byte == b'\n' {
        return line_ended(w);
    }
    let found = found_on(w.found, w.scan, byte);
    let scan = line_reader::step(w.scan, byte);
    Watch { found, scan, ..w }
}

// The text goes on.
pub fn watch_on(w: Watch, text: &[u8]) -> Watch
    ensures { result ≡ watch_after w text.now }
{
    let mut stands = w;
    for byte in text {
        stands = watched(stands, *byte);
    }
    stands
}

// ---- what was expected

fn form_at(word: u64, place: usize) -> Form
    ensures { result ≡ form_at word place }
{
    if place == 0 {
        return Form::Word;
    }
    if place > lines::most_of(word) {
        return Form::End;
    }
    if lines::is_byte(word, place) {
        return Form::Byte;
    }
    Form::Number
}

// What was expected where the line can no longer be read: at the word that was found there, or, where no word is at fault, behind the line's last word.
pub fn expectation(w: Watch) -> Expected
    ensures { result ≡ expected_of w }
{
    let word = w.scan.word;
    if w.found.stuck {
        let place = w.found.place;
        let form = form_at(word, place);
        return Expected { form, place };
    }
    let place = lines::place_of(w.scan);
    let form = form_at(word, place);
    Expected { form, place }
}
