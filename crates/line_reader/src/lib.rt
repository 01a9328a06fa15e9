// A line of text, read byte after byte: a word, and up to five numbers behind it; and the pieces in which a text is read.
#![tactic(auto)]

ghost use Rattle.std.specs.Prelude.{◌≡◌, ◌+◌, ◌-◌, ◌*◌, ◌<◌, ◌≤◌, ◌^◌, ltb, take};
ghost use Rattle.line_reader.specs.Scan.{is_blank, fresh_scan, in_phase, letter_read, number_begun, digit_read, character_read, stepped, is_empty_line, next_line};

// ---- where in a line the reading stands

pub const BETWEEN: u8 = 0;

pub const WORD: u8 = 1;

pub const NUMBER: u8 = 2;

pub const COMMENT: u8 = 3;

pub const UNREADABLE: u8 = 4;

// What was read of a line so far.
#[repr(C)]
#[derive(Clone, Copy)]
pub struct Scan {
    // The numbers, in their order; 0 where none was read.
    pub values: [u64; 5],
    // The letters of the first word as one number to base 256; 0: none was read.
    pub word: u64,
    // How many numbers were begun.
    pub count: usize,
    // One of the five numbers above.
    pub phase: u8,
}

// Nothing was read yet.
pub fn fresh() -> Scan
    ensures { result ≡ fresh_scan }
{
    Scan {
        values: [0; 5],
        word: 0,
        count: 0,
        phase: BETWEEN,
    }
}

// A space, a tab or a carriage return.
fn is_blank(byte: u8) -> bool
    ensures { result ≡ is_blank byte }
{
    matches!(byte, b' ' | b'\t' | b'\r')
}

// The same, in another phase.
fn in_phase(s: Scan, phase: u8) -> Scan
    ensures { result ≡ in_phase s phase }
{
    Scan { phase, ..s }
}

// A letter of the first word, which has at most eight.
#[tactic(auto, unfolding(crate::specs::Scan::letter_read))]
fn letter_read(s: Scan, byte: u8) -> Scan
    ensures { result ≡ letter_read s byte }
{
    let readable = byte.is_ascii_lowercase() & (s.word < 72_057_594_037_927_936);
    if !readable {
        return in_phase(s, UNREADABLE);
    }
    Scan {
        word: s.word * 256 + u64::from(byte),
        phase: WORD,
        ..s
    }
}

// The number that a digit stands for.
fn digit_of(byte: u8) -> u64
    requires { 48 ≤ byte }
    ensures { result ≡ byte - 48 }
{
    u64::from(byte - b'0')
}

// The first digit of a number; a line has at most five numbers.
#[tactic(auto, unfolding(crate::specs::Scan::number_begun))]
fn number_begun(s: Scan, byte: u8) -> Scan
    ensures { result ≡ number_begun s byte }
{
    let count = s.count;
    let readable = byte.is_ascii_digit() & (count < 5);
    if !readable {
        return in_phase(s, UNREADABLE);
    }
    let mut values = s.values;
    values[count] = digit_of(byte);
    Scan {
        values,
        count: count + 1,
        phase: NUMBER,
        ..s
    }
}

// One more digit leaves the number below 2 ^ 64.
fn has_room(value: u64, digit: u64) -> bool
    requires { digit < 10 }
    ensures { result ≡ ltb (value * 10 + digit) (2 ^ 64) }
{
    value <= (18_446_744_073_709_551_615 - digit) / 10
}

// A further digit of a number.
#[tactic(auto, unfolding(crate::specs::Scan::digit_read))]
fn digit_read(s: Scan, byte: u8) -> Scan
    ensures { result ≡ digit_read s byte }
{
    let count = s.count;
    let begun = (1 <= count) & (count <= 5);
    let readable = byte.is_ascii_digit() & begun;
    if !readable {
        return in_phase(s, UNREADABLE);
    }
    let last = count - 1;
    let mut values = s.values;
    let value = values[last];
    let digit = digit_of(byte);
    if !has_room(value, digit) {
        return in_phase(s, UNREADABLE);
    }
    values[last] = value * 10 + digit;
    Scan {
        values,
        phase: NUMBER,
        ..s
    }
}

// A byte of a word or a number.
#[tactic(auto, unfolding(crate::specs::Scan::character_read))]
fn character_read(s: Scan, byte: u8) -> Scan
    ensures { result ≡ character_read s byte }
{
    if s.phase == NUMBER {
        return digit_read(s, byte);
    }
    let in_word = (s.phase == WORD) | (s.word == 0);
    if in_word {
        return letter_read(s, byte);
    }
    number_begun(s, byte)
}

// One byte more of the line.
#[tactic(auto, unfolding(crate::specs::Scan::stepped))]
pub fn step(s: Scan, byte: u8) -> Scan
    ensures { result ≡ stepped s byte }
{
    let over = (s.phase == COMMENT) | (s.phase == UNREADABLE);
    if over {
        return s;
    }
    if byte == b'#' {
        return in_phase(s, COMMENT);
    }
    if is_blank(byte) {
        return in_phase(s, BETWEEN);
    }
    character_read(s, byte)
}

// ---- a line that was read

// Nothing stands in the line, or a comment alone.
pub fn is_empty_line(s: Scan) -> bool
    ensures { result ≡ is_empty_line s }
{
    let readable = s.phase != UNREADABLE;
    readable & (s.word == 0)
}

// The number of the next line; it stays at the largest number.
pub fn next_line(line: u64) -> u64
    ensures { result ≡ next_line line }
{
    line.saturating_add(1)
}

// ---- a text in pieces

// The bytes of a text that are read at once: the first so many, or all if they are fewer.
pub fn piece(text: &[u8], most: usize) -> &[u8]
    ensures { result.now ≡ take most text.now }
{
    &text[..most.min(text.len())]
}
