// What `compose` says on standard error behind its first line there: the word at which a line can no longer be read and what was expected, or the line with a number out of its range. Which of these it is `text_faults` decides; the words stand here.
use streams::complaints::Complain;
use streams::{ending, reading};
use text::Page;
use text_faults::{Expected, Form, Watch};

// For words without numbers.
const NONE: [u64; 6] = [0; 6];

// What was expected.
fn put_expected(page: &mut Page, e: Expected) {
    // A cast: the library has no widening of this type.
    let place = e.place as u64;
    let numbers: [u64; 6] = [place, 0, 0, 0, 0, 0];
    match e.form {
        Form::Word => page.put_filled(
            b"expected ttrt, mode, frame, grid, station, visit or mark, found ",
            numbers,
        ),
        Form::Number => page.put_filled(
            b"expected number #, a whole number up to 4,294,967,295, found ",
            numbers,
        ),
        Form::Byte => page.put_filled(
            b"expected number #, a whole number up to 255, found ",
            numbers,
        ),
        Form::End => page.put_filled(b"expected the end of the line, found ", numbers),
    }
}

// A word that was found, in which no `#` stands.
fn put_word(page: &mut Page, bytes: &[u8], count: usize) {
    let length = reading::further(0, count, bytes.len());
    page.put_filled(&bytes[..length], NONE);
    page.put_end();
}

// What was found in its place: a word, or no word any more.
fn put_found(page: &mut Page, w: Watch) {
    if !w.found.stuck {
        page.put_filled(b"the end of the line\n", NONE);
        return;
    }
    put_word(page, &w.found.bytes, w.found.length);
}

// The number of a line that is out of its range.
fn put_range(page: &mut Page, number: u8, line: u64) {
    let numbers: [u64; 6] = [line, 0, 0, 0, 0, 0];
    match number {
        1 => page.put_filled(b"line #: TTRT is not in 1 to 1,000,000\n", numbers),
        2 => page.put_filled(
            b"line #: the mode is not in 2 to 3, leave the line out for 1\n",
            numbers,
        ),
        3 => page.put_filled(
            b"line #: F is not in 2 to 65,535, leave the line out for 1\n",
            numbers,
        ),
        4 => page.put_filled(
            b"line #: g is not in 2 to 1,000, leave the line out for 1\n",
            numbers,
        ),
        5 => page.put_filled(b"line #: w is not in 0 to 1,000,000\n", numbers),
        6 => page.put_filled(b"line #: C is not in 0 to 100,000,000\n", numbers),
        7 => page.put_filled(b"line #: D is not in 1 to 100,000,000\n", numbers),
        8 => page.put_filled(b"line #: P is not in D to 100,000,000\n", numbers),
        9 => page.put_filled(b"line #: S is not in 0 to 1,000,000\n", numbers),
        _ => {}
    }
}

// Behind a line that cannot be read: the word there, and what was expected.
pub(crate) fn name_word(rt: &impl Complain, w: Watch) {
    let mut buffer = io::buffer();
    let mut page = Page::new(&mut buffer);
    let expected = text_faults::expectation(w);
    put_expected(&mut page, expected);
    put_found(&mut page, w);
    let put = page.length();
    ending::warn_put(rt, &buffer, put);
}

// Behind a refusal with 4: the first line with a number out of its range.
pub(crate) fn name_number(rt: &impl Complain, w: Watch) {
    let mut buffer = io::buffer();
    let mut page = Page::new(&mut buffer);
    put_range(&mut page, w.number, w.out);
    let put = page.length();
    ending::warn_put(rt, &buffer, put);
}
