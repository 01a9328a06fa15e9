// Text put into a page. Each public method puts a text behind what was put before. If the page has no room for the most bytes that the method may put, the page stays as it was.
#![tactic(auto)]

pub mod phrases;

ghost use Rattle.std.specs.Prelude.{◌≡◌, [], ◌∷◌, ◌+◌, ◌-◌, ◌*◌, ◌^◌, ◌<◌, leb, length};
ghost use Rattle.units.specs.Places.{at as place_at};
ghost use Rattle.text.specs.Text.{digit, decimal_of, space, newline, fields_of, number_words, line, refused_line, unread_line};
ghost use Rattle.text.specs.Pages.{HasRoom, Begins, Puts, PutsWithin};
ghost use Rattle.text.specs.Filled.{piece_of, used_by, filled, PutsFilled};

// How many bytes a page must have, so that every text of the program fits.
pub const PAGE_SIZE: usize = 65_536;

// What was put at the start of a page: how many bytes, and the number of the refusal that they say, 0 where they say none. A page that is too small holds no text, and its number is 14.
#[repr(C)]
#[derive(Clone, Copy)]
pub struct Said {
    pub length: usize,
    pub number: u8,
}

// A page that was lent, and the place behind what was put into it.
#[derive(Drop)]
pub struct Page<'a> {
    bytes: &'a mut [u8],
    at: usize,
}

impl<'a> Page<'a> {
    // A page into which nothing was put.
    pub fn new(bytes: &'a mut [u8]) -> Page<'a>
        ensures begins { Begins bytes.old result }
        ensures same { result.bytes.ghost_name ≡ bytes.entry.ghost_name }
    {
        Page { bytes, at: 0 }
    }

    // How many bytes were put.
    pub fn length(&self) -> usize
        ensures { result ≡ self.now.at }
    {
        self.at
    }

    // How many bytes more have room.
    pub fn room(&self) -> usize
        ensures { result ≡ length self.now.bytes.now - self.now.at }
    {
        self.bytes.len().saturating_sub(self.at)
    }

    // There is room for a line of a word of so many bytes and of so many numbers.
    fn has_room(&self, word: usize, numbers: usize) -> bool
        ensures { result ≡ leb (self.now.at + (word + (21 * numbers + 1))) (length self.now.bytes.now) }
    {
        let room = self.room().saturating_sub(word);
        1 <= room && numbers <= (room - 1) / 21
    }

    // One byte.
    fn put_byte(&mut self, byte: u8)
        requires { HasRoom 1 self.old }
        ensures { Puts 1 self.old (byte ∷ []) self.new }
    {
        self.bytes[self.at] = byte;
        self.at += 1;
    }

    // The bytes of a word.
    #[tactic(auto, using(crate::proofs::PageLaws::word_put))]
    fn put_word(&mut self, word: &[u8])
        requires { HasRoom (length word.now) self.old }
        ensures { Puts (length word.now) self.old word.now self.new }
    {
        let next = self.at + word.len();
        self.bytes[self.at..next].copy_from_slice(word);
        self.at = next;
    }

    // A number below 10.
    fn put_digit(&mut self, d: u64)
        requires { (d < 10) × HasRoom 1 self.old }
        ensures { Puts 1 self.old (digit d ∷ []) self.new }
    {
        let small = d as u8;
        self.put_byte(48 + small);
    }

    // A number in decimal.
    fn put_decimal(&mut self, n: u64)
        requires { HasRoom (length (decimal_of n)) self.old }
        ensures { Puts (length (decimal_of n)) self.old (decimal_of n) self.new }
    {
        if n < 10 {
            self.put_digit(n);
            return;
        }
        self.put_decimal(n / 10);
        self.put_digit(n % 10);
    }

    // A space, and a number.
    fn put_spaced(&mut self, n: u64)
        requires { HasRoom 21 self.old }
        ensures { Puts 21 self.old (space ∷ decimal_of n) self.new }
    {
        self.put_byte(b' ');
        self.put_decimal(n);
    }

    // The numbers, each with a space before it.
    fn put_fields(&mut self, numbers: &[u64])
        requires { HasRoom (21 * length numbers.now) self.old }
        ensures { Puts (21 * length numbers.now) self.old (fields_of numbers.now) self.new }
    {
        for number in numbers {
            self.put_spaced(*number);
        }
    }

    // A word of at most 20 bytes.
    pub fn put_short(&mut self, word: &[u8])
        ensures { PutsWithin 20 self.old word.now self.new }
    {
        if word.len() > 20 {
            return;
        }
        if self.room() < 20 {
            return;
        }
        self.put_word(word);
    }

    // A number at the start of a line.
    pub fn put_number(&mut self, number: u64)
        ensures { PutsWithin 20 self.old (decimal_of number) self.new }
    {
        if self.room() < 20 {
            return;
        }
        self.put_decimal(number);
    }

    // A space, and a number.
    pub fn put_field(&mut self, n: u64)
        ensures { PutsWithin 21 self.old (space ∷ decimal_of n) self.new }
    {
        if self.room() < 21 {
            return;
        }
        self.put_spaced(n);
    }

    // The end of a line.
    pub fn put_end(&mut self)
        ensures { PutsWithin 1 self.old (newline ∷ []) self.new }
    {
        if self.room() < 1 {
            return;
        }
        self.put_word(b"\n");
    }

    // A line: a word, the numbers with a space before each, and the line's end.
    pub fn put_line(&mut self, word: &[u8], numbers: &[u64])
        ensures { PutsWithin (length word.now + (21 * length numbers.now + 1)) self.old (line (word.now ∷ number_words numbers.now)) self.new }
    {
        if !self.has_room(word.len(), numbers.len()) {
            return;
        }
        self.put_word(word);
        self.put_fields(numbers);
        self.put_byte(b'\n');
    }

    // `refused`, and the number.
    pub fn put_refused(&mut self, number: u8)
        ensures { PutsWithin 42 self.old (refused_line number) self.new }
    {
        if self.room() < 42 {
            return;
        }
        self.put_line(b"refused", &[u64::from(number)]);
    }

    // `line N: cannot be read`.
    pub fn put_unread(&mut self, line: u64)
        ensures { PutsWithin 42 self.old (unread_line line) self.new }
    {
        if self.room() < 42 {
            return;
        }
        self.put_word(b"line");
        self.put_spaced(line);
        self.put_word(b": cannot be read\n");
    }

    // ---- words with numbers among them

    // What a byte of the words stands for: `#` for a number, any other byte for itself.
    fn put_piece(&mut self, byte: u8, n: u64)
        requires { HasRoom 20 self.old }
        ensures { Puts 20 self.old (piece_of byte n) self.new }
    {
        if byte == b'#' {
            self.put_decimal(n);
            return;
        }
        self.put_byte(byte);
    }

    // The words, byte after byte.
    fn put_pieces(&mut self, words: &[u8], numbers: [u64; 6])
        requires { HasRoom (20 * length words.now) self.old }
        ensures { Puts (20 * length words.now) self.old (filled words.now numbers) self.new }
    {
        let mut used: usize = 0;
        for byte in words {
            let n = number_of(numbers, used);
            self.put_piece(*byte, n);
            used = used_by(used, *byte);
        }
    }

    // Words of at most 100 bytes, with a number in the place of each `#`: the first number for the first, and so on.
    pub fn put_filled(&mut self, words: &[u8], numbers: [u64; 6])
        ensures { PutsFilled words.now numbers self.old self.new }
    {
        if words.len() > 100 {
            return;
        }
        if self.room() < 2_000 {
            return;
        }
        self.put_pieces(words, numbers);
    }
}

// How many numbers are used behind a byte, where so many were before it.
fn used_by(used: usize, byte: u8) -> usize
    requires { used + 1 < 2 ^ 64 }
    ensures { result ≡ used_by used byte }
{
    if byte == b'#' {
        return used + 1;
    }
    used
}

// Number k of these; 0 behind them.
fn number_of(numbers: [u64; 6], k: usize) -> u64
    ensures { result ≡ place_at numbers k }
{
    numbers.get(k).copied().unwrap_or(0)
}
