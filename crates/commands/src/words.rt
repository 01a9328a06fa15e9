// Words, by their bytes.
ghost use Rattle.std.specs.Prelude.{◌≡◌, min, length};
ghost use Rattle.commands.specs.Words.{same_bytes, status_word, shown_byte, Named};

// The word by which a caller asks for the status, on descriptor 3.
#[tactic(auto, using(crate::proofs::WordLaws::same_by_eq))]
pub fn asks_for_status(word: &[u8]) -> bool
    ensures { result ≡ same_bytes word.now status_word }
{
    word == b"--status-on-3".as_slice()
}

// A byte of a word as it is shown: one that is no printed character as `?`.
#[tactic(auto, unfolding(crate::specs::Words::shown_byte))]
fn shown_byte(byte: u8) -> u8
    ensures { result ≡ shown_byte byte }
{
    if byte.is_ascii_graphic() {
        return byte;
    }
    b'?'
}

// The most bytes by which a word is named.
pub const NAME_SIZE: usize = 64;

// How many bytes name a word.
fn name_length(word: &[u8]) -> usize
    ensures { result ≡ min 64 (length word.now) }
{
    word.len().min(NAME_SIZE)
}

// The bytes by which a word that is no command is named: the first so many of these.
#[derive(Clone, Copy)]
pub struct Name {
    pub bytes: [u8; NAME_SIZE],
    pub length: usize,
}

// How a word that is no command is named.
pub fn name_of(word: &[u8]) -> Name
    ensures { Named word.now result.bytes result.length }
{
    let length = name_length(word);
    let mut bytes: [u8; NAME_SIZE] = [0; NAME_SIZE];
    for i in 0..length {
        bytes[i] = shown_byte(word[i]);
    }
    Name { bytes, length }
}
