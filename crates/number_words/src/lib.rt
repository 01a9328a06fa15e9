// A word that writes a whole number, of any size: whether it is one, and which.
#![tactic(auto)]

ghost use Rattle.std.specs.Prelude.{◌≡◌, ◌-◌, ◌≤◌};
ghost use Rattle.units.specs.Small.{UpTo};
ghost use Rattle.number_words.specs.Words.{is_whole, grown, value_in};

// The first number above all of 32 bits.
pub const ABOVE: u64 = 4_294_967_296;

// The word is a whole number: a digit or more, and nothing else.
pub fn is_whole(word: &[u8]) -> bool
    ensures { result ≡ is_whole word.now }
{
    if word.is_empty() {
        return false;
    }
    word.iter().all(|byte| byte.is_ascii_digit())
}

// What a byte counts as a digit.
fn digit_of(byte: u8) -> u64
    ensures { result ≡ byte - 48 }
{
    u64::from(byte.saturating_sub(b'0'))
}

// A number with one digit more; it stays at the first above all of 32 bits.
fn grow(value: u64, byte: u8) -> u64
    requires { value ≤ 4_294_967_296 }
    ensures { result ≡ grown value byte }
{
    (value * 10 + digit_of(byte)).min(ABOVE)
}

// The number that a word's digits write; of one with more than 32 bits the first above all of these.
pub fn value_of(word: &[u8]) -> u64
    ensures { UpTo 4_294_967_296 (value_in word.now) result }
{
    let mut value: u64 = 0;
    for byte in word {
        value = grow(value, *byte);
    }
    value
}
