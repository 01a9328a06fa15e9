// Numbers in bytes, the highest byte first.
ghost use Rattle.std.specs.Prelude.{◌≡◌, [], ◌∷◌, ◌+◌, ◌≤◌, ◌%◌, length};
ghost use Rattle.fields.specs.Rows.{laid};
ghost use Rattle.fields.specs.Bytes.{number_at, bytes_of};

// The number in four bytes.
pub(crate) fn number_at(bs: &[u8], at: usize) -> u32
    requires { at + 4 ≤ length bs.now }
    ensures { result ≡ number_at bs.now at }
{
    u32::from_be_bytes([bs[at], bs[at + 1], bs[at + 2], bs[at + 3]])
}

// The lowest byte of a number.
fn low_byte(x: u32) -> u8
    ensures { result ≡ x % 256 }
{
    let low = x % 256;
    low as u8
}

// Writes a number in four bytes.
pub(crate) fn put_number(out: &mut [u8], at: usize, x: u32)
    requires { at + 4 ≤ length out.old }
    ensures { out.new ≡ laid out.old at (bytes_of x) }
{
    out[at..at + 4].copy_from_slice(&x.to_be_bytes());
}

// Writes the lowest byte of a number.
pub(crate) fn put_byte(out: &mut [u8], at: usize, x: u32)
    requires { at + 1 ≤ length out.old }
    ensures { out.new ≡ laid out.old at (x % 256 ∷ []) }
{
    out[at] = low_byte(x);
}

// Writes the start of a field: its tag, and its length in two bytes.
pub(crate) fn put_start(out: &mut [u8], at: usize, tag: u8, size: u8)
    requires { at + 3 ≤ length out.old }
    ensures { out.new ≡ laid out.old at (tag ∷ 0 ∷ size ∷ []) }
{
    out[at..at + 3].copy_from_slice(&[tag, 0, size]);
}
