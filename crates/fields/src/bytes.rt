// Bytes as numbers, the highest byte first.
ghost use Rattle.std.specs.Prelude.{◌+◌, ◌≤◌, length};
ghost use Rattle.fields.specs.Bounds.{Short};

// The number in two bytes.
#[tactic(auto, unfolding(crate::specs::Bytes::short_at))]
pub(crate) fn short_at(bs: &[u8], at: usize) -> usize
    requires { at + 2 ≤ length bs.now }
    ensures { Short bs.now at result }
{
    usize::from(u16::from_be_bytes([bs[at], bs[at + 1]]))
}
