// What a visit looks at of a ring beside the test of soundness: the header, the clock and u, and the numbers of the station that has the token.
ghost use Rattle.std.specs.Prelude.{◌≡◌, ◌<◌};
ghost use Rattle.rings.specs.Views.{view_of};

use super::Ring;
use sets::Head;

#[derive(Clone, Copy)]
pub(crate) struct View {
    pub(crate) head: Head,
    pub(crate) walk: u32,
    pub(crate) share: u32,
    pub(crate) deadline: u32,
    pub(crate) trt: u32,
    pub(crate) late: u32,
    pub(crate) sent: u32,
    pub(crate) rest: u32,
    pub(crate) arrival: u64,
    pub(crate) mark: u8,
    pub(crate) clock: u64,
    pub(crate) unused: u64,
}

// The numbers of the station that has the token.
pub(crate) fn view_of(ring: &Ring) -> View
    requires { ring.now.token < 128 }
    ensures { result ≡ view_of ring.now }
{
    let i = ring.token as usize;
    View {
        head: ring.set.head,
        walk: ring.set.w[i],
        share: ring.alloc.s[i],
        deadline: ring.set.d[i],
        trt: ring.trt[i],
        late: ring.late[i],
        sent: ring.sent[i],
        rest: ring.rest[i],
        arrival: ring.arrival[i],
        mark: ring.mark[i],
        clock: ring.clock,
        unused: ring.unused,
    }
}
