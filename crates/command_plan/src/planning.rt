// What `plan` prints: the plan of a request sheet, or the refusal.
ghost use Rattle.std.specs.Prelude.{◌*◌, ◌≤◌};
ghost use Rattle.units.specs.Places.{at as place_at};
ghost use Rattle.fields.specs.Rows.{rows};
ghost use Rattle.text.specs.Pages.{HasRoom, Puts};
ghost use Rattle.command_plan.specs.PlanText.{plan_line, share_line, plan_lines};

use plans::Alloc;
use sets::Set;
use text::Page;

// The first line: `plan`, N, TTRT, τ, A*.
fn put_plan_line(page: &mut Page, n: u64, ttrt: u64, tau: u64, spare: u64)
    requires { HasRoom 105 page.old }
    ensures { Puts 105 page.old (plan_line n ttrt tau spare) page.new }
{
    page.put_line(b"plan", &[n, ttrt, tau, spare]);
}

// A station's line: its number and S.
fn put_share_line(page: &mut Page, station: u64, s: u64)
    requires { HasRoom 42 page.old }
    ensures { Puts 42 page.old (share_line station s) page.new }
{
    page.put_number(station);
    page.put_line(b"", &[s]);
}

// A line for each of the first n stations.
fn put_shares(page: &mut Page, s: [u32; 128], n: u32)
    requires { (n ≤ 128) × HasRoom (42 * 128) page.old }
    ensures { Puts (42 * 128) page.old (rows n (λ i. share_line i (place_at s i))) page.new }
{
    for (i, share) in s[..units::places(n)].iter().enumerate() {
        put_share_line(page, i as u64, u64::from(*share));
    }
}

// The plan.
pub(crate) fn put_plan(page: &mut Page, t: Set, a: Alloc)
    requires { (t.n ≤ 128) × HasRoom 6_000 page.old }
    ensures { Puts 6_000 page.old (plan_lines t a) page.new }
{
    let n = u64::from(t.n);
    let ttrt = u64::from(t.head.ttrt);
    let tau = sets::walk_time(t);
    let spare = plans::spare(t, a);
    put_plan_line(page, n, ttrt, tau, spare);
    put_shares(page, a.s, t.n);
}
