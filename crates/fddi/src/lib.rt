// FDDI's rules: X over the whole vector, and the test of a given vector. Nothing is planned by them any more.
#![tactic(auto)]

mod shares;

ghost use Rattle.std.specs.Prelude.{◌≡◌, ◌≤◌};
ghost use Rattle.units.specs.Places.{at};
ghost use Rattle.units.specs.Vectors.{rules_kept};
ghost use Rattle.fddi.specs.Rules.{least_time, terms_of};
ghost use Rattle.fddi.specs.Lent.{lent_load, deadlines_in};

// What a plan is judged by, for the statements; the code lends its parts: TTRT, what no station may plan with (τ and F − 1), the grid, and C and D at each station. Only the first N places are ever looked at.
#[derive(Clone, Copy)]
pub struct Load {
    pub n: u32,
    pub ttrt: u32,
    pub grid: u32,
    pub lost: u64,
    pub c: [u32; 128],
    pub d: [u32; 128],
}

// X, the least synchronous time in any interval D, where `away` ticks of a rotation are not the station's own.
pub fn least_time(ttrt: u32, d: u32, away: u64, s: u32) -> u64
    ensures { result ≡ least_time ttrt d away s }
{
    let rotation = u64::from(ttrt);
    let long = u64::from(d);
    let own = u64::from(s);
    let q = shares::whole(long, rotation);
    if q == 0 {
        return 0;
    }
    let rest = long.saturating_sub(q * rotation);
    (q - 1) * own + rest.saturating_sub(away).min(own)
}

// The deadline rule holds at every station.
fn deadlines_fit(
    n: u32,
    ttrt: u32,
    lost: u64,
    c: &[u32; 128],
    d: &[u32; 128],
    s: &[u32; 128],
) -> bool
    requires { lost ≤ ttrt }
    ensures { result ≡ deadlines_in n ttrt lost c.now d.now (at s.now) }
{
    let taken = units::sum_lent(s, n) + lost;
    let mut all = true;
    for i in 0..units::places(n) {
        let away = taken.saturating_sub(u64::from(s[i]));
        all &= u64::from(c[i]) <= least_time(ttrt, d[i], away, s[i]);
    }
    all
}

// The test of a given vector, all arrays lent: the token rule, the deadline rule at every station, and the grid.
pub fn meets_rules<'a>(
    n: u32,
    ttrt: u32,
    grid: u32,
    lost: u64,
    c: &'a [u32; 128],
    d: &'a [u32; 128],
    s: &'a [u32; 128],
) -> bool
    ensures { result ≡ rules_kept (terms_of (lent_load n ttrt grid lost c.now d.now)) (at s.now) }
{
    if !units::token_kept(ttrt, lost, n, s) {
        return false;
    }
    deadlines_fit(n, ttrt, lost, c, d, s) & quotients::all_on_grid(grid, n, s)
}
