// Loops over the first n places of arrays of 128. Each answers every n: of lent arrays 128 places are looked at and no more; past the end of an array by value a place reads as 0, and nothing is stored there.
#![tactic(auto)]

ghost use Rattle.std.specs.Prelude.{◌≡◌, ◌+◌, ◌-◌, ◌<◌, ℕ, Bool, min, leb, ltb};
ghost use Rattle.units.specs.Places.{at, sum_below, all_below, fill};
ghost use Rattle.arrays.specs.Places.{Told, Made};
ghost use Rattle.arrays.specs.Held.{held, raised_held, sums_to_last};
ghost use Rattle.arrays.specs.Laps.{lapped, lap, lapped_twice, laps, ran_on, laps_counted};

// The largest 32-bit number.
const LARGEST: u64 = 4_294_967_295;

// A test holds at each of the first n places. It is asked at all of them, so the loop has no branch.
fn each<F: Fn(usize) -> bool>(n: u32, holds: F) -> bool
    requires { (i : ℕ) → i < 128 → F.pre holds i }
    ensures { (p : ℕ → Bool) → Told (F.post holds) p → result ≡ all_below (min n 128) p }
{
    let mut all = true;
    for i in 0..units::places(n) {
        all &= holds(i);
    }
    all
}

// At each of the first n places stands what is made of its index and its number.
fn change<F: Fn(usize, u32) -> u32>(xs: &mut [u32; 128], n: u32, made: F)
    requires { (i x : ℕ) → i < 128 → F.pre made i x }
    ensures { (f : ℕ → ℕ → ℕ) → Made (F.post made) f → xs.new ≡ fill (min n 128) (λ i. f i (at xs.old i)) xs.old }
{
    for i in 0..units::places(n) {
        xs[i] = made(i, xs[i]);
    }
}

// None of the first n places is above this number.
pub fn none_above(xs: &[u32; 128], most: u32, n: u32) -> bool
    ensures { result ≡ all_below (min n 128) (λ i. leb (at xs.now i) most) }
{
    each(n, |i| xs[i] <= most)
}

// None of the first n places has reached this number.
pub fn none_reaching(xs: &[u32; 128], top: u32, n: u32) -> bool
    ensures { result ≡ all_below (min n 128) (λ i. ltb (at xs.now i) top) }
{
    each(n, |i| xs[i] < top)
}

// None of the first n times is later than this one.
pub fn none_later(times: &[u64; 128], latest: u64, n: u32) -> bool
    ensures { result ≡ all_below (min n 128) (λ i. leb (at times.now i) latest) }
{
    each(n, |i| times[i] <= latest)
}

// None of the first n places of xs is above that of most.
pub fn each_within<'a>(xs: &'a [u32; 128], most: &'a [u32; 128], n: u32) -> bool
    ensures { result ≡ all_below (min n 128) (λ i. leb (at xs.now i) (at most.now i)) }
{
    each(n, |i| xs[i] <= most[i])
}

// The sum of xs − taken over the first n places, each difference held at 0.
pub fn room_first<'a>(xs: &'a [u32; 128], taken: &'a [u32; 128], n: u32) -> u64
    ensures { result ≡ sum_below (min n 128) (λ i. at xs.now i - at taken.now i) }
{
    let mut sum: u64 = 0;
    for i in 0..units::places(n) {
        sum += u64::from(xs[i].saturating_sub(taken[i]));
    }
    sum
}

// Each of the first n places rises by x where it stands, held at the largest 32-bit number.
pub fn raise(xs: &mut [u32; 128], n: u32, x: u32)
    ensures { xs.new ≡ raised_held (min n 128) x xs.old }
{
    let top = u32::MAX - x;
    change(xs, n, |_, old| old.min(top) + x);
}

// Each of the first n places risen by x, held at the largest 32-bit number.
pub fn raised(mut xs: [u32; 128], n: u32, x: u32) -> [u32; 128]
    ensures { result ≡ raised_held n x xs }
{
    raise(&mut xs, n, x);
    xs
}

// At each of the first n places of a lent array the sum from it to the last of them, held at the largest 32-bit number; 0 at the others.
pub fn sums_to_last(xs: &[u32; 128], n: u32) -> [u32; 128]
    ensures { result ≡ sums_to_last (min n 128) xs.now }
{
    let mut left = units::sum_lent(xs, n);
    let mut sums = [0; 128];
    for i in 0..units::places(n) {
        let stored = left.min(LARGEST) as u32;
        sums[i] = stored;
        left -= u64::from(xs[i]);
    }
    sums
}

// A number that has reached the top, less the top.
fn less_top(t: u64, top: u64) -> u64
    ensures { result ≡ lapped top t }
{
    if top <= t { t - top } else { t }
}

// 1 where it has reached the top, else 0.
fn reached(t: u64, top: u64) -> u64
    ensures { result ≡ lap top t }
{
    if top <= t { 1 } else { 0 }
}

// A number that has run on by x: less the top where it has reached it, and once more.
fn one_on(t: u32, x: u32, top: u32) -> u32
    ensures { result ≡ held (lapped_twice top (t + x)) }
{
    let most = u64::from(top);
    let risen = u64::from(t) + u64::from(x);
    let left = less_top(less_top(risen, most), most);
    left.min(LARGEST) as u32
}

// A count that has risen by how often, in two looks, a number that has run on by x has reached the top.
#[tactic(auto, using(crate::proofs::LapLaws::lap_small))]
fn one_counted(count: u32, t: u32, x: u32, top: u32) -> u32
    ensures { result ≡ held (count + laps top (t + x)) }
{
    let most = u64::from(top);
    let risen = u64::from(t) + u64::from(x);
    let times = reached(risen, most) + reached(less_top(risen, most), most);
    (u64::from(count) + times).min(LARGEST) as u32
}

// Below the top, all in 32 bits: a number that runs on by x has reached the top if it was no further below it.
fn narrow_once(t: u32, x: u32, top: u32) -> u32
    requires { x < top }
    ensures { result ≡ lapped top (t + x) }
{
    let gap = top - x;
    if gap <= t { t - gap } else { t + x }
}

// What `less_top` says, in 32 bits: by itself, as is the next one, since over any type of number `<=` and `-` promise nothing of whole numbers.
fn narrow_less(number: u32, top: u32) -> u32
    ensures { result ≡ lapped top number }
{
    if top <= number { number - top } else { number }
}

// What `reached` says, in 32 bits.
fn narrow_reached(number: u32, top: u32) -> u32
    ensures { result ≡ lap top number }
{
    if top <= number { 1 } else { 0 }
}

// What `one_on` says of an x below the top, in 32 bits.
fn narrow_on(t: u32, x: u32, top: u32) -> u32
    requires { x < top }
    ensures { result ≡ held (lapped_twice top (t + x)) }
{
    narrow_less(narrow_once(t, x, top), top)
}

// What `one_counted` says of an x below the top, in 32 bits.
#[tactic(auto, using(crate::proofs::LapLaws::lap_small))]
fn narrow_counted(count: u32, t: u32, x: u32, top: u32) -> u32
    requires { x < top }
    ensures { result ≡ held (count + laps top (t + x)) }
{
    let first = narrow_reached(t, top - x);
    let second = narrow_reached(narrow_once(t, x, top), top);
    let times = first + second;
    count.min(u32::MAX - times) + times
}

// Each of the first n numbers runs on by x where it stands, less the top for each of two times that it has reached it. With an x below the top all of it is in 32 bits.
pub fn run(xs: &mut [u32; 128], n: u32, x: u32, top: u32)
    ensures { xs.new ≡ ran_on (min n 128) x top xs.old }
{
    if x < top {
        change(xs, n, |_, t| narrow_on(t, x, top));
        return;
    }
    change(xs, n, |_, t| one_on(t, x, top));
}

// Each of the first n numbers has run on by x, less the top for each of two times that it has reached it.
pub fn run_on(mut xs: [u32; 128], n: u32, x: u32, top: u32) -> [u32; 128]
    ensures { result ≡ ran_on n x top xs }
{
    run(&mut xs, n, x, top);
    xs
}

// Each of the first n counts rises where it stands by how often its number, run on by x, has reached the top. With an x below the top all of it is in 32 bits.
pub fn count<'a>(counts: &'a mut [u32; 128], xs: &'a [u32; 128], n: u32, x: u32, top: u32)
    ensures { counts.new ≡ laps_counted (min n 128) x top xs.now counts.old }
{
    if x < top {
        change(counts, n, |i, count| narrow_counted(count, xs[i], x, top));
        return;
    }
    change(counts, n, |i, count| one_counted(count, xs[i], x, top));
}

// Each of the first n counts has risen by how often its number, run on by x, has reached the top.
pub fn count_laps(mut counts: [u32; 128], xs: [u32; 128], n: u32, x: u32, top: u32) -> [u32; 128]
    ensures { result ≡ laps_counted n x top xs counts }
{
    count(&mut counts, &xs, n, x, top);
    counts
}
