// The stages of radix 2, for both families, the shuffles before them and the remainders after them. Numbers are kept modulo 257 in 16 bits, and
// loops run over neighbouring places, so that they become vector code.
#![tactic(auto)]

ghost use Rattle.std.specs.Prelude.{◌≡◌, ℕ, ◌+◌, ◌*◌, ◌/◌, ◌%◌, ◌<◌, ◌≤◌, length, slice_index};
ghost use Rattle.transform_stages.specs.Stage.{Within, Butterfly, Crossed, Leads, Spreads, Shuffled, Begun};
ghost use Rattle.transform_tables.specs.Roots.{Roots};

// f times y modulo 257, below 513: f y - 257 q, where q is 255 f y / 65536 and so at most f y / 257, and less by less than 2. The modulus is a
// number that is handed over: a product by a known 257 would be made of a shift and a sum.
fn product(f: u16, g: u16, y: u16, modulus: u16) -> u16
    requires { (f < 257) × (g ≡ 255 * f) × (modulus ≡ 257) }
    ensures { (result ≤ 512) × (result % 257 ≡ f * y % 257) }
{
    let q = u32::from(g) * u32::from(y) / 65536;
    let p = (u32::from(f) * u32::from(y) % 65536) as u16;
    let m = (q * u32::from(modulus) % 65536) as u16;
    p.wrapping_sub(m)
}

// n butterflies of one place, from value `from` on: the neighbouring numbers of x from i and from i + gap on give those of y from j and from j + l
// on. Their factors are of the row of roots of order 2 l.
fn butterflies(
    x: &[u16],
    y: &mut [u16],
    t: &[u16],
    i: usize,
    gap: usize,
    j: usize,
    l: usize,
    from: usize,
    n: usize,
)
    requires n_in_bounds { (i + gap + n ≤ length x.now) × (j + l + n ≤ length y.old) × (from + n ≤ l) × (l ≤ 128) × Roots t.now }
    requires by_index { (k : ℕ) → k < n → (512 ≤ slice_index x.now (i + k)) × (slice_index x.now (i + k) ≤ 60000) }
    ensures by_index_2 { (k : ℕ) → k < n →
        Butterfly (slice_index x.now (i + k)) (slice_index t.now (l + from + k)) (slice_index x.now (i + gap + k))
        (slice_index y.new (j + k)) (slice_index y.new (j + l + k)) }
    ensures by_index_3 { (p : ℕ) → (j ≤ p → j + n ≤ p) → (j + l ≤ p → j + l + n ≤ p) → slice_index y.new p ≡ slice_index y.old p }
{
    let modulus = t[0];
    for k in 0..n {
        let at = l + from + k;
        let a = x[i + k];
        let b = product(t[at], t[256 + at], x[i + gap + k], modulus);
        y[j + k] = a + b;
        y[j + l + k] = a - b;
    }
}

// 64 places more of the two halves of x, place by place in turn: a loop of as many turns as the compiler unrolls.
fn more_shuffled(x: &[u16], y: &mut [u16], half: usize, at: usize)
    requires x_len { (length x.now ≡ 2 * half) × (length y.old ≡ 2 * half) × (at + 64 ≤ half) }
    requires shuffled { Shuffled half at x.now y.old }
    ensures { Shuffled half (at + 64) x.now y.new }
{
    for k in 0..64 {
        let i = at + k;
        y[2 * i] = x[i];
        y[2 * i + 1] = x[half + i];
    }
}

// The two halves of x, place by place in turn.
pub fn shuffle(x: &[u16], y: &mut [u16], half: usize)
    requires { (length x.now ≡ 2 * half) × (length y.old ≡ 2 * half) × (half % 64 ≡ 0) }
    ensures { Shuffled half half x.now y.new }
{
    for at in (0..half).step_by(64) {
        more_shuffled(x, y, half, at);
    }
}

// 64 butterflies more of a stage, n at a time, which are of one place: loops of as many turns as the compiler unrolls.
fn more_rows(x: &[u16], y: &mut [u16], t: &[u16], l: usize, n: usize, half: usize, at: usize)
    requires x_len { (length x.now ≡ 2 * half) × (length y.old ≡ 2 * half) × (at + 64 ≤ half) × (half % l ≡ 0) × (l ≤ 128) × Roots t.now }
    requires n_nonzero { (0 < n) × (64 / n * n ≡ 64) × ((r : ℕ) → (at + r * n) % l + n ≤ l) × Within (2 * half) 512 60000 x.now }
    requires crossed { Crossed l half at x.now t.now y.old }
    ensures { Crossed l half (at + 64) x.now t.now y.new }
{
    for r in 0..64 / n {
        let i = at + r * n;
        let q = i / l;
        butterflies(x, y, t, i, half, i + q * l, l, i - q * l, n);
    }
}

// From l values at each of 2 m places to 2 l values at each of m, where m is half / l. The values of a place stand side by side, and have a row of
// factors, of which n go together.
pub fn rows(x: &[u16], y: &mut [u16], t: &[u16], l: usize, n: usize, half: usize)
    requires x_len { (length x.now ≡ 2 * half) × (length y.old ≡ 2 * half) × (half % 64 ≡ 0) × (half % l ≡ 0) }
    requires n_nonzero { (0 < n) × (64 / n * n ≡ 64) × ((g r : ℕ) → (64 * g + r * n) % l + n ≤ l) × (l ≤ 128) }
    requires roots { Roots t.now × Within (2 * half) 512 60000 x.now }
    ensures leads { Leads l (half / l) x.now y.new }
    ensures spreads { Spreads (2 * half) x.now y.new }
{
    for at in (0..half).step_by(64) {
        more_rows(x, y, t, l, n, half, at);
    }
}

// The remainder modulo 257 at 128 places more: a loop of as many turns as the compiler unrolls.
fn more_finished(x: &[u16], out: &mut [u16], at: usize)
    requires { (at + 128 ≤ length x.now) × (length out.old ≡ length x.now) × Begun at x.now out.old }
    ensures { Begun (at + 128) x.now out.new }
{
    for k in 0..128 {
        let i = at + k;
        out[i] = x[i] % 257;
    }
}

// The remainder modulo 257.
pub fn finish(x: &[u16], out: &mut [u16], n: usize)
    requires { (length x.now ≡ n) × (length out.old ≡ n) × (n % 128 ≡ 0) }
    ensures { (i : ℕ) → i < n → slice_index out.new i ≡ slice_index x.now i % 257 }
{
    for at in (0..n).step_by(128) {
        more_finished(x, out, at);
    }
}
