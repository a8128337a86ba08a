// The first three levels of the transform, one pass of radix 8 for both families: eight values at each of m places. The root of order 8 is 4, so
// that all factors are powers of 2, and there are no products modulo 257. Of the eight numbers of a place four are bytes, and three are zero. The
// eighth is empty too, but for 1 at the last place of all, and in a length block for 1 at the last but two: by these each value of the transform
// has its added constants, w^(-i) and w^(-3i) (sections 1.2.2 and 1.2.4).
#![tactic(auto)]

ghost use Rattle.std.specs.Prelude.{◌≡◌, ℕ, ◌+◌, ◌*◌, ◌≤◌, ◌<◌, length, get_or};
ghost use Rattle.radix_8.specs.Pass.{appended, held, Values, Spread, Placed};
ghost use Rattle.transform_stages.specs.Stage.{Level, Within};

// Values 0, 2, 4 and 6 of a, b, c and d: their root is 16, whose square is -1. Multiples of 257 keep all above what the stages to come subtract.
fn even_values(a: u16, b: u16, c: u16, d: u16) -> [u16; 4]
    requires { (a ≤ 255) × (b ≤ 255) × (c ≤ 255) × (d ≤ 256) }
    ensures { Values 0 a b c d result }
{
    let s = a + c + 11051;
    let t = b + d;
    let u = a + 11051 - c;
    let v = 16 * (b + 257 - d);
    [s + t, u + v, s - t, u - v]
}

// Values 1, 3, 5 and 7 of a, b, c and d, by the factors 4, 16 and 64.
fn odd_values(a: u16, b: u16, c: u16, d: u16) -> [u16; 4]
    requires { (a ≤ 255) × (b ≤ 255) × (c ≤ 255) × (d ≤ 511) }
    ensures { Values 1 a b c d result }
{
    let s = a + 16 * c + 2570;
    let t = 4 * (b + 16 * d);
    let u = a + 25186 - 16 * c;
    let v = 4 * (16 * b + d);
    [s + t, u + v, s + 33924 - t, u - v]
}

// Four numbers at places that are the same gap apart.
fn spread(y: &mut [u16], at: usize, gap: usize, v: [u16; 4])
    requires { (at + gap * 3 < length y.old) × (0 < gap) }
    ensures { Spread at gap v y.old y.new }
{
    for j in 0..4 {
        y[at + gap * j] = v[j];
    }
}

// The last eighth of the numbers that are transformed, in a lent array of zeros.
pub fn append(ends: &mut [u16], m: usize, last: bool)
    requires { (length ends.old ≡ m) × (3 ≤ m) × ((q : ℕ) → q < m → get_or ends.old q 0 ≡ 0) }
    ensures { (q : ℕ) → q < m → get_or ends.new q 0 ≡ appended m last q }
{
    ends[m - 1] = 1;
    if last {
        ends[m - 3] = 1;
    }
}

// The eight values of place q. In odd ones the last eighth has the sign of the second half, -1, which is 256.
fn place(block: &[u8], ends: &[u16], y: &mut [u16], m: usize, q: usize)
    requires block_len { (length block.now ≡ 4 * m) × (length ends.now ≡ m) × (length y.old ≡ 8 * m) }
    requires q_lt_m { (q < m) × (get_or ends.now q 0 ≤ 1) }
    ensures placed { Placed m block.now ends.now y.new q }
    ensures by_index { (k p : ℕ) → p < q → get_or y.new (k * m + p) 0 ≡ get_or y.old (k * m + p) 0 }
{
    let a = u16::from(block[q]);
    let b = u16::from(block[m + q]);
    let c = u16::from(block[2 * m + q]);
    let d = u16::from(block[3 * m + q]);
    let e = ends[q];
    spread(y, q, 2 * m, even_values(a, b, c, d + e));
    spread(y, m + q, 2 * m, odd_values(a, b, c, d + 256 * e));
}

// The pass, place by place.
pub fn begin(block: &[u8], ends: &[u16], y: &mut [u16], m: usize)
    requires block_len { (length block.now ≡ 4 * m) × (length ends.now ≡ m) × (length y.old ≡ 8 * m) }
    requires by_index { (q : ℕ) → q < m → get_or ends.now q 0 ≤ 1 }
    ensures level { Level (held m block.now ends.now) 32 m 8 (λ k q. k * m + q) y.new }
    ensures within { Within (8 * m) 2570 45000 y.new }
{
    for q in 0..m {
        place(block, ends, y, m, q);
    }
}
