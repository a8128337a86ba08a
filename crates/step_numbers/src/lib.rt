// The numbers of a step, read off the tables by its round and its number. With a literal step number the reads fold to constants.
#![tactic(auto)]

ghost use Rattle.std.specs.Prelude.{◌≡◌, ◌+◌, ◌/◌, ◌%◌, ◌<◌, min, bit_xor, refl};
ghost use Rattle.simd.specs.Basic.{Family, small, large, rows};
ghost use Rattle.simd.specs.Constants.{exchange};
ghost use Rattle.simd.specs.Steps.{rotation as rotationOf};

// The round of step i: steps 32 to 35 go on with the last.
fn round_of(i: usize) -> usize
    ensures { (result ≡ min (i / 8) 3) × (result < 4) }
{
    (i / 8).min(3)
}

// Entry k mod 4 of the quadruple of step i.
pub fn rotation(i: usize, k: usize) -> u32
    ensures { (result ≡ rotationOf i k) × ((0 < result) × (result < 32)) }
{
    let q = tables::rotations();
    q[round_of(i)][k % 4]
}

// Entry i + 1 of that quadruple, by which the sum is rotated.
pub fn sum_rotation(i: usize) -> u32
    ensures { (result ≡ rotationOf i (i + 1)) × ((0 < result) × (result < 32)) }
{
    rotation(i, i % 4 + 1)
}

// A family by its rows, of which there are R.
pub trait Rows<const R: usize> {
    ghost family: { Family };

    // The number by which step i exchanges rows.
    fn exchange(i: usize) -> usize
        ensures { result ≡ exchange family i };

    ghost has_rows: { rows family ≡ R };
}

pub struct Small;

pub struct Large;

impl Rows<4> for Small {
    ghost family = { small };

    ghost has_rows = { refl };

    #[tactic(auto, unfolding(simd::specs::Constants::exchange))]
    fn exchange(i: usize) -> usize {
        let e = tables::small_exchanges();
        e[i % 3]
    }
}

impl Rows<8> for Large {
    ghost family = { large };

    ghost has_rows = { refl };

    #[tactic(auto, unfolding(simd::specs::Constants::exchange))]
    fn exchange(i: usize) -> usize {
        let e = tables::large_exchanges();
        e[i % 7]
    }
}

// The row that row j of n is exchanged with, by the number x.
pub fn partner(j: usize, x: usize, n: usize) -> usize
    requires { 0 < n }
    ensures { (result ≡ bit_xor j x % n) × (result < n) }
{
    (j ^ x) % n
}
