// The words of the matrix Z (section 1.2.2) as one string, in the order of its rows, worked out in loops that become vector code.
#![tactic(auto)]

ghost use Rattle.std.specs.Prelude.{◌++◌, ◌≡◌, ◌+◌, ◌*◌, ◌<◌, ◌≤◌, length, get_or};
ghost use Rattle.simd.specs.Basic.{table};
ghost use Rattle.matrix_words.specs.Layers.{neighbours, half as half_of, halves_apart, lower as lowerOf, flat as flatOf, Buffers};

// A word of two halves.
fn joined(low: u16, high: u16) -> u32
    ensures { result ≡ low + 65536 * high }
{
    u32::from(low) + 65536 * u32::from(high)
}

// Words of two neighbouring codes.
fn words(codes: &[u16], n: usize, out: &mut [u32])
    requires { (length codes.now ≡ 2 * n) × (length out.old ≡ n) }
    ensures { out.new ≡ table n (neighbours codes.now) }
{
    for k in 0..n {
        let at = 2 * k;
        out[k] = joined(codes[at], codes[at + 1]);
    }
}

// The low half of a word for shift 0, the high half for shift 16.
#[tactic(auto, unfolding(crate::specs::Layers::half))]
fn half(word: u32, shift: u32) -> u32
    requires { shift ≤ 16 }
    ensures { (result ≡ half_of shift word) × (result < 65536) }
{
    (word >> shift) % 65536
}

// Words of the same half of two words, half the string apart.
fn halves(words: &[u32], shift: u32, n: usize, out: &mut [u32])
    requires { (shift ≤ 16) × ((length words.now ≡ 2 * n) × (length out.old ≡ n)) }
    ensures { out.new ≡ table n (halves_apart n shift words.now) }
{
    for k in 0..n {
        out[k] = half(words[k], shift) + 65536 * half(words[k + n], shift);
    }
}

// Rows 16 to 31 of Z: a quarter of its words from the low halves of the pairs, and one from the high halves.
fn lower(pairs: &[u32], quarter: usize, out: &mut [u32])
    requires { (length pairs.now ≡ 2 * quarter) × (length out.old ≡ 2 * quarter) }
    ensures { out.new ≡ lowerOf quarter pairs.now }
{
    halves(pairs, 0, quarter, &mut out[..quarter]);
    halves(pairs, 16, quarter, &mut out[quarter..]);
}

// All rows of Z: two quarters of its words are the pairs by 185.
fn joined_rows(by185: &[u16], pairs: &[u32], quarter: usize, out: &mut [u32])
    requires { (length by185.now ≡ 4 * quarter) × ((length pairs.now ≡ 2 * quarter) × (length out.old ≡ 4 * quarter)) }
    ensures { out.new ≡ table (2 * quarter) (neighbours by185.now) ++ lowerOf quarter pairs.now }
{
    let at = 2 * quarter;
    words(by185, at, &mut out[..at]);
    lower(pairs, quarter, &mut out[at..]);
}

// The words of Z in the order of its rows, from the values of the transform.
pub fn assemble(
    y: &[u16],
    quarter: usize,
    by185: &mut [u16],
    by233: &mut [u16],
    pairs: &mut [u32],
    flat: &mut [u32],
)
    requires { Buffers quarter y.now by185.old by233.old pairs.old flat.old }
    ensures { flat.new ≡ table (4 * quarter) (flatOf quarter (λ k. get_or y.now k 0)) }
{
    inner_code::codes(y, &mut *by185, &mut *by233);
    words(&*by233, 2 * quarter, &mut *pairs);
    joined_rows(&*by185, &*pairs, quarter, flat);
}
