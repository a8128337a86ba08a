// The matrix Z and its order P (section 1.2.2). The words of Z are one string, which is cut into rows.
#![tactic(auto)]

ghost use Rattle.std.specs.Prelude.{[], ◌≡◌, ℕ, ◌*◌, ◌<◌, length, get_or};
ghost use Rattle.simd.specs.Basic.{small, large, table};
ghost use Rattle.simd.specs.Constants.{order};
ghost use Rattle.simd.specs.Expansion.{matrix};
ghost use Rattle.matrix.specs.Rows.{row};

// Words as 32 rows, row by row: copied all at once, they would be zeroed and copied in memory by calls, for half as many instructions again in
// the whole expansion.
fn in_rows<const R: usize>(words: &[u32]) -> [[u32; R]; 32]
    requires { (0 < R) × (length words.now ≡ 32 * R) }
    ensures { result ≡ table 32 (row R words.now) }
{
    let rows = words.as_chunks().0;
    let mut z = [[0u32; R]; 32];
    for i in 0..32 {
        z[i] = rows[i];
    }
    z
}

// The matrix Z, from the values of the transform.
pub fn matrix_small(y: &[u16]) -> [[u32; 4]; 32]
    requires { (length y.now ≡ 128) × ((k : ℕ) → get_or y.now k 0 < 257) }
    ensures { result ≡ table 32 (λ i. table 4 (matrix small (λ k. get_or y.now k 0) i)) }
{
    let mut by185 = [0u16; 128];
    let mut by233 = [0u16; 128];
    let mut pairs = [0u32; 64];
    let mut flat = [0u32; 128];
    matrix_words::assemble(y, 32, &mut by185, &mut by233, &mut pairs, &mut flat);
    in_rows(&flat)
}

// The same for the large family. Two functions, since the lengths of the buffers stand in their types, and no type can compute them from R.
pub fn matrix_large(y: &[u16]) -> [[u32; 8]; 32]
    requires { (length y.now ≡ 256) × ((k : ℕ) → get_or y.now k 0 < 257) }
    ensures { result ≡ table 32 (λ i. table 8 (matrix large (λ k. get_or y.now k 0) i)) }
{
    let mut by185 = [0u16; 256];
    let mut by233 = [0u16; 256];
    let mut pairs = [0u32; 128];
    let mut flat = [0u32; 256];
    matrix_words::assemble(y, 64, &mut by185, &mut by233, &mut pairs, &mut flat);
    in_rows(&flat)
}

// Row i of the result is row P(i) of Z.
#[tactic(auto, using(crate::proofs::Rows::order_lt))]
pub fn permuted<const R: usize>(z: [[u32; R]; 32]) -> [[u32; R]; 32]
    ensures { result ≡ table 32 (λ i. get_or z.entry (get_or order i 0) []) }
{
    let p = tables::order();
    let rows = z.as_slice();
    let mut w = [[0u32; R]; 32];
    for i in 0..32 {
        w[i] = rows[p[i]];
    }
    w
}
