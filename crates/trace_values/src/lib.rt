// The values between a block and its expanded rows, by the family of a width.
#![tactic(auto)]

ghost use Rattle.std.specs.Prelude.{◌++◌, ◌≡◌, ◌≤◌, length, drop};
ghost use Rattle.simd.specs.Basic.{family_of, block_bytes, points};
ghost use Rattle.trace_values.specs.Values.{values as values_of, matrix_words};

// The values of the transform.
pub fn values(width: u16, last: bool, block: &[u8], out: &mut [u16])
    requires { (length block.now ≡ block_bytes (family_of width)) × (points (family_of width) ≤ length out.old) }
    ensures { out.new ≡ values_of (family_of width) last block.now ++ drop (points (family_of width)) out.old }
{
    let roots = transform_tables::roots();
    if width <= 256 {
        transform::small(block, &roots, &mut out[..128], last);
        return;
    }
    transform::large(block, &roots, &mut out[..256], last);
}

// The words of Z, row by row.
pub fn matrix_words(width: u16, last: bool, block: &[u8], out: &mut [u32])
    requires { (length block.now ≡ block_bytes (family_of width)) × (points (family_of width) ≤ length out.old) }
    ensures { out.new ≡ matrix_words (family_of width) last block.now ++ drop (points (family_of width)) out.old }
{
    let mut y = [0u16; 256];
    values(width, last, block, &mut y);
    if width <= 256 {
        expansion::output::put(&matrix::matrix_small(&y[..128]), out);
        return;
    }
    expansion::output::put(&matrix::matrix_large(&y[..256]), out);
}
