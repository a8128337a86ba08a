// The states between the steps of a compression, from the old state and the block, one after another into lent words.
#![tactic(auto)]

ghost use Rattle.std.specs.Prelude.{[], ◌++◌, ◌≡◌, ◌*◌, ◌<◌, ◌≤◌, length, get_or, drop};
ghost use Rattle.simd.specs.Basic.{rows, block_bytes};
ghost use Rattle.trace_states.specs.States.{state_words};

use compression::{Family, flat, mixed, split};

// The row of words that step i takes: one of the expanded block, then a column of the old state.
fn row<const R: usize>(w: &[[u32; R]; 32], old: &[[u32; R]; 4], i: usize) -> [u32; R]
    requires { (length w.now ≡ 32) × (i < 36) }
    ensures { result ≡ get_or (w.now ++ old.now) i [] }
{
    if i < 32 { w[i] } else { old[i - 32] }
}

pub fn states<F: Family<R, W>, const R: usize, const W: usize>(
    last: bool,
    state: &[u8],
    block: &[u8],
    out: &mut [u32],
)
    requires { (length state.now ≡ block_bytes F.family)
        × ((length block.now ≡ block_bytes F.family) × (144 * rows F.family ≤ length out.old)) }
    ensures { out.new ≡ state_words F.family last state.now block.now ++ drop (144 * rows F.family) out.old }
{
    let roots = transform_tables::roots();
    let w = F::expand(block, &roots, last);
    let mut x = [0u32; W];
    word_bytes::read(&mut x, state);
    let old = split::<F, R, W>(x);
    let mut st = split::<F, R, W>(mixed::<F, R, W>(x, block));
    for i in 0..36 {
        let row = row(&w, &old, i);
        st = steps::step::<F, R>(st, row, i);
        let words = flat::<F, R, W>(st);
        expansion::output::put_row(&words, W * i, out);
    }
}
