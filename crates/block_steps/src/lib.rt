// The 32 steps of one block from the bytes of a state to those of another, forward or back.
#![tactic(auto)]

ghost use Rattle.std.specs.Prelude.{◌≡◌, length};
ghost use Rattle.simd.specs.Basic.{block_bytes};
ghost use Rattle.words.specs.Columns.{from_columns};
ghost use Rattle.block_steps.specs.Moved.{turned, moved};

use compression::{Family, flat, split};

#[tactic(auto, unfolding(crate::specs::Moved::turned))]
fn turned<F: Family<R, W>, const R: usize, const W: usize>(
    back: bool,
    s: [[u32; R]; 4],
    w: &[[u32; R]; 32],
) -> [[u32; R]; 4]
    ensures { from_columns result ≡ turned back F.family w.now (from_columns s.entry) }
{
    if back {
        unsteps::unsteps::<F, R>(s, w)
    } else {
        steps::steps::<F, R>(s, w)
    }
}

pub fn run<F: Family<R, W>, const R: usize, const W: usize>(
    back: bool,
    last: bool,
    state: &[u8],
    block: &[u8],
    out: &mut [u8],
)
    requires { (length state.now ≡ block_bytes F.family)
        × ((length block.now ≡ block_bytes F.family) × (length out.old ≡ block_bytes F.family)) }
    ensures { out.new ≡ moved back F.family last state.now block.now }
{
    let roots = transform_tables::roots();
    let w = F::expand(block, &roots, last);
    let mut x = [0u32; W];
    word_bytes::read(&mut x, state);
    let start = split::<F, R, W>(x);
    let y = flat::<F, R, W>(turned::<F, R, W>(back, start, &w));
    word_bytes::write(&y, out);
}
