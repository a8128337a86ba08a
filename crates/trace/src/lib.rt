// The values between a block and its expanded rows, and the states between the steps, for tests that hold them to the published traces. Each
// call answers as `expansion::expand` does: 1, 7 or 6, or 0.
#![tactic(auto)]

ghost use Rattle.std.specs.Prelude.{◌≡◌, length};
ghost use Rattle.expansion.specs.Call.{expand_refusal};
ghost use Rattle.trace_values.specs.Values.{values, matrix_words};
ghost use Rattle.trace.specs.Traced.{traced, states_refusal, traced_states};

use compression::{Large, Small};

// The values of the transform.
#[unsafe(no_mangle)]
pub extern "C" fn trace_transform(width: u16, last: bool, block: &[u8], out: &mut [u16]) -> u8
    ensures value { result ≡ expand_refusal width (length block.now) (length out.old) }
    ensures out_after { out.new ≡ traced values width last block.now out.old }
{
    match expansion::refusal(width, block.len(), out.len()) {
        Ok(()) => {
            trace_values::values(width, last, block, out);
            0
        }
        Err(refusal) => refusal.number(),
    }
}

// The words of Z, row by row.
#[unsafe(no_mangle)]
pub extern "C" fn trace_matrix(width: u16, last: bool, block: &[u8], out: &mut [u32]) -> u8
    ensures value { result ≡ expand_refusal width (length block.now) (length out.old) }
    ensures out_after { out.new ≡ traced matrix_words width last block.now out.old }
{
    match expansion::refusal(width, block.len(), out.len()) {
        Ok(()) => {
            trace_values::matrix_words(width, last, block, out);
            0
        }
        Err(refusal) => refusal.number(),
    }
}

// The states after each of the 36 steps of a compression, from the old state and the block.
#[unsafe(no_mangle)]
pub extern "C" fn trace_steps(
    width: u16,
    last: bool,
    state: &[u8],
    block: &[u8],
    out: &mut [u32],
) -> u8
    ensures value { result ≡ states_refusal width (length state.now) (length block.now) (length out.old) }
    ensures out_after { out.new ≡ traced_states width last state.now block.now out.old }
{
    match stepping::refusal(width, state.len(), block.len(), out.len() / 9) {
        Ok(()) => {
            if width <= 256 {
                trace_states::states::<Small, 4, 16>(last, state, block, out);
            } else {
                trace_states::states::<Large, 8, 32>(last, state, block, out);
            }
            0
        }
        Err(refusal) => refusal.number(),
    }
}
