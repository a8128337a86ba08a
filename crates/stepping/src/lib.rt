// The calls that run the 32 steps of one block alone, forward and backward. Forward takes the bytes of the state already xored with the
// block; backward takes those of the end and gives that xored state.
#![tactic(auto)]

ghost use Rattle.std.specs.Prelude.{◌≡◌, length};
ghost use Rattle.refusals.specs.Numbers.{number_of};
ghost use Rattle.block_steps.specs.Moved.{moved};
ghost use Rattle.stepping.specs.Call.{size_refusal, steps_refusal, forward, backward, steps_output};

use compression::{Large, Small};
use refusals::Refusal;

// Whether a call is accepted. Refusals 1, 7, 6.
pub fn refusal(width: u16, state: usize, block: usize, room: usize) -> Result<(), Refusal>
    ensures { number_of result ≡ steps_refusal width state block room }
{
    if !expansion::is_width(width) {
        return Err(Refusal::Width);
    }
    if width <= 256 {
        return size_refusal(64, state, block, room);
    }
    size_refusal(128, state, block, room)
}

// The part of a refusal that goes by sizes.
fn size_refusal(size: usize, state: usize, block: usize, room: usize) -> Result<(), Refusal>
    ensures { number_of result ≡ size_refusal size state block room }
{
    if state != size {
        return Err(Refusal::Block);
    }
    if block != size {
        return Err(Refusal::Block);
    }
    if room < size {
        return Err(Refusal::Output);
    }
    Ok(())
}

// Runs or undoes the 32 steps of a block, as message or as length block.
fn run(
    back: bool,
    width: u16,
    last: bool,
    state: &[u8],
    block: &[u8],
    out: &mut [u8],
) -> Result<(), Refusal>
    ensures value { number_of result ≡ steps_refusal width (length state.now) (length block.now) (length out.old) }
    ensures out_after { out.new ≡ steps_output (moved back) width last state.now block.now out.old }
{
    refusal(width, state.len(), block.len(), out.len())?;
    if width <= 256 {
        block_steps::run::<Small, 4, 16>(back, last, state, block, &mut out[..64]);
        return Ok(());
    }
    block_steps::run::<Large, 8, 32>(back, last, state, block, &mut out[..128]);
    Ok(())
}

// Runs them. Refusals 1, 7, 6.
pub fn run_steps(
    width: u16,
    last: bool,
    state: &[u8],
    block: &[u8],
    out: &mut [u8],
) -> Result<(), Refusal>
    ensures value { number_of result ≡ steps_refusal width (length state.now) (length block.now) (length out.old) }
    ensures out_after { out.new ≡ steps_output forward width last state.now block.now out.old }
{
    run(false, width, last, state, block, out)
}

// Undoes them. Refusals 1, 7, 6.
pub fn run_unsteps(
    width: u16,
    last: bool,
    state: &[u8],
    block: &[u8],
    out: &mut [u8],
) -> Result<(), Refusal>
    ensures value { number_of result ≡ steps_refusal width (length state.now) (length block.now) (length out.old) }
    ensures out_after { out.new ≡ steps_output backward width last state.now block.now out.old }
{
    run(true, width, last, state, block, out)
}
