// What a run with an index asks before it starts: the size of the index, whether an old one fits, where a correction starts, and why it is refused.
#![tactic(auto)]

ghost use Rattle.std.specs.Prelude.{true, ◌≡◌};
ghost use Rattle.simd.specs.Basic.{family_of};
ghost use Rattle.bits.specs.Zero.{padded};
ghost use Rattle.refusals.specs.Numbers.{number_of};
ghost use Rattle.checkpoints.specs.Index.{index_bytes, starts_at, start_state};
ghost use Rattle.checkpoints.specs.Calls.{message_refusal, room_refusal, index_refusal, fits as fitsIndex, fit_refusal, reindex_refusal};

use refusals::Refusal;

// The bytes of an index of so many bits.
pub fn index_bytes(width: u16, count: usize) -> usize
    ensures { result ≡ index_bytes width count }
{
    form::HEAD_BYTES + tail::block_bytes(width) * kept_counts::kept(width, count)
}

// Whether a message is accepted at a width.
fn message_refusal(width: u16, message: &[u8], count: usize) -> Result<(), Refusal>
    ensures { number_of result ≡ message_refusal width message.now count }
{
    if expansion::is_width(width) {
        hash::piece_refusal(0, message, count)
    } else {
        Err(Refusal::Width)
    }
}

// Whether two outputs have room for an index and a digest.
fn room_refusal(width: u16, count: usize, index_room: usize, room: usize) -> Result<(), Refusal>
    ensures { number_of result ≡ room_refusal width count index_room room }
{
    if index_room < index_bytes(width, count) {
        return Err(Refusal::Output);
    }
    if room < tail::digest_bytes(width) {
        return Err(Refusal::Output);
    }
    Ok(())
}

// Whether there is a fresh run.
pub fn index_refusal(
    width: u16,
    message: &[u8],
    count: usize,
    index_room: usize,
    room: usize,
) -> Result<(), Refusal>
    ensures { number_of result ≡ index_refusal width message.now count index_room room }
{
    message_refusal(width, message, count)?;
    room_refusal(width, count, index_room, room)
}

// Whether an index is one of so many bits at a width.
fn fits(width: u16, count: usize, index: &[u8]) -> bool
    ensures { result ≡ fitsIndex width count index.now }
{
    if index.len() != index_bytes(width, count) {
        return false;
    }
    if form::read_width(index) != width {
        return false;
    }
    form::read_bits(index) as usize == count
}

// Whether it is one, and has a block of this number: the length block comes behind the message blocks.
fn fit_refusal(width: u16, count: usize, old: &[u8], block: u64) -> Result<(), Refusal>
    ensures { number_of result ≡ fit_refusal width count old.now block }
{
    if !fits(width, count, old) {
        return Err(Refusal::Index);
    }
    let blocks = kept_counts::message_blocks(width, count) as u64 + 1;
    if blocks <= block {
        return Err(Refusal::Index);
    }
    Ok(())
}

// Whether there is a correction.
pub fn reindex_refusal(
    width: u16,
    message: &[u8],
    count: usize,
    old: &[u8],
    block: u64,
    index_room: usize,
    room: usize,
) -> Result<(), Refusal>
    ensures { number_of result ≡ reindex_refusal width message.now count old.now block index_room room }
{
    message_refusal(width, message, count)?;
    fit_refusal(width, count, old, block)?;
    room_refusal(width, count, index_room, room)
}

// The last kept state at or before a block, counted from 0.
pub fn starts_at(width: u16, count: usize, block: u64) -> usize
    ensures { result ≡ starts_at (family_of width) count block }
{
    let kept = kept_counts::kept(width, count);
    if kept == 0 {
        return 0;
    }
    let place = block / kept_counts::SPACING as u64;
    if place < kept as u64 {
        place as usize
    } else {
        kept - 1
    }
}

// The state that a correction starts from: kept state 0 is read too, and is not taken for the width's starting state.
pub fn start_state(width: u16, count: usize, old: &[u8], block: u64) -> [u32; 32]
    requires { fitsIndex width count old.now ≡ true }
    ensures { result ≡ padded 32 (start_state width old.now count block) }
{
    let states = kept_counts::kept(width, count);
    let i = starts_at(width, count, block);
    if states == 0 {
        return hash_parts::start_state(width);
    }
    let size = tail::block_bytes(width);
    let at = size * i;
    form::read_words(old, form::HEAD_BYTES + at, size / 4)
}
