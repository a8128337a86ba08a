// The index beside a record, with its digest: made by a fresh run, or corrected from an old index without compressing the blocks before the last
// kept state that is still right.
#![tactic(auto)]

ghost use Rattle.std.specs.Prelude.{true, ◌≡◌, ◌*◌, ◌-◌, ◌/◌, ◌≤◌, length, take};
ghost use Rattle.simd.specs.Basic.{family_of, is_width, block_bytes, block_bits, state_words, digest_bytes, bytes_of};
ghost use Rattle.simd.specs.Message.{message as messageOf};
ghost use Rattle.simd.specs.Hash.{digest, compressions};
ghost use Rattle.bits.specs.Zero.{padded};
ghost use Rattle.refusals.specs.Numbers.{number_of};
ghost use Rattle.hash.specs.Open.{written, stored};
ghost use Rattle.checkpoints.specs.Index.{kept, states_from, final_from, index_of, corrected_index, corrected_digest, corrected_compressions};
ghost use Rattle.checkpoints.specs.Calls.{index_refusal, reindex_refusal};

use refusals::Refusal;

// Runs a message from its kept state i on: writes the states kept from there on and the digest, and gives the number of compressions.
fn finish(
    width: u16,
    from: [u32; 32],
    message: &[u8],
    count: usize,
    i: usize,
    states: &mut [u8],
    out: &mut [u8],
) -> u64
    requires { (is_width width ≡ true) × (from ≡ padded 32 (take (state_words (family_of width)) from)) × (count ≤ 8 * length message.now)
        × (16 * i ≤ count / block_bits (family_of width))
        × (length states.old ≡ block_bytes (family_of width) * (kept (family_of width) count - i))
        × (digest_bytes width ≤ length out.old) }
    ensures value { result ≡ compressions (family_of width) count - 16 * i }
    ensures states_after { states.new
        ≡ states_from (family_of width) (take (state_words (family_of width)) from) (messageOf message.now count) i }
    ensures out_after { out.new
        ≡ written 0 (take (digest_bytes width)
        (bytes_of (final_from (family_of width) (take (state_words (family_of width)) from) (messageOf message.now count) i))) out.old }
{
    let mut state = from;
    kept_states::run_from(width, &mut state, message, count, i, states);
    let length = tail::digest_bytes(width);
    little_endian::write_words(&mut out[0..length], state);
    kept_counts::compressed(width, count, i)
}

// The fresh run of a call that is not refused.
fn fresh(
    width: u16,
    message: &[u8],
    count: usize,
    index: &mut [u8],
    out: &mut [u8],
    blocks: &mut u64,
)
    requires { index_refusal width message.now count (length index.old) (length out.old) ≡ 0 }
    ensures index_after { index.new ≡ written 0 (index_of width (messageOf message.now count)) index.old }
    ensures out_after { out.new ≡ written 0 (digest width (messageOf message.now count)) out.old }
    ensures blocks_after { blocks.new ≡ compressions (family_of width) count }
{
    let state = hash_parts::start_state(width);
    let end = index_parts::index_bytes(width, count);
    form::write_head(width, count as u64, &mut index[0..form::HEAD_BYTES]);
    *blocks = finish(
        width,
        state,
        message,
        count,
        0,
        &mut index[form::HEAD_BYTES..end],
        out,
    );
}

// Writes the index and the digest of the first `count` bits of a message, and how many blocks were compressed. Refusals 1, 2, 4, 6.
pub fn index(
    width: u16,
    message: &[u8],
    count: usize,
    index: &mut [u8],
    out: &mut [u8],
    blocks: &mut u64,
) -> Result<(), Refusal>
    ensures value { number_of result ≡ index_refusal width message.now count (length index.old) (length out.old) }
    ensures index_after { index.new
        ≡ written (index_refusal width message.now count (length index.old) (length out.old))
        (index_of width (messageOf message.now count)) index.old }
    ensures out_after { out.new
        ≡ written (index_refusal width message.now count (length index.old) (length out.old))
        (digest width (messageOf message.now count)) out.old }
    ensures blocks_after { blocks.new
        ≡ stored (index_refusal width message.now count (length index.old) (length out.old))
        (compressions (family_of width) count) blocks.old }
{
    index_parts::index_refusal(width, message, count, index.len(), out.len())?;
    fresh(width, message, count, index, out, blocks);
    Ok(())
}

// The run of a correction that is not refused.
fn corrected(
    width: u16,
    message: &[u8],
    count: usize,
    old: &[u8],
    block: u64,
    index: &mut [u8],
    out: &mut [u8],
    blocks: &mut u64,
)
    requires { reindex_refusal width message.now count old.now block (length index.old) (length out.old) ≡ 0 }
    ensures index_after { index.new ≡ written 0 (corrected_index width old.now (messageOf message.now count) block) index.old }
    ensures out_after { out.new ≡ written 0 (corrected_digest width old.now (messageOf message.now count) block) out.old }
    ensures blocks_after { blocks.new ≡ corrected_compressions (family_of width) count block }
{
    let i = index_parts::starts_at(width, count, block);
    let state = index_parts::start_state(width, count, old, block);
    let middle = form::HEAD_BYTES + tail::block_bytes(width) * i;
    let end = index_parts::index_bytes(width, count);
    form::write_bytes(&mut index[0..middle], old);
    *blocks = finish(
        width,
        state,
        message,
        count,
        i,
        &mut index[middle..end],
        out,
    );
}

// The same for a corrected message of the same length, from an old index and the number of the first corrected block, counted from 0: the message
// blocks before the last kept state at or before that block are not read. Refusals 1, 2, 4, 15, 6.
pub fn reindex(
    width: u16,
    message: &[u8],
    count: usize,
    old: &[u8],
    block: u64,
    index: &mut [u8],
    out: &mut [u8],
    blocks: &mut u64,
) -> Result<(), Refusal>
    ensures value { number_of result
        ≡ reindex_refusal width message.now count old.now block (length index.old) (length out.old) }
    ensures index_after { index.new
        ≡ written
        (reindex_refusal width message.now count old.now block (length index.old) (length out.old))
        (corrected_index width old.now (messageOf message.now count) block) index.old }
    ensures out_after { out.new
        ≡ written
        (reindex_refusal width message.now count old.now block (length index.old) (length out.old))
        (corrected_digest width old.now (messageOf message.now count) block) out.old }
    ensures blocks_after { blocks.new
        ≡ stored
        (reindex_refusal width message.now count old.now block (length index.old) (length out.old))
        (corrected_compressions (family_of width) count block) blocks.old }
{
    index_parts::reindex_refusal(width, message, count, old, block, index.len(), out.len())?;
    corrected(width, message, count, old, block, index, out, blocks);
    Ok(())
}
