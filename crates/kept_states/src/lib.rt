// The states of an index, and the run that makes them: from a state on, every 16th is written before its block is compressed.
#![tactic(auto)]

ghost use Rattle.std.specs.Prelude.{◌≡◌, ◌+◌, ◌*◌, ◌-◌, ◌/◌, ◌≤◌, length, take};
ghost use Rattle.simd.specs.Basic.{family_of, block_bytes, block_bits, state_words};
ghost use Rattle.simd.specs.Message.{bits_of, message as messageOf};
ghost use Rattle.iteration.specs.Blocks.{absorbed};
ghost use Rattle.bits.specs.Zero.{padded};
ghost use Rattle.checkpoints.specs.Index.{kept as keptOf, states as statesOf, states_from, final_from};

// Compresses so many whole blocks and writes every 16th state, from the one before the first block on.
fn keep(width: u16, state: &mut [u32; 32], blocks: &[u8], full: usize, states: &mut [u8])
    requires { (state.old ≡ padded 32 (take (state_words (family_of width)) state.old))
        × (length blocks.now ≡ block_bytes (family_of width) * full)
        × (length states.old ≡ block_bytes (family_of width) * ((full + 15) / 16)) }
    ensures state_after { state.new
        ≡ padded 32 (absorbed (family_of width) (take (state_words (family_of width)) state.old) blocks.now full) }
    ensures states_after { states.new
        ≡ statesOf (family_of width) (take (state_words (family_of width)) state.old) (bits_of blocks.now) ((full + 15) / 16) }
{
    let size = tail::block_bytes(width);
    for k in 0..full.div_ceil(kept_counts::SPACING) {
        let at = size * k;
        little_endian::write_words(&mut states[at..at + size], *state);
        let first = kept_counts::SPACING * k;
        let from = size * first;
        let count = (full - first).min(kept_counts::SPACING);
        tail::absorb(width, state, &blocks[from..from + size * count]);
    }
}

// Runs a message from its kept state i on, with that state given: writes the states kept from there on, and leaves the final state.
pub fn run_from(
    width: u16,
    state: &mut [u32; 32],
    message: &[u8],
    count: usize,
    i: usize,
    states: &mut [u8],
)
    requires { (state.old ≡ padded 32 (take (state_words (family_of width)) state.old)) × (count ≤ 8 * length message.now)
        × (16 * i ≤ count / block_bits (family_of width))
        × (length states.old ≡ block_bytes (family_of width) * (keptOf (family_of width) count - i)) }
    ensures state_after { state.new
        ≡ padded 32 (final_from (family_of width) (take (state_words (family_of width)) state.old) (messageOf message.now count) i) }
    ensures states_after { states.new
        ≡ states_from (family_of width) (take (state_words (family_of width)) state.old) (messageOf message.now count) i }
{
    let size = tail::block_bytes(width);
    let full = tail::full_blocks(width, count);
    let skipped = kept_counts::SPACING * i;
    let from = size * skipped;
    let middle = size * full;
    keep(width, state, &message[from..middle], full - skipped, states);
    let left = count - 8 * middle;
    let rest = &message[middle..];
    tail::conclude(width, state, rest, left, count as u64);
}
