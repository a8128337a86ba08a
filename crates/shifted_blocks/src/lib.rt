// Whole blocks of a source whose bytes are shifted by part of a byte, compressed. A source that needs no shift is compressed where it lies;
// another goes through a buffer of several blocks.
#![tactic(auto)]

ghost use Rattle.std.specs.Prelude.{false, ◌≡◌, ◌++◌, ◌+◌, ◌-◌, ◌/◌, ◌%◌, ◌≤◌, length, take, drop};
ghost use Rattle.simd.specs.Basic.{family_of, block_bytes, state_words, table};
ghost use Rattle.simd.specs.Steps.{compression};
ghost use Rattle.iteration.specs.Blocks.{absorbed};
ghost use Rattle.bits.specs.Zero.{padded};
ghost use Rattle.bits.specs.Shift.{carry_at, shifted, with_shifted};
ghost use Rattle.shifted_blocks.specs.Source.{Absorbed, Completing};

// Compresses the blocks of a shifted part that the buffer has room for, and gives the carry after it.
fn absorb_part(
    width: u16,
    state: &mut [u32; 32],
    scale: u16,
    carry: u8,
    part: &[u8],
    buffer: &mut [u8],
) -> u8
    requires { (length state.old ≡ 32) × (scale ≤ 256) × (length part.now ≤ length buffer.old) }
    ensures { Absorbed width state.old scale carry part.now state.new result }
{
    let n = part.len();
    let last = bits::shift(scale, carry, part, &mut buffer[..n]);
    tail::absorb(width, state, &buffer[..n]);
    last
}

// Compresses a shifted source of whole blocks, a part at a time, and gives the carry after it.
fn absorb_parts(width: u16, state: &mut [u32; 32], scale: u16, carry: u8, src: &[u8]) -> u8
    requires { (state.old ≡ padded 32 (take (state_words (family_of width)) state.old)) × (scale ≤ 256)
        × (length src.now % block_bytes (family_of width) ≡ 0) }
    ensures { Absorbed width state.old scale carry src.now state.new result }
{
    let mut buffer = [0u8; 1024];
    let mut held = carry;
    for part in src.chunks(1024) {
        held = absorb_part(width, state, scale, held, part, &mut buffer);
    }
    held
}

// The same; where nothing is to be shifted, straight from the source.
fn absorb_shifted(width: u16, state: &mut [u32; 32], scale: u16, carry: u8, src: &[u8]) -> u8
    requires { (state.old ≡ padded 32 (take (state_words (family_of width)) state.old)) × (scale ≤ 256)
        × (length src.now % block_bytes (family_of width) ≡ 0) }
    ensures { Absorbed width state.old scale carry src.now state.new result }
{
    if scale == 256 {
        if carry == 0 {
            tail::absorb(width, state, src);
            return 0;
        }
    }
    absorb_parts(width, state, scale, carry, src)
}

// Compresses the first bytes of a shifted source, which are whole blocks, and makes the others the tail.
pub fn absorb_whole_blocks(
    width: u16,
    state: &mut [u32; 32],
    tail: &mut [u8],
    scale: u16,
    carry: u8,
    src: &[u8],
    whole: usize,
)
    requires { (state.old ≡ padded 32 (take (state_words (family_of width)) state.old)) × (scale ≤ 256)
        × (whole % block_bytes (family_of width) ≡ 0) × (whole ≤ length src.now) × (length src.now - whole ≤ length tail.old) }
    ensures { (state.new
        ≡ padded 32 (absorbed (family_of width) (take (state_words (family_of width)) state.old)
        (table whole (shifted scale carry src.now)) (whole / block_bytes (family_of width))))
        × (tail.new
        ≡ table (length tail.old)
        (with_shifted (table (length tail.old) (λ _. 0)) 0 scale (carry_at scale carry src.now whole)
        (drop whole src.now))) }
{
    let end = src.len();
    let last = absorb_shifted(width, state, scale, carry, &src[0..whole]);
    tail.fill(0);
    bits::write_shifted(tail, 0, scale, last, &src[whole..end]);
}

// Completes the tail's block with a shifted part, and compresses it.
fn complete_block(
    width: u16,
    state: &mut [u32; 32],
    tail: &mut [u8],
    at: usize,
    scale: u16,
    carry: u8,
    part: &[u8],
) -> u8
    requires { (length state.old ≡ 32) × (scale ≤ 256) × (at + length part.now ≡ block_bytes (family_of width))
        × (at + length part.now ≤ length tail.old) }
    ensures { (state.new
        ≡ padded 32 (compression (family_of width) false (take (state_words (family_of width)) state.old)
        (take at tail.old ++ table (length part.now) (shifted scale carry part.now))))
        × (result ≡ carry_at scale carry part.now (length part.now)) }
{
    let end = at + part.len();
    let last = bits::shift(scale, carry, part, &mut tail[at..end]);
    tail::absorb(width, state, &tail[0..end]);
    last
}

// Completes the tail's block of `size` bytes, compresses it and the full blocks behind it, `whole` bytes in all, and makes the rest the tail.
pub fn complete_and_absorb(
    width: u16,
    size: usize,
    state: &mut [u32; 32],
    tail: &mut [u8],
    at: usize,
    scale: u16,
    carry: u8,
    src: &[u8],
    whole: usize,
)
    requires { Completing width size state.old tail.old at scale src.now whole }
    ensures { (state.new
        ≡ padded 32 (absorbed (family_of width)
        (compression (family_of width) false (take (state_words (family_of width)) state.old)
        (take at tail.old ++ table (size - at) (shifted scale carry src.now)))
        (table (whole - size)
        (shifted scale (carry_at scale carry src.now (size - at)) (drop (size - at) src.now)))
        ((whole - size) / block_bytes (family_of width))))
        × (tail.new
        ≡ table 128 (with_shifted (table 128 (λ _. 0)) 0 scale
        (carry_at scale carry src.now (whole - at)) (drop (whole - at) src.now))) }
{
    let end = src.len();
    let room = size - at;
    let last = complete_block(width, state, tail, at, scale, carry, &src[0..room]);
    absorb_whole_blocks(
        width,
        state,
        tail,
        scale,
        last,
        &src[room..end],
        whole - size,
    );
}
