// Blocks of a message compressed at a width, and the end of a message: the tail that is left, and the length block. The small family's
// state stands in the first 16 of 32 words.
#![tactic(auto)]

ghost use Rattle.std.specs.Prelude.{true, ◌≡◌, ◌*◌, ◌/◌, ◌%◌, ◌≤◌, length, take};
ghost use Rattle.simd.specs.Basic.{family_of, block_bytes, block_bits, digest_bytes, state_words};
ghost use Rattle.simd.specs.Message.{message, message_blocks, length_block};
ghost use Rattle.simd.specs.Steps.{compression};
ghost use Rattle.simd.specs.Hash.{chain, compressions};
ghost use Rattle.iteration.specs.Blocks.{absorbed};
ghost use Rattle.bits.specs.Zero.{padded};

use compression::{Large, Small};

// The bytes of a block, and of a digest.
pub fn block_bytes(width: u16) -> usize
    ensures { result ≡ block_bytes (family_of width) }
{
    if width <= 256 { 64 } else { 128 }
}

pub fn digest_bytes(width: u16) -> usize
    ensures { result ≡ digest_bytes width }
{
    usize::from(width / 8)
}

// The full blocks of so many bits.
pub fn full_blocks(width: u16, bits: usize) -> usize
    ensures { result ≡ bits / block_bits (family_of width) }
{
    if width <= 256 {
        bits / 512
    } else {
        bits / 1024
    }
}

// The bits in the tail of a hash of so many bits.
pub fn used_bits(width: u16, bits: u64) -> usize
    ensures { result ≡ bits % block_bits (family_of width) }
{
    if width <= 256 {
        (bits % 512) as usize
    } else {
        (bits % 1024) as usize
    }
}

// The small family's state in the first 16 of 32 words, and back.
fn narrow(state: [u32; 32]) -> [u32; 16]
    ensures { result ≡ take 16 state }
{
    let mut words = [0u32; 16];
    words.copy_from_slice(&state[..16]);
    words
}

pub fn widen(state: [u32; 16]) -> [u32; 32]
    ensures { result ≡ padded 32 state }
{
    let mut words = [0u32; 32];
    words[..16].copy_from_slice(&state);
    words
}

// Compresses all whole blocks of a byte string.
pub fn absorb(width: u16, state: &mut [u32; 32], bytes: &[u8])
    requires { length state.old ≡ 32 }
    ensures { state.new
        ≡ padded 32 (absorbed (family_of width) (take (state_words (family_of width)) state.old) bytes.now
        (length bytes.now / block_bytes (family_of width))) }
{
    if width <= 256 {
        let mut small = narrow(*state);
        iteration::absorb::<Small, 4, 16>(&mut small, bytes);
        *state = widen(small);
    } else {
        iteration::absorb::<Large, 8, 32>(state, bytes);
    }
}

// Compresses all blocks of the message that is the first `count` bits of a byte string, the last one filled with zeros, and then the length block
// of so many bits.
pub fn conclude(width: u16, state: &mut [u32; 32], bytes: &[u8], count: usize, bits: u64)
    requires { (length state.old ≡ 32) × (count ≤ 8 * length bytes.now) }
    ensures { state.new
        ≡ padded 32 (compression (family_of width) true
        (chain (family_of width) (take (state_words (family_of width)) state.old) (message bytes.now count)
        (message_blocks (family_of width) count))
        (length_block (family_of width) bits)) }
{
    if width <= 256 {
        let mut small = narrow(*state);
        iteration::conclude::<Small, 4, 16>(&mut small, bytes, count, bits);
        *state = widen(small);
    } else {
        iteration::conclude::<Large, 8, 32>(state, bytes, count, bits);
    }
}

// Compresses the tail, filled with zeros, where it holds a bit, and then the length block. Gives the number of compressions.
pub fn close(width: u16, bits: u64, state: &mut [u32; 32], tail: &[u8]) -> usize
    requires { (length state.old ≡ 32) × (length tail.now ≡ 128) }
    ensures { (state.new
        ≡ padded 32 (compression (family_of width) true
        (chain (family_of width) (take (state_words (family_of width)) state.old)
        (message tail.now (bits % block_bits (family_of width)))
        (message_blocks (family_of width) (bits % block_bits (family_of width))))
        (length_block (family_of width) bits)))
        × (result ≡ compressions (family_of width) (bits % block_bits (family_of width))) }
{
    let used = used_bits(width, bits);
    conclude(width, state, tail, used, bits);
    if used == 0 { 1 } else { 2 }
}
