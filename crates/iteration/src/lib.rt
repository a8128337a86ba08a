// The iteration over the blocks of a byte string (section 1.2): message blocks, the last one filled with zeros, and the length block. `absorb`
// and `conclude` make the table of roots once, whatever the number of blocks; the functions below them are lent it. A block has as many bytes as
// the W words of a state.
#![tactic(auto)]

ghost use Rattle.std.specs.Prelude.{false, true, ◌≡◌, ◌+◌, ◌*◌, ◌/◌, ◌≤◌, length};
ghost use Rattle.simd.specs.Basic.{block_bytes, block_bits};
ghost use Rattle.simd.specs.Message.{bits_of, message, block as block_of, message_blocks, length_block};
ghost use Rattle.simd.specs.Steps.{compression};
ghost use Rattle.simd.specs.Hash.{chain};
ghost use Rattle.transform_tables.specs.Roots.{Roots};
ghost use Rattle.iteration.specs.Blocks.{absorbed};

use compression::{Family, compress};

// Compresses block k of a byte string where it lies.
fn compress_block<F: Family<R, W>, const R: usize, const W: usize>(
    state: &mut [u32; W],
    bytes: &[u8],
    k: usize,
    roots: &[u16; 512],
    unread: &mut [[u32; R]; 36],
)
    requires { (block_bytes F.family * k + block_bytes F.family ≤ length bytes.now) × Roots roots.now }
    ensures { state.new ≡ compression F.family false state.old (block_of F.family (bits_of bytes.now) k) }
{
    compress::<F, R, W>(
        state,
        blocks::part(bytes, 4 * W * k, 4 * W),
        roots,
        false,
        unread,
    );
}

// Compresses the first blocks of a byte string, which has all of their bytes.
fn compress_blocks<F: Family<R, W>, const R: usize, const W: usize>(
    state: &mut [u32; W],
    bytes: &[u8],
    count: usize,
    roots: &[u16; 512],
    unread: &mut [[u32; R]; 36],
)
    requires { (block_bytes F.family * count ≤ length bytes.now) × Roots roots.now }
    ensures { state.new ≡ absorbed F.family state.old bytes.now count }
{
    for k in 0..count {
        compress_block::<F, R, W>(state, bytes, k, roots, unread);
    }
}

// Compresses the block behind the full ones of a message of so many bits: a copy with zeros past the last bit, whatever stands there.
fn compress_last<F: Family<R, W>, const R: usize, const W: usize>(
    state: &mut [u32; W],
    bytes: &[u8],
    count: usize,
    roots: &[u16; 512],
    unread: &mut [[u32; R]; 36],
)
    requires { (count ≤ 8 * length bytes.now) × Roots roots.now }
    ensures { state.new
        ≡ compression F.family false state.old (block_of F.family (message bytes.now count) (count / block_bits F.family)) }
{
    let mut room = [0u8; 128];
    let block = &mut room[..4 * W];
    blocks::fill_bits(bytes, 4 * W * (count / (32 * W)), count % (32 * W), block);
    compress::<F, R, W>(state, block, roots, false, unread);
}

// Compresses every block of a message of so many bits.
fn compress_message<F: Family<R, W>, const R: usize, const W: usize>(
    state: &mut [u32; W],
    bytes: &[u8],
    count: usize,
    roots: &[u16; 512],
    unread: &mut [[u32; R]; 36],
)
    requires { (count ≤ 8 * length bytes.now) × Roots roots.now }
    ensures { state.new ≡ chain F.family state.old (message bytes.now count) (message_blocks F.family count) }
{
    compress_blocks::<F, R, W>(state, bytes, count / (32 * W), roots, unread);
    if count % (32 * W) != 0 {
        compress_last::<F, R, W>(state, bytes, count, roots, unread);
    }
}

// Compresses the length block of so many bits.
fn finish<F: Family<R, W>, const R: usize, const W: usize>(
    state: &mut [u32; W],
    bits: u64,
    roots: &[u16; 512],
    unread: &mut [[u32; R]; 36],
)
    requires { Roots roots.now }
    ensures { state.new ≡ compression F.family true state.old (length_block F.family bits) }
{
    let mut room = [0u8; 128];
    let block = &mut room[..4 * W];
    blocks::length_block(bits, block);
    compress::<F, R, W>(state, block, roots, true, unread);
}

// Compresses every whole block of a byte string. What is left is not read.
pub fn absorb<F: Family<R, W>, const R: usize, const W: usize>(state: &mut [u32; W], bytes: &[u8])
    ensures { state.new ≡ absorbed F.family state.old bytes.now (length bytes.now / block_bytes F.family) }
{
    let mut roots = [0u16; 512];
    transform_tables::fill_roots(&mut roots);
    let mut unread = [[0u32; R]; 36];
    compress_blocks::<F, R, W>(state, bytes, bytes.len() / (4 * W), &roots, &mut unread);
}

// Compresses every block of the message that is the first `count` bits of a byte string, the last one filled with zeros, and then the length block
// of so many bits.
pub fn conclude<F: Family<R, W>, const R: usize, const W: usize>(
    state: &mut [u32; W],
    bytes: &[u8],
    count: usize,
    bits: u64,
)
    requires { count ≤ 8 * length bytes.now }
    ensures { state.new
        ≡ compression F.family true
        (chain F.family state.old (message bytes.now count) (message_blocks F.family count))
        (length_block F.family bits) }
{
    let mut roots = [0u16; 512];
    transform_tables::fill_roots(&mut roots);
    let mut unread = [[0u32; R]; 36];
    compress_message::<F, R, W>(state, bytes, count, &roots, &mut unread);
    finish::<F, R, W>(state, bits, &roots, &mut unread);
}
