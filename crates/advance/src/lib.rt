// The bits of a piece put behind those of a tail that may end within a byte, and each block that becomes full compressed.
#![tactic(auto)]

ghost use Rattle.std.specs.Prelude.{true, ◌≢◌, ◌≡◌, ◌+◌, ◌*◌, ◌/◌, ◌%◌, ◌^◌, ◌<◌, length, drop};
ghost use Rattle.simd.specs.Basic.{family_of, block_bytes, block_bits, table};
ghost use Rattle.simd.specs.Message.{byte_of, message};
ghost use Rattle.bits.specs.Zero.{all_zero};
ghost use Rattle.advance.specs.Joined.{Ready, Joins};

// The bytes of a number of blocks.
fn bytes_of_blocks(width: u16, blocks: usize) -> usize
    requires { blocks < 2 ^ 56 }
    ensures { result ≡ block_bytes (family_of width) * blocks }
{
    tail::block_bytes(width) * blocks
}

// Puts all bits of a source behind those of the tail, and compresses each block that the first `count` of them make full. Gives their number.
fn join(
    width: u16,
    used: usize,
    state: &mut [u32; 32],
    tail: &mut [u8],
    src: &[u8],
    count: usize,
) -> usize
    requires { Ready width used state.old tail.old src.now count }
    ensures { Joins width used state.old tail.old src.now (8 * length src.now)
        ((used + count) / block_bits (family_of width)) state.new tail.new result }
{
    let blocks = tail::full_blocks(width, used + count);
    let at = used / 8;
    let scale = bits::scale_of(used % 8);
    let carry = tail[at];
    if blocks == 0 {
        bits::write_shifted(tail, at, scale, carry, src);
        return 0;
    }
    let whole = bytes_of_blocks(width, blocks);
    if used == 0 {
        shifted_blocks::absorb_whole_blocks(width, state, tail, scale, carry, src, whole);
        return blocks;
    }
    let size = tail::block_bytes(width);
    shifted_blocks::complete_and_absorb(width, size, state, tail, at, scale, carry, src, whole);
    blocks
}

// Makes all bits of the tail from a place on 0, after a piece of so many bits that ends within a byte. Whole bytes have nothing past them.
fn trim(tail: &mut [u8], count: usize, from: usize)
    requires { (from / 8 < length tail.old) × (all_zero (drop (from / 8 + 2) tail.old) ≡ true) }
    ensures { (count % 8 ≡ 0 → tail.new ≡ tail.old)
        × (count % 8 ≢ 0 → tail.new ≡ table (length tail.old) (byte_of (message tail.old from))) }
{
    if count % 8 != 0 {
        bits::cut(tail, from);
    }
}

// Puts the first `count` bits of a piece behind those of the tail: compresses each block that becomes full, and gives their number. What stands
// past these bits in the last byte gets into the tail, and is made 0 there.
pub fn advance(
    width: u16,
    used: usize,
    state: &mut [u32; 32],
    tail: &mut [u8],
    src: &[u8],
    count: usize,
) -> usize
    requires { Ready width used state.old tail.old src.now count }
    ensures { Joins width used state.old tail.old src.now count
        ((used + count) / block_bits (family_of width)) state.new tail.new result }
{
    let blocks = join(width, used, state, tail, src, count);
    if blocks == 0 {
        trim(tail, count, used + count);
        return 0;
    }
    trim(tail, count, tail::used_bits(width, (used + count) as u64));
    blocks
}
