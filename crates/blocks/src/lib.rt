// The blocks of a byte string and the length block, of either family: a block has as many bytes as the slice that is lent for it.
#![tactic(auto)]

ghost use Rattle.std.specs.Prelude.{true, ◌≡◌, ◌+◌, ◌*◌, ◌/◌, ◌%◌, ◌^◌, ◌≤◌, ◌<◌, min, length, get_or, take, drop};
ghost use Rattle.simd.specs.Basic.{table};
ghost use Rattle.simd.specs.Message.{byte_of, message};
ghost use Rattle.bits.specs.Zero.{all_zero};

pub fn smaller(x: usize, y: usize) -> usize
    ensures { result ≡ min x y }
{
    x.min(y)
}

// So many bytes from a place on.
pub fn part(bytes: &[u8], at: usize, size: usize) -> &[u8]
    requires { at + size ≤ length bytes.now }
    ensures { (result.now ≡ take size (drop at bytes.now)) × (length result.now ≡ size) }
{
    &bytes[at..at + size]
}

// The bytes from a place on, put over zeros, so that zeros stand past their end.
pub fn fill(bytes: &[u8], at: usize, block: &mut [u8])
    requires { (at ≤ length bytes.now) × (all_zero block.old ≡ true) }
    ensures { block.new ≡ table (length block.old) (λ j. get_or bytes.now (at + j) 0) }
{
    let count = (bytes.len() - at).min(block.len());
    block[..count].copy_from_slice(&bytes[at..at + count]);
}

// The first `count` bits from a place on, put over zeros: whatever stands behind the last one, zeros do here.
pub fn fill_bits(bytes: &[u8], at: usize, count: usize, block: &mut [u8])
    requires { (8 * at + count ≤ 8 * length bytes.now) × ((count + 7) / 8 ≤ length block.old) × (all_zero block.old ≡ true) }
    ensures { block.new ≡ table (length block.old) (byte_of (message (drop at bytes.now) count)) }
{
    let used = bits::bytes_of_bits(count);
    fill(part(bytes, at, used), 0, block);
    if count % 8 != 0 {
        bits::cut(block, count);
    }
}

// The length block of so many bits: eight bytes hold them, and zeros follow.
pub fn length_block(bits: u64, block: &mut [u8])
    ensures { block.new ≡ table (length block.old) (λ j. bits / 256 ^ j % 256) }
{
    little_endian::write_number(block, bits);
}
