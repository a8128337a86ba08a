// Bits of a byte string: whether all past a place are 0, how they are made 0, and bytes put behind a byte that is not full. Whole bytes are
// shifted, never single bits.
#![tactic(auto)]

ghost use Rattle.std.specs.Prelude.{true, ◌≡◌, ◌+◌, ◌*◌, ◌-◌, ◌/◌, ◌^◌, ◌≤◌, ◌<◌, length, drop};
ghost use Rattle.simd.specs.Basic.{table};
ghost use Rattle.simd.specs.Message.{byte_of, message};
ghost use Rattle.bits.specs.Zero.{all_zero, clear};
ghost use Rattle.bits.specs.Shift.{carry_at, shifted, with_shifted};

// The bytes that hold so many bits.
pub fn bytes_of_bits(count: usize) -> usize
    ensures { result ≡ (count + 7) / 8 }
{
    count.div_ceil(8)
}

// Whether all words from a place on are 0. All are read, with no early end, so that the loop becomes vector code.
pub fn words_zero(words: &[u32], from: usize) -> bool
    ensures { result ≡ all_zero (drop from words.now) }
{
    let rest = &words[from.min(words.len())..];
    rest.iter().fold(0, |seen, word| seen | *word) == 0
}

// The same of all bytes.
fn bytes_zero(bytes: &[u8]) -> bool
    ensures { result ≡ all_zero bytes.now }
{
    bytes.iter().fold(0, |seen, byte| seen | *byte) == 0
}

// 2 to the number of bits that are free in a byte that holds `held`.
pub fn scale_of(held: usize) -> u16
    requires { held < 8 }
    ensures { (result ≡ 2 ^ (8 - held)) × (result ≤ 256) × (0 < result) }
{
    256u16 >> held
}

// Whether all bits from a place on are 0.
pub fn bits_zero(bytes: &[u8], from: usize) -> bool
    ensures { result ≡ clear from bytes.now }
{
    let at = from / 8;
    if bytes.len() <= at {
        return true;
    }
    if u16::from(bytes[at]) % scale_of(from % 8) != 0 {
        return false;
    }
    bytes_zero(&bytes[at + 1..])
}

// Writes the shifted source, as much as the buffer takes, and gives the carry after it.
pub fn shift(scale: u16, carry: u8, src: &[u8], dst: &mut [u8]) -> u8
    requires { (scale ≤ 256) × (length dst.old ≤ length src.now) }
    ensures { (dst.new ≡ table (length dst.old) (shifted scale carry src.now))
        × (result ≡ carry_at scale carry src.now (length dst.old)) }
{
    let mut held = u16::from(carry);
    for i in 0..dst.len() {
        let scaled = u16::from(src[i]) * scale;
        dst[i] = ((held + scaled / 256) % 256) as u8;
        held = scaled % 256;
    }
    held as u8
}

// Writes the shifted source into a buffer from place `at` on, and the carry behind it where the buffer goes on.
pub fn write_shifted(buffer: &mut [u8], at: usize, scale: u16, carry: u8, src: &[u8])
    requires { (scale ≤ 256) × (at + length src.now ≤ length buffer.old) }
    ensures { buffer.new
        ≡ table (length buffer.old) (with_shifted buffer.old at scale carry src.now) }
{
    let whole = buffer.len();
    let end = at + src.len();
    let last = shift(scale, carry, src, &mut buffer[at..end]);
    if end < whole {
        buffer[end] = last;
    }
}

// Makes all bits from a place on 0, where none is set behind the byte that follows it.
pub fn cut(bytes: &mut [u8], from: usize)
    requires { (from / 8 < length bytes.old) × (all_zero (drop (from / 8 + 2) bytes.old) ≡ true) }
    ensures { bytes.new ≡ table (length bytes.old) (byte_of (message bytes.old from)) }
{
    let at = from / 8;
    let kept = u16::from(bytes[at]) >> (8 - from % 8);
    bytes[at] = (kept * scale_of(from % 8)) as u8;
    if at + 1 < bytes.len() {
        bytes[at + 1] = 0;
    }
}
