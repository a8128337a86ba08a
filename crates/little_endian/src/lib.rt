// Words and numbers in bytes, low byte first.
#![tactic(auto)]

ghost use Rattle.std.specs.Prelude.{◌≡◌, ◌+◌, ◌*◌, ◌%◌, ◌≤◌, length, take, drop};
ghost use Rattle.simd.specs.Basic.{bytes_of};
ghost use Rattle.little_endian.specs.Numbers.{little_endian, number};

// Writes the bytes of words, low byte first, as many words as the buffer takes.
pub fn write_words(out: &mut [u8], words: [u32; 32])
    requires { (length out.old ≤ 128) × (length out.old % 4 ≡ 0) }
    ensures { out.new ≡ take (length out.old) (bytes_of words) }
{
    for i in 0..out.len() / 4 {
        let bytes = words[i].to_le_bytes();
        out[4 * i..4 * i + 4].copy_from_slice(&bytes);
    }
}

// Writes a number, low byte first.
pub fn write_number(out: &mut [u8], number: u64)
    ensures { out.new ≡ little_endian (length out.old) number }
{
    out.fill(0);
    let count = out.len().min(8);
    let bytes = number.to_le_bytes();
    out[..count].copy_from_slice(&bytes[..count]);
}

// The word at a place of a byte string.
pub fn read_word(bytes: &[u8], at: usize) -> u32
    requires { at + 4 ≤ length bytes.now }
    ensures { result ≡ number 4 (drop at bytes.now) }
{
    let word = bytes[at..].first_chunk().unwrap();
    u32::from_le_bytes(*word)
}

// The number that the eight bytes at a place are.
pub fn read_long(bytes: &[u8], at: usize) -> u64
    requires { at + 8 ≤ length bytes.now }
    ensures { result ≡ number 8 (drop at bytes.now) }
{
    let long = bytes[at..].first_chunk().unwrap();
    u64::from_le_bytes(*long)
}
