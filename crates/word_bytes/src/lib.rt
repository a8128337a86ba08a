// The words of a byte string, and the bytes of a string of words, low byte first.
#![tactic(auto)]

ghost use Rattle.std.specs.Prelude.{◌≡◌, ◌*◌, ◌≤◌, length};
ghost use Rattle.simd.specs.Basic.{words_of, bytes_of};

use compression::bytes::word;

// Reads as many words as are lent.
pub fn read(words: &mut [u32], bytes: &[u8])
    requires { 4 * length words.old ≤ length bytes.now }
    ensures { words.new ≡ words_of (length words.old) bytes.now }
{
    for (i, x) in words.iter_mut().enumerate() {
        *x = word(bytes, i);
    }
}

// Writes the bytes of all words.
pub fn write(words: &[u32], out: &mut [u8])
    requires { length out.old ≡ 4 * length words.now }
    ensures { out.new ≡ bytes_of words.now }
{
    for (j, b) in out.iter_mut().enumerate() {
        *b = words[j / 4].to_le_bytes()[j % 4];
    }
}
