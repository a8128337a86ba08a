// The bytes of a stored form, written and read part by part; its head, words that are read, and bytes copied, serve an index too.
#![tactic(auto)]

ghost use Rattle.std.specs.Prelude.{◌≡◌, ◌++◌, ◌+◌, ◌*◌, ◌-◌, ◌%◌, ◌≤◌, length, take, drop};
ghost use Rattle.simd.specs.Basic.{block_bytes, state_words, bytes_of, words_of};
ghost use Rattle.bits.specs.Zero.{padded};
ghost use Rattle.form.specs.Head.{head_bytes, head, form_width, form_bits};
ghost use Rattle.form.specs.Size.{form_family, current, IsWhole};

// The bytes of a bit length, and of a head: a width in 2 bytes and a bit length.
const LENGTH_BYTES: usize = 8;

pub const HEAD_BYTES: usize = 2 + LENGTH_BYTES;

// The bytes of an old head, whose bit length has 4.
pub const OLD_HEAD_BYTES: usize = 6;

// Writes the first bytes of a source, as many as the buffer takes. Byte by byte: between two buffers of a caller `copy_from_slice` becomes memmove,
// and the library asks for memcpy and memset alone.
pub fn write_bytes(out: &mut [u8], src: &[u8])
    requires { length out.old ≤ length src.now }
    ensures { out.new ≡ take (length out.old) src.now }
{
    for i in 0..out.len() {
        out[i] = src[i];
    }
}

// Writes a head.
pub fn write_head(width: u16, bits: u64, out: &mut [u8])
    requires { length out.old ≡ head_bytes }
    ensures { out.new ≡ head width bits }
{
    let number = u64::from(width);
    little_endian::write_number(&mut out[0..2], number);
    little_endian::write_number(&mut out[2..HEAD_BYTES], bits);
}

// Writes the stored form of a hash.
pub fn write_form(width: u16, bits: u64, state: [u32; 32], tail: &[u8], size: usize, out: &mut [u8])
    requires { (length out.old ≡ head_bytes + 2 * size) × (size ≤ 128) × (length tail.now ≡ 128) × (size % 4 ≡ 0) }
    ensures { out.new
        ≡ head width bits ++ take size (bytes_of state) ++ take size tail.now }
{
    let middle = HEAD_BYTES + size;
    let end = middle + size;
    write_head(width, bits, &mut out[0..HEAD_BYTES]);
    little_endian::write_words(&mut out[HEAD_BYTES..middle], state);
    write_bytes(&mut out[middle..end], tail);
}

// The width of a form, and its bit length.
pub fn read_width(form: &[u8]) -> u16
    requires { 2 ≤ length form.now }
    ensures { result ≡ form_width form.now }
{
    u16::from_le_bytes([form[0], form[1]])
}

pub fn read_bits(form: &[u8]) -> u64
    requires { head_bytes ≤ length form.now }
    ensures { result ≡ form_bits form.now }
{
    little_endian::read_long(form, 2)
}

// So many words from a place on.
pub fn read_words(bytes: &[u8], at: usize, words: usize) -> [u32; 32]
    requires { (words ≤ 32) × (at + 4 * words ≤ length bytes.now) }
    ensures { result ≡ padded 32 (words_of words (drop at bytes.now)) }
{
    let mut state = [0u32; 32];
    for i in 0..words {
        state[i] = little_endian::read_word(bytes, at + 4 * i);
    }
    state
}

// Bytes, of which there are at most 128, with zeros behind.
fn read_bytes(bytes: &[u8]) -> [u8; 128]
    requires { length bytes.now ≤ 128 }
    ensures { result ≡ padded 128 bytes.now }
{
    let mut tail = [0u8; 128];
    tail[..bytes.len()].copy_from_slice(bytes);
    tail
}

// The bytes of a head: what stands before the last two blocks of a form, its state and its tail.
fn head_of(length: usize, size: usize) -> usize
    requires { (2 * size ≤ length) × (size ≤ 128) }
    ensures { result ≡ length - 2 * size }
{
    length - 2 * size
}

// The bit length, the state and the tail of a form, of today's size or the old one, whose blocks have `size` bytes.
pub fn form_bits(form: &[u8], size: usize) -> u64
    requires { IsWhole form.now size }
    ensures { result ≡ form_bits (current form.now) }
{
    if form.len() < HEAD_BYTES + 2 * size {
        return u64::from(little_endian::read_word(form, 2));
    }
    read_bits(form)
}

pub fn form_state(form: &[u8], size: usize) -> [u32; 32]
    requires { IsWhole form.now size }
    ensures { result ≡ padded 32 (words_of (state_words (form_family form.now)) (drop head_bytes (current form.now))) }
{
    let head = head_of(form.len(), size);
    read_words(form, head, size / 4)
}

pub fn form_tail(form: &[u8], size: usize) -> [u8; 128]
    requires { IsWhole form.now size }
    ensures { result
        ≡ padded 128 (drop (head_bytes + block_bytes (form_family form.now)) (current form.now)) }
{
    let head = head_of(form.len(), size);
    read_bytes(&form[head + size..])
}
