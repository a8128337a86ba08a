// What is asked of an open hash by its parts: its starting state, whether they are legal, and whether a stored form is one.
#![tactic(auto)]

ghost use Rattle.std.specs.Prelude.{cond, ◌||◌, ◌≡◌, leb, eqb, ◌+◌, ◌*◌, ◌≤◌};
ghost use Rattle.simd.specs.Basic.{family_of, block_bytes};
ghost use Rattle.simd.specs.Constants.{start};
ghost use Rattle.bits.specs.Zero.{padded};
ghost use Rattle.hash_parts.specs.Legal.{legal_parts};
ghost use Rattle.form.specs.Head.{head_bytes};
ghost use Rattle.form.specs.Size.{form_bytes, old_form_bytes, current};
ghost use Rattle.refusals.specs.Numbers.{number_of};
ghost use Rattle.hash_parts.specs.Form.{restore_refusal};

use refusals::Refusal;

// The starting state of a width.
pub fn start_state(width: u16) -> [u32; 32]
    ensures { result ≡ padded 32 (start width) }
{
    match width {
        224 => tail::widen(compression::start_224()),
        256 => tail::widen(compression::start_256()),
        384 => compression::start_384(),
        _ => compression::start_512(),
    }
}

// Whether a hash of these parts is legal.
pub fn is_legal(width: u16, bits: u64, state: &[u32], tail: &[u8]) -> bool
    ensures { result ≡ legal_parts width bits state.now tail.now }
{
    expansion::is_width(width)
        && bits::words_zero(state, tail::block_bytes(width) / 4)
        && bits::bits_zero(tail, tail::used_bits(width, bits))
}

// Whether a hash of these parts writes to an output of `room` bytes that needs so many. Refusals 5, 6.
pub fn output_refusal(
    width: u16,
    bits: u64,
    state: &[u32],
    tail: &[u8],
    needed: usize,
    room: usize,
) -> Result<(), Refusal>
    ensures { number_of result ≡ cond (legal_parts width bits state.now tail.now) (cond (leb needed room) 0 6) 5 }
{
    if !is_legal(width, bits, state, tail) {
        return Err(Refusal::Hash);
    }
    if room < needed {
        return Err(Refusal::Output);
    }
    Ok(())
}

// The bytes of a head, and of a state and a block behind it.
fn with_head(head: usize, width: u16) -> usize
    requires { head ≤ head_bytes }
    ensures { result ≡ head + 2 * block_bytes (family_of width) }
{
    head + 2 * tail::block_bytes(width)
}

// The bytes of a form at a width.
pub fn form_bytes(width: u16) -> usize
    ensures { result ≡ form_bytes (family_of width) }
{
    with_head(form::HEAD_BYTES, width)
}

// Those of an old form.
fn old_form_bytes(width: u16) -> usize
    ensures { result ≡ old_form_bytes (family_of width) }
{
    with_head(form::OLD_HEAD_BYTES, width)
}

// Whether a form at a width may have so many bytes: those of today, or of an old one.
fn is_form_size(width: u16, length: usize) -> bool
    ensures { result ≡ (eqb length (form_bytes (family_of width)) || eqb length (old_form_bytes (family_of width))) }
{
    let full = form_bytes(width);
    let old = old_form_bytes(width);
    length == full || length == old
}

// Whether a byte string is a form. Refusals 8, 1, 8, 9.
pub fn restore_refusal(form: &[u8]) -> Result<(), Refusal>
    ensures { number_of result ≡ restore_refusal (current form.now) }
{
    let length = form.len();
    if length < 2 {
        return Err(Refusal::Form);
    }
    let width = form::read_width(form);
    if !expansion::is_width(width) {
        return Err(Refusal::Width);
    }
    if !is_form_size(width, length) {
        return Err(Refusal::Form);
    }
    let size = tail::block_bytes(width);
    let bits = form::form_bits(form, size);
    if !bits::bits_zero(&form[length - size..], tail::used_bits(width, bits)) {
        return Err(Refusal::Tail);
    }
    Ok(())
}
