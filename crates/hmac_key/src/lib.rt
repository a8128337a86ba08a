// What HMAC makes of a key: K0, a block of its own, and K0 xor either pad. The definition of HMAC stands in specs/Hmac.antt.
#![tactic(auto)]

ghost use Rattle.std.specs.Prelude.{true, ◌≡◌, ◌*◌, ◌≤◌, length};
ghost use Rattle.simd.specs.Basic.{is_width};
ghost use Rattle.bits.specs.Zero.{padded};
ghost use Rattle.refusals.specs.Numbers.{number_of};
ghost use Rattle.hash.specs.Open.{limit};
ghost use Rattle.hmac_key.specs.Hmac.{key_block, masked};
ghost use Rattle.hmac_key.specs.Refusal.{key_refusal};

use refusals::Refusal;

// The bytes that are repeated in the inner and in the outer pad.
pub const INNER_PAD: u8 = 0x36;

pub const OUTER_PAD: u8 = 0x5c;

// Whether a width and a key of so many bytes open a keyed hash. Refusals 1, 4.
pub fn key_refusal(width: u16, bytes: usize) -> Result<(), Refusal>
    ensures { number_of result ≡ key_refusal width bytes }
{
    if !expansion::is_width(width) {
        return Err(Refusal::Width);
    }
    if hash::LIMIT / 8 < bytes as u64 {
        return Err(Refusal::Total);
    }
    Ok(())
}

// K0, in the first of 128 bytes.
pub fn key_block(width: u16, key: &[u8]) -> [u8; 128]
    requires { (is_width width ≡ true) × (8 * length key.now ≤ limit) }
    ensures { result ≡ padded 128 (key_block width key.now) }
{
    let mut block = [0u8; 128];
    if key.len() <= tail::block_bytes(width) {
        blocks::fill(key, 0, &mut block);
    } else {
        digest::digest(width, key, 8 * key.len(), &mut block).unwrap();
    }
    block
}

// A block xor a pad.
pub fn mask(block: [u8; 128], pad: u8) -> [u8; 128]
    ensures { result ≡ masked pad block }
{
    let mut out = block;
    for byte in out.iter_mut() {
        *byte ^= pad;
    }
    out
}
