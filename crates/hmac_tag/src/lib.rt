// The tag of a message that is at hand whole.
#![tactic(auto)]

ghost use Rattle.std.specs.Prelude.{◌≡◌, length};
ghost use Rattle.simd.specs.Message.{message as messageOf};
ghost use Rattle.refusals.specs.Numbers.{number_of};
ghost use Rattle.hash.specs.Open.{written};
ghost use Rattle.hmac_key.specs.Hmac.{tag as tagOfMessage};
ghost use Rattle.hmac_tag.specs.Call.{tag_refusal};

use hmac::Hmac;
use refusals::Refusal;

// Writes the tag of the first `count` bits of a message under a key; what stands past them is ignored. Refusals 1, 4 of the key, 2, 4, 6.
pub fn tag(
    width: u16,
    key: &[u8],
    message: &[u8],
    count: usize,
    out: &mut [u8],
) -> Result<(), Refusal>
    ensures value { number_of result ≡ tag_refusal width key.now message.now count (length out.old) }
    ensures out_after { out.new
        ≡ written (tag_refusal width key.now message.now count (length out.old))
        (tagOfMessage width key.now (messageOf message.now count)) out.old }
{
    let mut hmac = Hmac::at(width, key)?;
    hmac.absorb(message, count)?;
    hmac.write_tag(out)?;
    Ok(())
}
