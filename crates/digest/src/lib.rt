// The digest of a message that is at hand whole. No hash is opened: the tables are made once, and full blocks are read in place.
#![tactic(auto)]

ghost use Rattle.std.specs.Prelude.{◌≡◌, length};
ghost use Rattle.simd.specs.Message.{message as messageOf};
ghost use Rattle.simd.specs.Hash.{digest as digestOfMessage};
ghost use Rattle.refusals.specs.Numbers.{number_of};
ghost use Rattle.hash.specs.Open.{written};
ghost use Rattle.digest.specs.Call.{digest_refusal};

use refusals::Refusal;

// Whether there is a digest of so many bits of a message for an output of so many bytes.
fn refusal(width: u16, message: &[u8], count: usize, room: usize) -> Result<(), Refusal>
    ensures { number_of result ≡ digest_refusal width message.now count room }
{
    if !expansion::is_width(width) {
        return Err(Refusal::Width);
    }
    hash::piece_refusal(0, message, count)?;
    if room < tail::digest_bytes(width) {
        return Err(Refusal::Output);
    }
    Ok(())
}

// Writes the digest of the first `count` bits of a message; what stands past them is ignored. Refusals 1, 2, 4, 6.
pub fn digest(width: u16, message: &[u8], count: usize, out: &mut [u8]) -> Result<(), Refusal>
    ensures value { number_of result ≡ digest_refusal width message.now count (length out.old) }
    ensures out_after { out.new ≡ written (digest_refusal width message.now count (length out.old))
        (digestOfMessage width (messageOf message.now count)) out.old }
{
    refusal(width, message, count, out.len())?;
    let mut state = hash_parts::start_state(width);
    tail::conclude(width, &mut state, message, count, count as u64);
    let length = tail::digest_bytes(width);
    little_endian::write_words(&mut out[0..length], state);
    Ok(())
}
