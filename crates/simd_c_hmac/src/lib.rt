// The calls for C that hold the stored form of a keyed hash: opened, fed, taken and checked. Each leaves on a refusal all that it was lent as it was.
#![tactic(auto)]

ghost use Rattle.std.specs.Prelude.{◌≡◌};
ghost use Rattle.refusals.specs.Numbers.{number_of};
ghost use Rattle.hash.specs.Open.{written};
ghost use Rattle.hmac.specs.Keyed.{take_answer, check_answer, tag_of};
ghost use Rattle.hmac.specs.Form.{keyed_form, restore_answer};
ghost use Rattle.simd_c_forms.specs.Calls.{stored};
ghost use Rattle.simd_c_hmac.specs.Calls.{opened_hmac, open_call, fed_from, feed_call, take_call, check_call, yes};

use hmac::Hmac;
use refusals::Refusal;

// The keyed hash of a width and a key, stored.
pub fn open_form(width: u16, key: &[u8], form: &mut [u8]) -> Result<(), Refusal>
    ensures value { number_of result ≡ open_call width key.now form.old }
    ensures form_after { form.new ≡ written (open_call width key.now form.old)
        (keyed_form (opened_hmac width key.now)) form.old }
{
    let hmac = Hmac::at(width, key)?;
    hmac.write_form(form)
}

// A form restored, fed and stored again.
pub fn feed_form(form: &mut [u8], piece: &[u8], bits: u64, blocks: &mut u64) -> Result<(), Refusal>
    ensures value { number_of result ≡ feed_call form.old piece.now bits }
    ensures form_after { form.new ≡ written (feed_call form.old piece.now bits)
        (keyed_form (fed_from form.old piece.now bits).hmac) form.old }
    ensures blocks_after { blocks.new ≡ stored (feed_call form.old piece.now bits)
        (fed_from form.old piece.now bits).blocks blocks.old }
{
    let mut hmac = Hmac::of_form(form)?;
    let fed = hmac.absorb(piece, bits as usize)?;
    hmac.write_form(form)?;
    *blocks = fed as u64;
    Ok(())
}

// A form restored and taken.
pub fn take_form(form: &[u8], out: &mut [u8], blocks: &mut u64) -> Result<(), Refusal>
    ensures value { number_of result ≡ take_call form.now out.old }
    ensures out_after { out.new ≡ written (take_call form.now out.old)
        (tag_of (restore_answer form.now).hmac) out.old }
    ensures blocks_after { blocks.new ≡ stored (take_call form.now out.old)
        (take_answer (restore_answer form.now).hmac out.old).blocks blocks.old }
{
    let hmac = Hmac::of_form(form)?;
    let taken = hmac.write_tag(out)?;
    *blocks = taken as u64;
    Ok(())
}

// A form restored and checked against bytes.
pub fn check_form(form: &[u8], given: &[u8], right: &mut u64) -> Result<(), Refusal>
    ensures value { number_of result ≡ check_call form.now given.now }
    ensures right_after { right.new ≡ stored (check_call form.now given.now)
        (yes (check_answer (restore_answer form.now).hmac given.now).right) right.old }
{
    let hmac = Hmac::of_form(form)?;
    let verdict = hmac.verify(given)?;
    *right = u64::from(verdict);
    Ok(())
}
