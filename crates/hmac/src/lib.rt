// The keyed hash, HMAC of FIPS 198-1: opened with a key, fed pieces of any number of bits, taken, checked, stored and restored. Refusals are as for the
// open hash. It is as secret as its key.
#![tactic(auto)]

ghost use Rattle.std.specs.Prelude.{◌≡◌};
ghost use Rattle.hash.specs.Open.{written};
ghost use Rattle.hmac.specs.Keyed.{opened_as, opened_by, open_answer, fed_by, feed_answer, tag_of, take_refusal, taken_by, take_answer, checked_by, check_answer};
ghost use Rattle.hmac.specs.Form.{keyed_form, store_refusal, stored_by, store_answer, restore_answer};

use hash::Hash;
use refusals::Refusal;

// `inner` was fed K0 xor ipad and then the pieces, `outer` K0 xor opad alone.
#[derive(Clone, Copy)]
pub struct Hmac {
    pub inner: Hash,
    pub outer: Hash,
}

// An answer and the keyed hash after it. Refused, that is as it was handed over, or all zeros where none was (open, restore).
#[derive(Clone, Copy)]
pub struct Opened {
    pub hmac: Hmac,
    pub result: Result<(), Refusal>,
}

// The number of blocks compressed.
#[derive(Clone, Copy)]
pub struct Fed {
    pub hmac: Hmac,
    pub result: Result<usize, Refusal>,
}

#[derive(Clone, Copy)]
pub struct Taken {
    pub hmac: Hmac,
    pub result: Result<usize, Refusal>,
}

// Whether the bytes given were the tag.
#[derive(Clone, Copy)]
pub struct Checked {
    pub hmac: Hmac,
    pub result: Result<bool, Refusal>,
}

#[derive(Clone, Copy)]
pub struct Stored {
    pub hmac: Hmac,
    pub result: Result<(), Refusal>,
}

fn handed_over(answer: Result<Hmac, Refusal>) -> Opened
    ensures { opened_as result.hmac result.result ≡ opened_by answer }
{
    match answer {
        Ok(hmac) => Opened {
            hmac,
            result: Ok(()),
        },
        Err(refusal) => {
            let none = hash::zero_hash();
            let hmac = Hmac {
                inner: none,
                outer: none,
            };
            Opened {
                hmac,
                result: Err(refusal),
            }
        }
    }
}

impl Hmac {
    // Opens a keyed hash at a width. Refusals 1, 4.
    pub fn open(width: u16, key: &[u8]) -> Opened
        ensures { opened_as result.hmac result.result ≡ open_answer width key.now }
    {
        handed_over(Hmac::at(width, key))
    }

    // Feeds the first `count` bits of a piece; what stands past them is ignored. Refusals 5, 2, 4.
    pub fn feed(mut self, piece: &[u8], count: usize) -> Fed
        ensures { fed_by result.hmac result.result ≡ feed_answer self piece.now count }
    {
        let result = self.absorb(piece, count);
        Fed { hmac: self, result }
    }

    // Writes the tag of all bits fed so far; it stays open. Refusals 5, 6.
    pub fn take(self, out: &mut [u8]) -> Taken
        ensures { (taken_by result.hmac result.result ≡ take_answer self out.old)
            × (out.new ≡ written (take_refusal self out.old) (tag_of self) out.old) }
    {
        let result = self.write_tag(out);
        Taken { hmac: self, result }
    }

    // Whether the bytes given are the tag of all bits fed so far; it stays open. Refusal 5.
    pub fn check(self, given: &[u8]) -> Checked
        ensures { checked_by result.hmac result.result ≡ check_answer self given.now }
    {
        let result = self.verify(given);
        Checked { hmac: self, result }
    }

    // Writes the stored form: 276 or 532 bytes. Refusals 5, 6.
    pub fn store(self, out: &mut [u8]) -> Stored
        ensures { (stored_by result.hmac result.result ≡ store_answer self out.old)
            × (out.new ≡ written (store_refusal self out.old) (keyed_form self) out.old) }
    {
        let result = self.write_form(out);
        Stored { hmac: self, result }
    }

    // The keyed hash of a stored form, whose halves may be of the old size. Refusals 8, 1, 8, 9 of the front half, then of the back half, then 5.
    pub fn restore(form: &[u8]) -> Opened
        ensures { opened_as result.hmac result.result ≡ restore_answer form.now }
    {
        handed_over(Hmac::of_form(form))
    }

    // What `open` answers, and no keyed hash where it is refused.
    pub fn at(width: u16, key: &[u8]) -> Result<Hmac, Refusal>
        ensures { opened_by result ≡ open_answer width key.now }
    {
        hmac_key::key_refusal(width, key.len())?;
        let size = tail::block_bytes(width);
        let block = hmac_key::key_block(width, key);
        let inner_block = hmac_key::mask(block, hmac_key::INNER_PAD);
        let outer_block = hmac_key::mask(block, hmac_key::OUTER_PAD);
        let inner = hmac_parts::begin(width, &inner_block[..size]);
        let outer = hmac_parts::begin(width, &outer_block[..size]);
        Ok(Hmac { inner, outer })
    }

    // What `feed` does, in place. Answers the number of blocks compressed.
    pub fn absorb(&mut self, piece: &[u8], count: usize) -> Result<usize, Refusal>
        ensures { fed_by self.new result ≡ feed_answer self.old piece.now count }
    {
        if !hmac_parts::is_keyed(&self.inner, &self.outer) {
            return Err(Refusal::Hash);
        }
        self.inner.absorb(piece, count)
    }

    // What `take` does. Answers the number of blocks compressed.
    pub fn write_tag(&self, out: &mut [u8]) -> Result<usize, Refusal>
        ensures { (taken_by self.now result ≡ take_answer self.now out.old)
            × (out.new ≡ written (take_refusal self.now out.old) (tag_of self.now) out.old) }
    {
        hmac_parts::tag_refusal(&self.inner, &self.outer, out.len())?;
        Ok(hmac_parts::finish(self.inner, self.outer, out))
    }

    // What `check` answers.
    pub fn verify(&self, given: &[u8]) -> Result<bool, Refusal>
        ensures { checked_by self.now result ≡ check_answer self.now given.now }
    {
        if !hmac_parts::is_keyed(&self.inner, &self.outer) {
            return Err(Refusal::Hash);
        }
        let right = hmac_parts::is_tag(self.inner, self.outer, given);
        Ok(right)
    }

    // What `store` does. By value, of which the lengths of the arrays are known to the prover, and behind a reference not.
    pub fn write_form(self, out: &mut [u8]) -> Result<(), Refusal>
        ensures { (stored_by self result ≡ store_answer self out.old)
            × (out.new ≡ written (store_refusal self out.old) (keyed_form self) out.old) }
    {
        let half = hash_parts::form_bytes(self.inner.width);
        hmac_parts::output_refusal(&self.inner, &self.outer, 2 * half, out.len())?;
        self.inner.write_form(out)?;
        self.outer.write_form(&mut out[half..])
    }

    // What `restore` answers, and no keyed hash where it is refused.
    pub fn of_form(form: &[u8]) -> Result<Hmac, Refusal>
        ensures { opened_by result ≡ restore_answer form.now }
    {
        let (front, back) = form.split_at(form.len() / 2);
        let inner = Hash::of_form(front)?;
        let outer = Hash::of_form(back)?;
        if !hmac_parts::is_keyed(&inner, &outer) {
            return Err(Refusal::Hash);
        }
        Ok(Hmac { inner, outer })
    }
}
