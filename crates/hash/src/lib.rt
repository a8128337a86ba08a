// The open hash: opened at a width, fed pieces of any number of bits, taken, stored and restored. A refusal leaves the hash as it was, and no
// buffer is written to. The hash is handed over and comes back beside the answer; methods of other names do the same in place.
#![tactic(auto)]

ghost use Rattle.std.specs.Prelude.{cond, ◌≡◌, leb, []};
ghost use Rattle.refusals.specs.Numbers.{number_of};
ghost use Rattle.hash.specs.Open.{holding, legal, open_answer, opened_as, opened_by, piece_refusal, feed_refusal, feed_answer, fed_by, digest_of, take_refusal, take_answer, taken_by, written};
ghost use Rattle.hash.specs.Form.{form_of, store_refusal, store_answer, stored_by, restore_answer};

use refusals::Refusal;

// The longest message, in bits.
pub const LIMIT: u64 = 18446744073709551615;

// The words past the family's state and the bits past the tail are 0.
#[derive(Clone, Copy)]
pub struct Hash {
    pub width: u16,
    pub bits: u64,
    pub state: [u32; 32],
    pub tail: [u8; 128],
}

// An answer and the hash after it. Refused, that is as it was handed over, or all zeros where none was (open, restore).
#[derive(Clone, Copy)]
pub struct Opened {
    pub hash: Hash,
    pub result: Result<(), Refusal>,
}

// The number of blocks compressed.
#[derive(Clone, Copy)]
pub struct Fed {
    pub hash: Hash,
    pub result: Result<usize, Refusal>,
}

#[derive(Clone, Copy)]
pub struct Taken {
    pub hash: Hash,
    pub result: Result<usize, Refusal>,
}

#[derive(Clone, Copy)]
pub struct Stored {
    pub hash: Hash,
    pub result: Result<(), Refusal>,
}

// Whether a piece goes behind so many bits. Refusals 2, 4.
pub fn piece_refusal(bits: u64, piece: &[u8], count: usize) -> Result<(), Refusal>
    ensures { number_of result ≡ piece_refusal bits piece.now count }
{
    if piece.len() < bits::bytes_of_bits(count) {
        return Err(Refusal::Count);
    }
    if LIMIT - bits < count as u64 {
        return Err(Refusal::Total);
    }
    Ok(())
}

// The hash that is none, in a refused answer.
pub fn zero_hash() -> Hash
    ensures { result ≡ holding 0 0 [] [] }
{
    Hash {
        width: 0,
        bits: 0,
        state: [0; 32],
        tail: [0; 128],
    }
}

fn handed_over(answer: Result<Hash, Refusal>) -> Opened
    ensures { opened_as result.hash result.result ≡ opened_by answer }
{
    match answer {
        Ok(hash) => Opened {
            hash,
            result: Ok(()),
        },
        Err(refusal) => Opened {
            hash: zero_hash(),
            result: Err(refusal),
        },
    }
}

impl Hash {
    // Opens a hash at a width. Refusal 1.
    pub fn open(width: u16) -> Opened
        ensures { opened_as result.hash result.result ≡ open_answer width }
    {
        handed_over(Hash::at(width))
    }

    // Feeds the first `count` bits of a piece; what stands past them is ignored. Refusals 5, 2, 4.
    pub fn feed(mut self, piece: &[u8], count: usize) -> Fed
        ensures { fed_by result.hash result.result ≡ feed_answer self piece.now count }
    {
        let result = self.absorb(piece, count);
        Fed { hash: self, result }
    }

    // Writes the digest of all bits fed so far; the hash stays open. Refusals 5, 6.
    pub fn take(self, out: &mut [u8]) -> Taken
        ensures { (taken_by result.hash result.result ≡ take_answer self out.old)
            × (out.new ≡ written (take_refusal self out.old) (digest_of self) out.old) }
    {
        let result = self.write_digest(out);
        Taken { hash: self, result }
    }

    // Writes the stored form: 138 or 266 bytes. Refusals 5, 6.
    pub fn store(self, out: &mut [u8]) -> Stored
        ensures { (stored_by result.hash result.result ≡ store_answer self out.old)
            × (out.new ≡ written (store_refusal self out.old) (form_of self) out.old) }
    {
        let result = self.write_form(out);
        Stored { hash: self, result }
    }

    // The hash of a stored form, of today's size or the old one. Refusals 8, 1, 8, 9.
    pub fn restore(form: &[u8]) -> Opened
        ensures { opened_as result.hash result.result ≡ restore_answer form.now }
    {
        handed_over(Hash::of_form(form))
    }

    // What `open` answers, and no hash where it is refused.
    pub fn at(width: u16) -> Result<Hash, Refusal>
        ensures { opened_by result ≡ open_answer width }
    {
        if !expansion::is_width(width) {
            return Err(Refusal::Width);
        }
        Ok(Hash {
            width,
            bits: 0,
            state: hash_parts::start_state(width),
            tail: [0; 128],
        })
    }

    fn feed_refusal(&self, piece: &[u8], count: usize) -> Result<(), Refusal>
        ensures { number_of result ≡ feed_refusal self.now piece.now count }
    {
        if !hash_parts::is_legal(self.width, self.bits, &self.state, &self.tail) {
            return Err(Refusal::Hash);
        }
        piece_refusal(self.bits, piece, count)
    }

    // What `feed` does, in place. Answers the number of blocks compressed.
    pub fn absorb(&mut self, piece: &[u8], count: usize) -> Result<usize, Refusal>
        ensures { fed_by self.new result ≡ feed_answer self.old piece.now count }
    {
        self.feed_refusal(piece, count)?;
        let bytes = bits::bytes_of_bits(count);
        let used = tail::used_bits(self.width, self.bits);
        let blocks = advance::advance(
            self.width,
            used,
            &mut self.state,
            &mut self.tail,
            &piece[..bytes],
            count,
        );
        self.bits += count as u64;
        Ok(blocks)
    }

    // Whether the hash is written to an output of `room` bytes, of which it needs so many.
    fn output_refusal(&self, needed: usize, room: usize) -> Result<(), Refusal>
        ensures { number_of result ≡ cond (legal self.now) (cond (leb needed room) 0 6) 5 }
    {
        hash_parts::output_refusal(self.width, self.bits, &self.state, &self.tail, needed, room)
    }

    // What `take` does. Answers the number of blocks compressed.
    pub fn write_digest(&self, out: &mut [u8]) -> Result<usize, Refusal>
        ensures { (taken_by self.now result ≡ take_answer self.now out.old)
            × (out.new ≡ written (take_refusal self.now out.old) (digest_of self.now) out.old) }
    {
        let length = tail::digest_bytes(self.width);
        self.output_refusal(length, out.len())?;
        let mut state = self.state;
        let compressed = tail::close(self.width, self.bits, &mut state, &self.tail);
        little_endian::write_words(&mut out[..length], state);
        Ok(compressed)
    }

    // What `store` does.
    pub fn write_form(&self, out: &mut [u8]) -> Result<(), Refusal>
        ensures { (stored_by self.now result ≡ store_answer self.now out.old)
            × (out.new ≡ written (store_refusal self.now out.old) (form_of self.now) out.old) }
    {
        let length = hash_parts::form_bytes(self.width);
        self.output_refusal(length, out.len())?;
        let size = tail::block_bytes(self.width);
        form::write_form(
            self.width,
            self.bits,
            self.state,
            &self.tail,
            size,
            &mut out[..length],
        );
        Ok(())
    }

    // What `restore` answers, and no hash where it is refused.
    pub fn of_form(form: &[u8]) -> Result<Hash, Refusal>
        ensures { opened_by result ≡ restore_answer form.now }
    {
        hash_parts::restore_refusal(form)?;
        let width = form::read_width(form);
        let size = tail::block_bytes(width);
        Ok(Hash {
            width,
            bits: form::form_bits(form, size),
            state: form::form_state(form, size),
            tail: form::form_tail(form, size),
        })
    }
}
