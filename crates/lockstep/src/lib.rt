// The number of the block where two messages meet: the blocks of both are compressed side by side. Of the messages a and b, s and t are the states.
// Message blocks are numbered back from the last, which is 1.
#![tactic(auto)]

ghost use Rattle.std.specs.Prelude.{true, cond, ◌&&◌, ◌≡◌, ◌*◌, ◌-◌, ◌≤◌, eqb, length, take};
ghost use Rattle.simd.specs.Basic.{family_of, is_width, block_bytes, state_words};
ghost use Rattle.simd.specs.Constants.{start};
ghost use Rattle.simd.specs.Message.{message, message_blocks};
ghost use Rattle.iteration.specs.Blocks.{absorbed};
ghost use Rattle.bits.specs.Zero.{padded};
ghost use Rattle.pairs.specs.Lists.{equal, least};
ghost use Rattle.pairs.specs.Messages.{bits_in};
ghost use Rattle.pairs.specs.Pairs.{state_at, block_at, differ_at};
ghost use Rattle.pairs.specs.Compared.{common as commonNumbers};
ghost use Rattle.lockstep.specs.Lockstep.{Both, Reached};

use pairs::{Message, unlike};

// The message blocks of so many bits.
fn block_count(width: u16, count: usize) -> usize
    ensures { result ≡ message_blocks (family_of width) count }
{
    if width <= 256 {
        count / 512 + (count % 512 + 511) / 512
    } else {
        count / 1024 + (count % 1024 + 1023) / 1024
    }
}

// The message block of a number, in the first of 128 bytes. It is cut where the message or the block ends, whatever stands there.
// It takes bytes and count, not a Message: that each byte is below 256, which its proof needs, is not known of a slice in a field.
fn block_at(width: u16, bytes: &[u8], count: usize, number: usize) -> [u8; 128]
    requires { (count ≤ 8 * length bytes.now) × (1 ≤ number) × (number ≤ message_blocks (family_of width) count) }
    ensures { result ≡ padded 128 (block_at (family_of width) (message bytes.now count) number) }
{
    let size = tail::block_bytes(width);
    let at = size * (block_count(width, count) - number);
    let end = (8 * size).min(count - 8 * at);
    let mut block = [0u8; 128];
    blocks::fill_bits(bytes, at, end, &mut block);
    block
}

// Compresses a block, which stands in the first of 128 bytes.
fn absorb_block(width: u16, state: &mut [u32; 32], block: [u8; 128])
    requires { length state.old ≡ 32 }
    ensures { state.new
        ≡ padded 32 (absorbed (family_of width) (take (state_words (family_of width)) state.old) (take (block_bytes (family_of width)) block) 1) }
{
    tail::absorb(width, state, &block[..tail::block_bytes(width)]);
}

// Compresses all blocks of a message but the last `rest`, from the starting state on.
fn lead(width: u16, state: &mut [u32; 32], message: Message, rest: usize)
    requires { (is_width width ≡ true) × (state.old ≡ padded 32 (start width))
        × (rest ≤ message_blocks (family_of width) message.bits) }
    ensures { state.new ≡ padded 32 (state_at (family_of width) (start width) (bits_in message.entry) rest) }
{
    for number in (rest..block_count(width, message.bits)).rev() {
        absorb_block(
            width,
            state,
            block_at(width, message.bytes, message.bits, number + 1),
        );
    }
}

// Compresses the block of a number of each message, and tells whether the pairs there differ.
fn turn(
    width: u16,
    s: &mut [u32; 32],
    a: Message,
    t: &mut [u32; 32],
    b: Message,
    number: usize,
) -> bool
    requires { (1 ≤ number) × Both width a b number × Reached width (bits_in a) (bits_in b) number s.old t.old }
    ensures { Reached width (bits_in a.entry) (bits_in b.entry) (number - 1) s.new t.new
        × (result ≡ differ_at (family_of width) (start width) (bits_in a.entry) (bits_in b.entry) number) }
{
    let x = block_at(width, a.bytes, a.bits, number);
    let y = block_at(width, b.bytes, b.bits, number);
    let differ = unlike(s, &x, t, &y);
    absorb_block(width, s, x);
    absorb_block(width, t, y);
    differ
}

// Compresses the last `common` message blocks of both side by side. The result is the smallest of their numbers at which the pairs differ, and
// common + 1 where there is none.
fn side_by_side(
    width: u16,
    s: &mut [u32; 32],
    a: Message,
    t: &mut [u32; 32],
    b: Message,
    common: usize,
) -> usize
    requires { Both width a b common × Reached width (bits_in a) (bits_in b) common s.old t.old }
    ensures { Reached width (bits_in a.entry) (bits_in b.entry) 0 s.new t.new
        × (result ≡ least (differ_at (family_of width) (start width) (bits_in a.entry) (bits_in b.entry)) common 1) }
{
    let mut met = common + 1;
    for number in (0..common).rev() {
        if turn(width, s, a, t, b, number + 1) {
            met = number + 1;
        }
    }
    met
}

// The number with the length blocks, which have number 0, taken in.
#[tactic(auto, using(std::proofs::lemmas::Bool::Decides::nat_tests), unfolding(pairs::specs::Lists::equal))]
fn with_length(s: [u32; 32], m: usize, t: [u32; 32], n: usize, met: usize) -> usize
    ensures { result ≡ cond (equal s t && eqb m n) met 0 }
{
    if s == t && m == n { met } else { 0 }
}

// The smallest number, counted back from the length block, at which the pairs of two messages differ.
pub fn meeting(width: u16, a: Message, b: Message) -> usize
    requires { is_width width ≡ true }
    ensures { result ≡ least (differ_at (family_of width) (start width) (bits_in a.entry) (bits_in b.entry))
        (commonNumbers (family_of width) (bits_in a.entry) (bits_in b.entry)) 0 }
{
    let common = block_count(width, a.bits).min(block_count(width, b.bits));
    let mut s = hash_parts::start_state(width);
    let mut t = s;
    lead(width, &mut s, a, common);
    lead(width, &mut t, b, common);
    let met = side_by_side(width, &mut s, a, &mut t, b, common);
    with_length(s, a.bits, t, b.bits, met)
}
