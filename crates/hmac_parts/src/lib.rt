// The two hashes of a keyed one: how each begins, whether two are such, and the tag that they give.
#![tactic(auto)]

ghost use Rattle.std.specs.Prelude.{true, cond, ◌≡◌, ◌+◌, ◌≤◌, leb, length};
ghost use Rattle.simd.specs.Basic.{is_width, digest_bytes};
ghost use Rattle.simd.specs.Hash.{compressions};
ghost use Rattle.refusals.specs.Numbers.{number_of};
ghost use Rattle.hash.specs.Open.{family, used, legal, written};
ghost use Rattle.pairs.specs.Lists.{equal};
ghost use Rattle.hmac_parts.specs.Keyed.{begun, keyed, tag_from};

use hash::Hash;
use refusals::Refusal;

fn is_legal(hash: &Hash) -> bool
    ensures { result ≡ legal hash.now }
{
    hash_parts::is_legal(hash.width, hash.bits, &hash.state, &hash.tail)
}

// Whether two hashes are those of a keyed one.
pub fn is_keyed(inner: &Hash, outer: &Hash) -> bool
    ensures { result ≡ keyed inner.now outer.now }
{
    if !is_legal(inner) {
        return false;
    }
    if !is_legal(outer) {
        return false;
    }
    if outer.width != inner.width {
        return false;
    }
    let block = 8 * tail::block_bytes(inner.width);
    if (inner.bits as usize) < block {
        return false;
    }
    outer.bits as usize == block
}

// A hash of a width, fed a block.
pub fn begin(width: u16, block: &[u8]) -> Hash
    requires { (is_width width ≡ true) × (length block.now ≤ 128) }
    ensures { result ≡ begun width block.now }
{
    let mut hash = Hash::at(width).unwrap();
    hash.absorb(block, 8 * block.len()).unwrap();
    hash
}

// Whether two hashes write to an output of `room` bytes that needs so many. Refusals 5, 6.
pub fn output_refusal(inner: &Hash, outer: &Hash, needed: usize, room: usize) -> Result<(), Refusal>
    ensures { number_of result ≡ cond (keyed inner.now outer.now) (cond (leb needed room) 0 6) 5 }
{
    if !is_keyed(inner, outer) {
        return Err(Refusal::Hash);
    }
    if room < needed {
        return Err(Refusal::Output);
    }
    Ok(())
}

// The same for the tag.
pub fn tag_refusal(inner: &Hash, outer: &Hash, room: usize) -> Result<(), Refusal>
    ensures { number_of result ≡ cond (keyed inner.now outer.now) (cond (leb (digest_bytes inner.now.width) room) 0 6) 5 }
{
    output_refusal(inner, outer, tail::digest_bytes(inner.width), room)
}

// Writes the tag: the outer hash's digest after it was fed the inner one's. Gives the number of compressions.
pub fn finish(inner: Hash, outer: Hash, out: &mut [u8]) -> usize
    requires { (keyed inner outer ≡ true) × (digest_bytes inner.width ≤ length out.old) }
    ensures { (out.new ≡ written 0 (tag_from inner outer) out.old)
        × (result ≡ compressions (family inner) (used inner) + 2) }
{
    let mut digest = [0u8; 64];
    let ended = inner.write_digest(&mut digest).unwrap();
    let length = tail::digest_bytes(inner.width);
    let mut last = outer;
    let fed = last.absorb(&digest[..length], 8 * length).unwrap();
    let taken = last.write_digest(out).unwrap();
    ended + fed + taken
}

// Whether bytes are the tag.
pub fn is_tag(inner: Hash, outer: Hash, given: &[u8]) -> bool
    requires { keyed inner outer ≡ true }
    ensures { result ≡ equal given.now (tag_from inner outer) }
{
    let mut tag = [0u8; 64];
    finish(inner, outer, &mut tag);
    let length = tail::digest_bytes(inner.width);
    constant_time::same_bytes(given, &tag[..length])
}
