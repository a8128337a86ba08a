// Messages and the answer of their comparison, and tests on pairs of state and block.
#![tactic(auto)]

ghost use Rattle.std.specs.Prelude.{◌≡◌, ◌*◌, ◌≤◌, length};
ghost use Rattle.pairs.specs.Pairs.{unlike as unlikePairs};

// The answer of a comparison: `Meet` has the number of the block, `Refused` that of the rule.
#[derive(Clone, Copy, Debug, PartialEq, Eq)]
pub enum Verdict {
    Same,
    Apart,
    Meet(u64),
    Refused(u8),
}

// A message is the first `bits` bits of its bytes: what stands past them is ignored.
#[derive(Clone, Copy)]
pub struct Message<'a> {
    pub bytes: &'a [u8],
    pub bits: usize,
    pub ghost within: { bits ≤ 8 * length bytes.now },
}

// Whether two pairs of state and block differ.
pub fn unlike(s: &[u32], x: &[u8], t: &[u32], y: &[u8]) -> bool
    ensures { result ≡ unlikePairs s.now x.now t.now y.now }
{
    s != t || x != y
}
