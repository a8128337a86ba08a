// Equality of bytes with no early end: all are read, wherever the first differs. The loop also becomes vector code.
#![tactic(auto)]

ghost use Rattle.std.specs.Prelude.{◌≡◌, length};
ghost use Rattle.pairs.specs.Lists.{equal};

// Whether two byte strings of one length are equal.
pub fn same_block(x: &[u8], y: &[u8]) -> bool
    requires { length x.now ≡ length y.now }
    ensures { result ≡ equal x.now y.now }
{
    let mut seen = 0;
    for (a, b) in x.iter().zip(y) {
        seen |= a ^ b;
    }
    seen == 0
}

// The same of any two. Other lengths are told at once: they are no secret.
pub fn same_bytes(x: &[u8], y: &[u8]) -> bool
    ensures { result ≡ equal x.now y.now }
{
    x.len() == y.len() && same_block(x, y)
}
