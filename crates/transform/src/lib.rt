// The transform of both families: the number-theoretic transform modulo 257 that splits even and odd places (section 1.2.2).
#![tactic(auto)]

ghost use Rattle.std.specs.Prelude.{◌≡◌, length};
ghost use Rattle.simd.specs.Basic.{small as smallFamily, large as largeFamily, table};
ghost use Rattle.simd.specs.Expansion.{transform};
ghost use Rattle.transform_tables.specs.Roots.{Roots};

use radix_8::{append, begin};
use transform_stages::{finish, rows, shuffle};

// The transform of a block of the small family, written to out. The table is that of `transform_tables::roots`.
// The first pass runs over neighbouring places of the block. Then the eight values of a place are brought side by side, and the other stages run
// over these. They work on local arrays, which cannot overlap a table: so the loops become vector code with no test. The first pass has an array
// of its own: of one with as many uses as the others have, the compiler does not see that it cannot overlap the block.
pub fn small(block: &[u8], roots: &[u16; 512], out: &mut [u16], last: bool)
    requires block_len { (length block.now ≡ 64) × (length out.old ≡ 128) }
    requires roots { Roots roots.now }
    ensures { out.new ≡ table 128 (transform smallFamily last block.now) }
{
    let mut ends = [0u16; 16];
    let mut first = [0u16; 128];
    let mut x = [0u16; 128];
    let mut y = [0u16; 128];
    append(&mut ends, 16, last);
    begin(block, &ends, &mut first, 16);
    shuffle(&first, &mut y, 64);
    shuffle(&y, &mut x, 64);
    shuffle(&x, &mut y, 64);
    rows(&y, &mut x, roots, 8, 8, 64);
    rows(&x, &mut y, roots, 16, 16, 64);
    rows(&y, &mut x, roots, 32, 32, 64);
    rows(&x, &mut y, roots, 64, 64, 64);
    finish(&y, out, 128);
}

// The same for a block of the large family. Two functions, since the lengths of the arrays stand in their types: one would take them as two const
// parameters, with clauses that bind them to the family, and branch for the stage that only this one has.
pub fn large(block: &[u8], roots: &[u16; 512], out: &mut [u16], last: bool)
    requires block_len { (length block.now ≡ 128) × (length out.old ≡ 256) }
    requires roots { Roots roots.now }
    ensures { out.new ≡ table 256 (transform largeFamily last block.now) }
{
    let mut ends = [0u16; 32];
    let mut first = [0u16; 256];
    let mut x = [0u16; 256];
    let mut y = [0u16; 256];
    append(&mut ends, 32, last);
    begin(block, &ends, &mut first, 32);
    shuffle(&first, &mut y, 128);
    shuffle(&y, &mut x, 128);
    shuffle(&x, &mut y, 128);
    rows(&y, &mut x, roots, 8, 8, 128);
    rows(&x, &mut y, roots, 16, 16, 128);
    rows(&y, &mut x, roots, 32, 32, 128);
    rows(&x, &mut y, roots, 64, 64, 128);
    rows(&y, &mut x, roots, 128, 64, 128);
    finish(&x, out, 256);
}
