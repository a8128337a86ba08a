// The compression of both families and the starting states. A state is its words in the published order.
#![tactic(auto)]

ghost use Rattle.std.specs.Prelude.{◌≡◌, ◌+◌, ◌≤◌, length, take, drop, refl};
ghost use Rattle.simd.specs.Basic.{state_words, block_bytes};
ghost use Rattle.simd.specs.Constants.{start224, start256, start384, start512};
ghost use Rattle.simd.specs.Expansion.{expanded};
ghost use Rattle.simd.specs.Steps.{state as state_of, mixed as mixed_of, compression};
ghost use Rattle.transform_tables.specs.Roots.{Roots};
ghost use Rattle.words.specs.Columns.{columns};
ghost use Rattle.compression.specs.Flat.{flat as flat_of};

use crate::bytes::word;
use step_numbers::Rows;
pub use step_numbers::{Large, Small};

pub mod bytes;

// A family by the R rows and the W words of a state, with its expansion.
pub trait Family<const R: usize, const W: usize>: Rows<R> {
    // The expanded block. The table is that of `transform_tables::roots`.
    fn expand(block: &[u8], roots: &[u16; 512], last: bool) -> [[u32; R]; 32]
        requires { (length block.now ≡ block_bytes Self.family) × Roots roots.now }
        ensures { result ≡ expanded Self.family last block.now };

    ghost has_words: { state_words Self.family ≡ W };
}

impl Family<4, 16> for Small {
    fn expand(block: &[u8], roots: &[u16; 512], last: bool) -> [[u32; 4]; 32] {
        expansion::expand_small(block, roots, last)
    }

    ghost has_words = { refl };
}

impl Family<8, 32> for Large {
    fn expand(block: &[u8], roots: &[u16; 512], last: bool) -> [[u32; 8]; 32] {
        expansion::expand_large(block, roots, last)
    }

    ghost has_words = { refl };
}

// R words from a place on.
fn column<const R: usize>(words: &[u32], at: usize) -> [u32; R]
    requires { at + R ≤ length words.now }
    ensures { result ≡ take R (drop at words.now) }
{
    let mut part = [0u32; R];
    part.copy_from_slice(&words[at..at + R]);
    part
}

// The columns of a state, and its words in the published order.
pub fn split<F: Family<R, W>, const R: usize, const W: usize>(words: [u32; W]) -> [[u32; R]; 4]
    ensures { result ≡ columns (state_of F.family words.entry) }
{
    [
        column(&words, 0),
        column(&words, R),
        column(&words, 2 * R),
        column(&words, 3 * R),
    ]
}

pub fn flat<F: Family<R, W>, const R: usize, const W: usize>(s: [[u32; R]; 4]) -> [u32; W]
    ensures { result ≡ flat_of F.family s.entry }
{
    let mut words = [0u32; W];
    for k in 0..W {
        words[k] = s[k / R][k % R];
    }
    words
}

// Old state xor block.
pub fn mixed<F: Family<R, W>, const R: usize, const W: usize>(
    old: [u32; W],
    block: &[u8],
) -> [u32; W]
    requires { length block.now ≡ block_bytes F.family }
    ensures { result ≡ mixed_of F.family old.entry block.now }
{
    let mut words = old;
    for i in 0..W {
        words[i] = old[i] ^ word(block, i);
    }
    words
}

// The compression of one block. The table is that of `transform_tables::roots`. What the steps leave in `unread` is of no use: it is lent from
// above so that their stores are not dropped.
pub fn compress<F: Family<R, W>, const R: usize, const W: usize>(
    state: &mut [u32; W],
    block: &[u8],
    roots: &[u16; 512],
    last: bool,
    unread: &mut [[u32; R]; 36],
)
    requires { (length block.now ≡ block_bytes F.family) × Roots roots.now }
    ensures { state.new ≡ compression F.family last state.old block.now }
{
    let old = *state;
    let w = F::expand(block, roots, last);
    let h = split::<F, R, W>(old);
    let start = split::<F, R, W>(mixed::<F, R, W>(old, block));
    let new = flat::<F, R, W>(steps::all_steps::<F, R>(start, &w, &h, unread));
    *state = new;
}

const START_224: [u32; 16] = [
    0x33586e9f, 0x12fff033, 0xb2d9f64d, 0x6f8fea53, 0xde943106, 0x2742e439, 0x4fbab5ac, 0x62b9ff96,
    0x22e7b0af, 0xc862b3a8, 0x33e00cdc, 0x236b86a6, 0xf64ae77c, 0xfa373b76, 0x7dc1ee5b, 0x7fb29ce8,
];

#[tactic(auto, unfolding(simd::specs::Constants::start224))]
pub fn start_224() -> [u32; 16]
    ensures { result ≡ start224 }
{
    START_224
}

const START_256: [u32; 16] = [
    0x4d567983, 0x07190ba9, 0x8474577b, 0x39d726e9, 0xaaf3d925, 0x3ee20b03, 0xafd5e751, 0xc96006d3,
    0xc2c2ba14, 0x49b3bcb4, 0xf67caf46, 0x668626c9, 0xe2eaa8d2, 0x1ff47833, 0xd0c661a5, 0x55693de1,
];

#[tactic(auto, unfolding(simd::specs::Constants::start256))]
pub fn start_256() -> [u32; 16]
    ensures { result ≡ start256 }
{
    START_256
}

const START_384: [u32; 32] = [
    0x8a36eebc, 0x94a3bd90, 0xd1537b83, 0xb25b070b, 0xf463f1b5, 0xb6f81e20, 0x0055c339, 0xb4d144d1,
    0x7360ca61, 0x18361a03, 0x17dcb4b9, 0x3414c45a, 0xa699a9d2, 0xe39e9664, 0x468bfe77, 0x51d062f8,
    0xb9e3bfe8, 0x63bece2a, 0x8fe506b9, 0xf8cc4ac2, 0x7ae11542, 0xb1aadda1, 0x64b06794, 0x28d2f462,
    0xe64071ec, 0x1deb91a8, 0x8ac8db23, 0x3f782ab5, 0x039b5cb8, 0x71ddd962, 0xfade2cea, 0x1416df71,
];

#[tactic(auto, unfolding(simd::specs::Constants::start384))]
pub fn start_384() -> [u32; 32]
    ensures { result ≡ start384 }
{
    START_384
}

const START_512: [u32; 32] = [
    0x0ba16b95, 0x72f999ad, 0x9fecc2ae, 0xba3264fc, 0x5e894929, 0x8e9f30e5, 0x2f1daa37, 0xf0f2c558,
    0xac506643, 0xa90635a5, 0xe25b878b, 0xaab7878f, 0x88817f7a, 0x0a02892b, 0x559a7550, 0x598f657e,
    0x7eef60a1, 0x6b70e3e8, 0x9c1714d1, 0xb958e2a8, 0xab02675e, 0xed1c014f, 0xcd8d65bb, 0xfdb7a257,
    0x09254899, 0xd699c7bc, 0x9019b6dc, 0x2b9022e4, 0x8fa14956, 0x21bf9bd3, 0xb94d0943, 0x6ffddc22,
];

#[tactic(auto, unfolding(simd::specs::Constants::start512))]
pub fn start_512() -> [u32; 32]
    ensures { result ≡ start512 }
{
    START_512
}
