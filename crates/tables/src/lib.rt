// The constant tables that several floors read: order P, rotations and row exchanges (sections 1.2.2 and 1.2.3). A constant
// array is built anew wherever it is named: a loop takes its table once, outside; where every index is a literal the table folds away.
#![tactic(auto, unfolding(simd::specs::Constants::order, simd::specs::Constants::rotations, simd::specs::Constants::small_exchanges, simd::specs::Constants::large_exchanges))]

ghost use Rattle.std.specs.Prelude.{◌≡◌};
ghost use Rattle.simd.specs.Constants.{order as orderP, rotations as quadruples, small_exchanges, large_exchanges};

const ORDER: [usize; 32] = [
    4, 6, 0, 2, 7, 5, 3, 1, 15, 11, 12, 8, 9, 13, 10, 14, 17, 18, 23, 20, 22, 21, 16, 19, 30, 24,
    25, 31, 27, 29, 28, 26,
];

const ROTATIONS: [[u32; 4]; 4] = [
    [3, 23, 17, 27],
    [28, 19, 22, 7],
    [29, 9, 15, 5],
    [4, 13, 10, 25],
];

const SMALL_EXCHANGES: [usize; 3] = [1, 2, 3];

const LARGE_EXCHANGES: [usize; 7] = [1, 6, 2, 3, 5, 7, 4];

// P: expanded row i is row P(i) of Z.
pub fn order() -> [usize; 32]
    ensures { result ≡ orderP }
{
    ORDER
}

// The quadruple of rotations of each round.
pub fn rotations() -> [[u32; 4]; 4]
    ensures { result ≡ quadruples }
{
    ROTATIONS
}

// The numbers by which rows are exchanged: in step i, entry i mod 3 for 4 rows and entry i mod 7 for 8 rows. Two published tables of different
// length, so two functions: each stands in the type of its array.
pub fn small_exchanges() -> [usize; 3]
    ensures { result ≡ small_exchanges }
{
    SMALL_EXCHANGES
}

pub fn large_exchanges() -> [usize; 7]
    ensures { result ≡ large_exchanges }
{
    LARGE_EXCHANGES
}
