// The powers of 41 modulo 257, and the roots that the transform reads.
// A constant array is built anew wherever it is named: a caller takes the table of roots once and lends it for many blocks.
#![tactic(auto)]

ghost use Rattle.std.specs.Prelude.{◌≡◌, ℕ, ◌+◌, ◌*◌, ◌≤◌, ◌<◌, length};
ghost use Rattle.simd.specs.Basic.{table};
ghost use Rattle.simd.specs.Expansion.{power};
ghost use Rattle.transform_tables.specs.Roots.{exponent, Begun, Roots};

// The powers of 41 modulo 257.
const POWERS: [u16; 256] = [
    1, // 41^0
    41, 139, 45, 46, 87, 226, 14, 60, 147, 116, 130, 190, 80, 196, 69, 2, // 41^16
    82, 21, 90, 92, 174, 195, 28, 120, 37, 232, 3, 123, 160, 135, 138, 4, // 41^32
    164, 42, 180, 184, 91, 133, 56, 240, 74, 207, 6, 246, 63, 13, 19, 8, // 41^48
    71, 84, 103, 111, 182, 9, 112, 223, 148, 157, 12, 235, 126, 26, 38, 16, // 41^64
    142, 168, 206, 222, 107, 18, 224, 189, 39, 57, 24, 213, 252, 52, 76, 32, // 41^80
    27, 79, 155, 187, 214, 36, 191, 121, 78, 114, 48, 169, 247, 104, 152, 64, // 41^96
    54, 158, 53, 117, 171, 72, 125, 242, 156, 228, 96, 81, 237, 208, 47, 128, // 41^112
    108, 59, 106, 234, 85, 144, 250, 227, 55, 199, 192, 162, 217, 159, 94, 256, // 41^128
    216, 118, 212, 211, 170, 31, 243, 197, 110, 141, 127, 67, 177, 61, 188, 255, // 41^144
    175, 236, 167, 165, 83, 62, 229, 137, 220, 25, 254, 134, 97, 122, 119, 253, // 41^160
    93, 215, 77, 73, 166, 124, 201, 17, 183, 50, 251, 11, 194, 244, 238, 249, // 41^176
    186, 173, 154, 146, 75, 248, 145, 34, 109, 100, 245, 22, 131, 231, 219, 241, // 41^192
    115, 89, 51, 35, 150, 239, 33, 68, 218, 200, 233, 44, 5, 205, 181, 225, // 41^208
    230, 178, 102, 70, 43, 221, 66, 136, 179, 143, 209, 88, 10, 153, 105, 193, // 41^224
    203, 99, 204, 140, 86, 185, 132, 15, 101, 29, 161, 176, 20, 49, 210, 129, // 41^240
    149, 198, 151, 23, 172, 113, 7, 30, 202, 58, 65, 95, 40, 98, 163,
];

pub fn powers() -> [u16; 256]
    ensures { result ≡ table 256 (power 41) }
{
    POWERS
}

// Entries of a row of roots, n from entry `at` on, and their products by 255: every step-th power from the first on.
fn row(powers: &[u16; 256], t: &mut [u16], at: usize, first: usize, step: usize, n: usize)
    requires powers_value { (powers.now ≡ table 256 (power 41)) × (0 < at) × (at + n ≤ 256) }
    requires by_index { ((k : ℕ) → k < n → (first + step * k < 256) × (exponent 7 (at + k) ≡ first + step * k)) × Begun t.old (at + n) }
    ensures { Begun t.new at }
{
    for k in 0..n {
        let v = powers[first + step * k];
        t[at + k] = v;
        t[256 + at + k] = 255 * v;
    }
}

// Makes the table of roots in a lent array: an array that is handed back is copied once more. Each call has at most 32 turns, which the
// compiler unrolls: then all entries are constants, and the whole table is stored in one piece. Entries 0 and 256 come last: before the others,
// they would be stored apart from them, and these across the bounds of vectors. Nothing reads entry 256: it is stored so that the array need
// not be zeroed.
pub fn fill_roots(t: &mut [u16])
    requires { length t.old ≡ 512 }
    ensures { Roots t.new }
{
    let p = powers();
    row(&p, t, 224, 96, 1, 32);
    row(&p, t, 192, 64, 1, 32);
    row(&p, t, 160, 32, 1, 32);
    row(&p, t, 128, 0, 1, 32);
    row(&p, t, 96, 64, 2, 32);
    row(&p, t, 64, 0, 2, 32);
    row(&p, t, 32, 0, 4, 32);
    row(&p, t, 16, 0, 8, 16);
    row(&p, t, 8, 0, 16, 8);
    row(&p, t, 4, 0, 32, 4);
    row(&p, t, 2, 0, 64, 2);
    row(&p, t, 1, 0, 128, 1);
    t[0] = 257;
    t[256] = 65535;
}

// The table of roots.
pub fn roots() -> [u16; 512]
    ensures { Roots result }
{
    let mut t = [0u16; 512];
    fill_roots(&mut t);
    t
}
