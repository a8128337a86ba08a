// Numbers of a message's blocks and of the states that an index keeps of it.
#![tactic(auto)]

ghost use Rattle.std.specs.Prelude.{◌≡◌, ◌*◌, ◌-◌, ◌/◌, ◌≤◌};
ghost use Rattle.simd.specs.Basic.{family_of, block_bits};
ghost use Rattle.simd.specs.Message.{message_blocks};
ghost use Rattle.simd.specs.Hash.{compressions};
ghost use Rattle.checkpoints.specs.Index.{kept as keptOf};

// The blocks from one kept state to the next.
pub const SPACING: usize = 16;

// The message blocks of so many bits: the full ones, and one more where bits are left.
pub fn message_blocks(width: u16, count: usize) -> usize
    ensures { result ≡ message_blocks (family_of width) count }
{
    let full = tail::full_blocks(width, count);
    if tail::used_bits(width, count as u64) == 0 {
        full
    } else {
        full + 1
    }
}

// The number of states kept of so many bits.
pub fn kept(width: u16, count: usize) -> usize
    ensures { result ≡ keptOf (family_of width) count }
{
    (tail::full_blocks(width, count) + (SPACING - 1)) / SPACING
}

// The compressions of a run from kept state i on: all but those of the blocks before.
pub fn compressed(width: u16, count: usize, i: usize) -> u64
    requires { 16 * i ≤ count / block_bits (family_of width) }
    ensures { result ≡ compressions (family_of width) count - 16 * i }
{
    (message_blocks(width, count) - SPACING * i) as u64 + 1
}
