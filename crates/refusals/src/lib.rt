// Why a call is refused. C and a listing get the refusal's number, and 0 where there is none.
#![tactic(auto)]

ghost use Rattle.std.specs.Prelude.{◌≡◌};
ghost use Rattle.refusals.specs.Numbers.{number, number_of};

/// Why a call is refused.
#[derive(Clone, Copy, Debug, PartialEq, Eq)]
pub enum Refusal {
    /// The width is none of the four.
    Width,
    /// More bits are asked for than the bytes have.
    Count,
    /// More bits in all than a count of 64 bits holds.
    Total,
    /// An open hash that is none, or two that no keyed hash holds.
    Hash,
    /// The output is too short.
    Output,
    /// A block, a state or a digest of another size than the width's.
    Block,
    /// A stored form of another size than the two of its width.
    Form,
    /// A stored form with a bit set past its tail.
    Tail,
    /// The tape has a byte that is no command.
    Command,
    /// The tape ends in a command, or before STOP.
    End,
    /// OPEN while a hash is open, or FULL, PART or TAKE while none is.
    Order,
    /// The tape is too long to be sealed.
    Tape,
    /// The number of an entry has more than six digits.
    Entry,
    /// An index that does not fit the message, or a block past the length block.
    Index,
}

impl Refusal {
    /// The number that C, README and a listing have for it.
    pub fn number(self) -> u8
        ensures { result ≡ number self }
    {
        match self {
            Refusal::Width => 1,
            Refusal::Count => 2,
            Refusal::Total => 4,
            Refusal::Hash => 5,
            Refusal::Output => 6,
            Refusal::Block => 7,
            Refusal::Form => 8,
            Refusal::Tail => 9,
            Refusal::Command => 10,
            Refusal::End => 11,
            Refusal::Order => 12,
            Refusal::Tape => 13,
            Refusal::Entry => 14,
            Refusal::Index => 15,
        }
    }
}

/// The number of an answer: 0 where nothing is refused.
pub fn number_of<T: Copy>(answer: Result<T, Refusal>) -> u8
    ensures { result ≡ number_of answer }
{
    match answer {
        Ok(_) => 0,
        Err(refusal) => refusal.number(),
    }
}
