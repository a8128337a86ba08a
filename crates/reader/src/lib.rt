// The tape reader: which command stands at a place of a tape, or why none does.
#![tactic(auto)]

ghost use Rattle.std.specs.Prelude.{◌≡◌};
ghost use Rattle.reader.specs.Reading.{read_at};

// A command with its values: OPEN has the width, FULL the place of its 32 bytes, PART its count of bits and the place of its 32 bytes.
#[derive(Clone, Copy, Debug, PartialEq, Eq)]
pub enum Command {
    Open(u16),
    Full(usize),
    Part(u8, usize),
    Take,
    Stop,
}

// A command and the place after it, or a refusal's number and place.
#[derive(Clone, Copy, Debug, PartialEq, Eq)]
pub enum Reading {
    Found(Command, usize),
    Refused(u8, usize),
}

#[tactic(auto, using(crate::proofs::Laws::places), unfolding(crate::specs::Reading::read_at))]
pub fn read(tape: &[u8], at: usize) -> Reading
    ensures { result ≡ read_at tape.now at }
{
    if tape.len() <= at {
        return Reading::Refused(11, tape.len());
    }
    match &tape[at..] {
        [1, low, high, ..] => Reading::Found(
            Command::Open(u16::from_le_bytes([*low, *high])),
            at + 3,
        ),
        [2, rest @ ..] if 32 <= rest.len() => Reading::Found(Command::Full(at + 1), at + 33),
        [3, count, rest @ ..] if 32 <= rest.len() => Reading::Found(
            Command::Part(*count, at + 2),
            at + 34,
        ),
        [4, ..] => Reading::Found(Command::Take, at + 1),
        [5, ..] => Reading::Found(Command::Stop, at + 1),
        [1..=3, ..] => Reading::Refused(11, at),
        _ => Reading::Refused(10, at),
    }
}
