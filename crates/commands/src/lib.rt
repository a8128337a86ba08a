// What each command of a tape does to the open hash.
#![tactic(auto)]

ghost use Rattle.reader.specs.Reading.{Inside};
ghost use Rattle.reader.specs.declared.Command.TheVariants.{Full, Part};
ghost use Rattle.commands.specs.Standing.{Obeys, Opens, Takes};

use hash::Hash;
use reader::Command;
use refusals::number_of;

// The hash after a command, and the number of its refusal or 0, with which the run is closed (docs/DECISIONS.md, "The nine named forms").
#[derive(Clone, Copy)]
pub struct Step {
    pub hash: Hash,
    pub refusal: u8,
}

// OPEN.
fn opening(hash: Hash, width: u16) -> Step
    ensures { Opens width hash result }
{
    if hash.width != 0 {
        return Step {
            hash: hash,
            refusal: 12,
        };
    }
    let opened = Hash::open(width);
    let fresh = opened.hash;
    Step {
        hash: fresh,
        refusal: number_of(opened.result),
    }
}

// FULL.
fn full(hash: Hash, tape: &[u8], place: usize) -> Step
    requires { Inside tape.now (Full place) }
    ensures { Obeys tape.now (Full place) hash result }
{
    if hash.width == 0 {
        return Step {
            hash: hash,
            refusal: 12,
        };
    }
    let fed = hash.feed(&tape[place..place + 32], 256);
    let fresh = fed.hash;
    Step {
        hash: fresh,
        refusal: number_of(fed.result),
    }
}

// PART.
fn part(hash: Hash, tape: &[u8], count: u8, place: usize) -> Step
    requires { Inside tape.now (Part count place) }
    ensures { Obeys tape.now (Part count place) hash result }
{
    if hash.width == 0 {
        return Step {
            hash: hash,
            refusal: 12,
        };
    }
    let fed = hash.feed(&tape[place..place + 32], count as usize);
    let fresh = fed.hash;
    Step {
        hash: fresh,
        refusal: number_of(fed.result),
    }
}

// TAKE needs an open hash.
fn taking(hash: Hash) -> Step
    ensures { Takes hash result }
{
    if hash.width == 0 {
        return Step {
            hash: hash,
            refusal: 12,
        };
    }
    Step {
        hash: hash,
        refusal: 0,
    }
}

// The checks of a command but for those of its digest, and what it does to the hash.
pub fn obey(hash: Hash, tape: &[u8], command: Command) -> Step
    requires { Inside tape.now command }
    ensures { Obeys tape.now command hash result }
{
    match command {
        Command::Open(width) => opening(hash, width),
        Command::Full(place) => full(hash, tape, place),
        Command::Part(count, place) => part(hash, tape, count, place),
        Command::Take => taking(hash),
        Command::Stop => Step {
            hash: hash,
            refusal: 0,
        },
    }
}
