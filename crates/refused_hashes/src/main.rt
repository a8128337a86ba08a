// Open hashes that are none, and those next to them that are: what feeding, taking and storing each of them answers.
#![tactic(auto)]

use hash::Hash;
use hmac::Hmac;
use refusals::Refusal;
use std::io;

fn number<T: Copy>(answer: Result<T, Refusal>) -> u8 {
    match answer {
        Ok(_) => 0,
        Err(refusal) => refusal.number(),
    }
}

fn answers(rt: &impl Print, name: &str, hash: Hash) -> io::Result<()> {
    let piece = [0u8; 1];
    let mut digest = [0u8; 64];
    let mut form = [0u8; 266];
    let fed = number(hash.feed(&piece, 0).result);
    let taken = number(hash.take(&mut digest).result);
    let stored = number(hash.store(&mut form).result);
    println!(rt; "{name} {fed} {taken} {stored}")
}

fn keyed(rt: &impl Print, name: &str, inner: Hash, outer: Hash) -> io::Result<()> {
    let piece = [0u8; 1];
    let mut tag = [0u8; 64];
    let mut form = [0u8; 532];
    let hmac = Hmac { inner, outer };
    let fed = number(hmac.feed(&piece, 0).result);
    let taken = number(hmac.take(&mut tag).result);
    let checked = number(hmac.check(&tag).result);
    let stored = number(hmac.store(&mut form).result);
    println!(rt; "{name} {fed} {taken} {checked} {stored}")
}

fn of(width: u16, bits: u64) -> Hash {
    Hash {
        width,
        bits,
        state: [0; 32],
        tail: [0; 128],
    }
}

fn with_word(mut hash: Hash, at: usize) -> Hash {
    let i = at % 32;
    hash.state[i] = 1;
    hash
}

fn with_byte(mut hash: Hash, at: usize, byte: u8) -> Hash {
    let i = at % 128;
    hash.tail[i] = byte;
    hash
}

fn main(rt: HostRuntime) -> io::Result<()> {
    answers(&rt, "width 224", of(224, 0))?;
    answers(&rt, "width 225", of(225, 0))?;
    answers(&rt, "256, word 15", with_word(of(256, 0), 15))?;
    answers(&rt, "256, word 16", with_word(of(256, 0), 16))?;
    answers(&rt, "512, word 31", with_word(of(512, 0), 31))?;
    answers(&rt, "256, bit 0 of 1", with_byte(of(256, 1), 0, 128))?;
    answers(&rt, "256, bit 1 of 1", with_byte(of(256, 1), 0, 64))?;
    answers(
        &rt,
        "256, byte 63 of 64, 511 bits",
        with_byte(of(256, 511), 63, 2),
    )?;
    answers(
        &rt,
        "256, byte 63 of 64, 504 bits",
        with_byte(of(256, 504), 63, 2),
    )?;
    answers(&rt, "256, byte 64", with_byte(of(256, 511), 64, 128))?;
    answers(
        &rt,
        "512, byte 127, 1023 bits",
        with_byte(of(512, 1023), 127, 2),
    )?;
    answers(
        &rt,
        "512, byte 127, 1024 bits",
        with_byte(of(512, 1024), 127, 2),
    )?;
    keyed(&rt, "keyed 256", of(256, 512), of(256, 512))?;
    keyed(&rt, "keyed 512", of(512, 4096), of(512, 1024))?;
    keyed(&rt, "keyed 256, inner 511", of(256, 511), of(256, 512))?;
    keyed(&rt, "keyed 512, inner 1023", of(512, 1023), of(512, 1024))?;
    keyed(&rt, "keyed 256, outer 511", of(256, 512), of(256, 511))?;
    keyed(&rt, "keyed 256, outer 513", of(256, 512), of(256, 513))?;
    keyed(&rt, "keyed 256, outer 224", of(256, 512), of(224, 512))?;
    keyed(
        &rt,
        "keyed 256, inner word 16",
        with_word(of(256, 512), 16),
        of(256, 512),
    )?;
    keyed(
        &rt,
        "keyed 256, outer word 16",
        of(256, 512),
        with_word(of(256, 512), 16),
    )?;
    Ok(())
}
