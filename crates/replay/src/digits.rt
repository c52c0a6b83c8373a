// An image's bytes as hexadecimal digits, two each, read and written, and their hash.
use crate::answers;
use std::fmt;
use text::Output;

// The 64-bit FNV-1a hash.
pub(crate) fn hash(bytes: &[u8]) -> u64 {
    let mut h: u64 = 0xcbf2_9ce4_8422_2325;
    for b in bytes {
        h = (h ^ *b as u64).wrapping_mul(0x100_0000_01b3);
    }
    h
}

// The bytes that a line spells from there to its end are put at its front. How many they are, if
// digits spell them.
pub(crate) fn decode(line: &mut [u8], from: usize) -> Option<usize> {
    let digits = line.len().checked_sub(from)?;
    if digits % 2 != 0 {
        return None;
    }
    let len = digits / 2;
    for i in 0..len {
        let at = from + 2 * i;
        let byte = text::hex(&line[at..at + 2], 2)?;
        line[i] = u8::try_from(byte).ok()?;
    }
    Some(len)
}

// Writes the digits of the bytes, whatever room there is: what is ready is written out. A byte by
// `write!` takes twice as long.
pub(crate) fn put_bytes(rt: &(impl Print + Eprint), out: &mut Output, bytes: &[u8]) -> fmt::Result {
    for b in bytes {
        out.at = text::put_hex(&mut out.bytes, out.at, u64::from(*b), 2);
        answers::spare(rt, out)?;
    }
    Ok(())
}
