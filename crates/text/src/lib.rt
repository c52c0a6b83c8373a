// Text for the programs: numbers in ASCII, read and written, and the lines of standard input.
#![tactic(auto)]

pub mod lines;

ghost use Rattle.std.specs.Prelude.{◌≡◌, ◌≤◌, ◌<◌, ◌+◌, ◌↔◌, min, max, length, SomeIff, IsOk, IsErr};
ghost use Rattle.text.specs.Input.{index_of};
ghost use Rattle.text.specs.Numbers.{digit, numeral, decimal_number, hex_number};
ghost use Rattle.text.specs.Output.{written, end, failed, Spelled, Flushed};

use std::fmt;
use std::fmt::InlineText;

// The index of the first byte b of s, or the length of s where there is none.
pub fn index_of(s: &[u8], b: u8) -> usize
    ensures { (result ≡ index_of b s.now) × (result ≤ length s.now) }
{
    s.iter().position(|x| *x == b).unwrap_or(s.len())
}

// The value of a digit, a to f small.
#[tactic(auto, using(std::proofs::lemmas::Bool::Decides::nat_tests), unfolding(crate::specs::Numbers::digit))]
fn digit(b: u8) -> Option<u64>
    ensures { SomeIff result (digit b < 16) (digit b) }
{
    match b {
        b'0'..=b'9' => Some((b - b'0') as u64),
        b'a'..=b'f' => Some((b - b'a') as u64 + 10),
        _ => None,
    }
}

// The number that the digits of s make in a base up to 16, if each is one and it fits 64 bits. The
// library's `from_str_radix` would take a sign and capital letters too.
#[tactic(auto, using(std::proofs::lemmas::Bool::Decides::nat_tests, crate::proofs::Numerals::at_digit, crate::proofs::Numerals::at_end))]
fn numeral(s: &[u8], base: u64) -> Option<u64>
    requires { (0 < base) × (base ≤ 16) }
    ensures { result ≡ numeral base 0 s.now }
{
    let mut n: u64 = 0;
    for b in s {
        let d = digit(*b)?;
        if base <= d {
            return None;
        }
        n = n.checked_mul(base)?.checked_add(d)?;
    }
    Some(n)
}

// The whole number that s spells in decimal digits, at least one.
pub fn decimal(s: &[u8]) -> Option<u64>
    ensures { result ≡ decimal_number s.now }
{
    if s.is_empty() { None } else { numeral(s, 10) }
}

// The number that s spells in exactly so many hexadecimal digits, letters small.
pub fn hex(s: &[u8], digits: usize) -> Option<u64>
    ensures { result ≡ hex_number digits s.now }
{
    if s.len() == digits {
        numeral(s, 16)
    } else {
        None
    }
}

// Writes s at index at and answers where it ends; where there is no room it writes nothing and
// answers at. The promise names the buffer and the place, so they stay two; `Output` holds both.
#[tactic(auto, using(std::proofs::lemmas::Bool::Decides::nat_tests, std::proofs::lemmas::Slice::overwrites), unfolding(crate::specs::Output::written, crate::specs::Output::end))]
pub fn put(out: &mut [u8], at: usize, s: &[u8]) -> usize
    ensures value { result ≡ end at s.now out.old }
    ensures out_after { out.new ≡ written at s.now out.old }
{
    if out.len() < at || out.len() - at < s.len() {
        return at;
    }
    let end = at + s.len();
    out[at..end].copy_from_slice(s);
    end
}

// Writes n in decimal, as `put` writes.
pub fn put_decimal(out: &mut [u8], at: usize, n: u64) -> usize
    ensures { Spelled 10 1 n at result out.old out.new }
{
    let mut text = [0u8; 20];
    let k = io::decimal(n, &mut text);
    put(out, at, &text[..k])
}

// Writes n in so many hexadecimal digits, 1 to 16, or more where it needs them, as `put` writes.
pub fn put_hex(out: &mut [u8], at: usize, n: u64, width: usize) -> usize
    ensures { Spelled 16 (min (max width 1) 16) n at result out.old out.new }
{
    let mut text = [0u8; 16];
    let k = io::hex(n, width, &mut text);
    put(out, at, &text[..k])
}

// The index that text is put at once standard output has failed: `put` writes nothing there. It is
// a place, and no error, since the promise of `flush` names it.
pub const FAILED: usize = usize::MAX;

// Tells a failed write on standard error, in the system's words, without its number.
fn tell(rt: &impl Eprint, error: std::io::Error) {
    let text = InlineText::<128>::of(error);
    let all = text.as_str();
    let cause = match all.split_once(" (os error ") {
        Some((words, _)) => words,
        None => all,
    };
    let _ = eprintln!(rt; "standard output: {cause}");
}

// Writes the first `at` bytes of the buffer to standard output where fewer than `room` are left
// behind them, and answers where to go on. A write that fails is told on standard error and
// answered with FAILED, which stays, so it is told once.
#[tactic(auto, using(std::proofs::lemmas::Bool::Decides::nat_tests), unfolding(crate::specs::Output::failed))]
pub fn flush(rt: &(impl Print + Eprint), out: &[u8], at: usize, room: usize) -> usize
    ensures { Flushed at room out.now result }
{
    if out.len() < at || room <= out.len() - at {
        return at;
    }
    match rt.write_all(&out[..at]) {
        Ok(()) => 0,
        Err(error) => {
            tell(rt, error);
            FAILED
        }
    }
}

// Text on its way to standard output: what is written waits here until a flush.
#[derive(Drop)]
pub struct Output {
    pub bytes: [u8; 65536],
    pub at: usize,
}

impl Output {
    // Nothing waits yet.
    pub fn new() -> Output
        ensures { (result.at ≡ 0) × (length result.bytes ≡ 65536) }
    {
        Output {
            bytes: io::large_buffer(),
            at: 0,
        }
    }

    // Writes what waits to standard output, where fewer than `room` bytes are left behind it. A
    // write that fails is told, and is an error from then on.
    #[tactic(auto, unfolding(crate::specs::Output::failed))]
    pub fn flush(&mut self, rt: &(impl Print + Eprint), room: usize) -> fmt::Result
        ensures bytes { self.new.bytes ≡ self.old.bytes }
        ensures place { Flushed self.old.at room self.old.bytes self.new.at }
        ensures answer { IsErr result ↔ (self.new.at ≡ failed) }
    {
        self.at = flush(rt, &self.bytes, self.at, room);
        if self.at == FAILED {
            return Err(fmt::Error);
        }
        Ok(())
    }

    // Writes all that waits to standard output.
    pub fn flush_all(&mut self, rt: &(impl Print + Eprint)) -> fmt::Result
        ensures bytes { self.new.bytes ≡ self.old.bytes }
        ensures place { Flushed self.old.at (length self.old.bytes) self.old.bytes self.new.at }
        ensures answer { IsErr result ↔ (self.new.at ≡ failed) }
    {
        self.flush(rt, 65536)
    }
}

impl fmt::Write for Output {
    ghost write_str_gives = { λ o s w. (w.bytes ≡ written o.at s o.bytes) × (w.at ≡ end o.at s o.bytes) };

    // Where there is no room nothing is written, and that is an error.
    fn write_str(&mut self, s: &str) -> fmt::Result
        ensures ok { IsOk result → (self.new.bytes ≡ written self.old.at s.now self.old.bytes)
            × (self.new.at ≡ end self.old.at s.now self.old.bytes) }
        ensures err { IsErr result → (self.new ≡ self.old)
            × (length self.old.bytes < self.old.at + length s.now) }
    {
        if self.bytes.len() < self.at || self.bytes.len() - self.at < s.len() {
            return Err(fmt::Error);
        }
        self.at = put(&mut self.bytes, self.at, s.as_bytes());
        Ok(())
    }
}
