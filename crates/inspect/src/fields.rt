// The values of a record's fields, as they are written.
use crate::decimal::{Float32, Float64};
use gcra::Quota;
use std::fmt;

// A float of 64 bits by its word.
pub(crate) fn float64(word: u64) -> Float64 {
    Float64(float::from_bits(word))
}

// A float of 32 bits in the low half of a word.
pub(crate) fn float32(word: u64) -> Float32 {
    Float32(float::f32_from_bits((word & 0xffff_ffff) as u32))
}

// A value, `none` where it is missing.
#[derive(Clone, Copy)]
pub(crate) struct Optional<T>(Option<T>);

impl<T: Drop> Optional<T> {
    // The value that stands behind a flag, missing where that is 0.
    pub(crate) fn of(flag: u64, value: T) -> Optional<T> {
        Optional((flag != 0).then_some(value))
    }
}

impl<T: fmt::Display> fmt::Display for Optional<T> {
    fn fmt<W: fmt::Write>(&self, f: &mut fmt::Formatter<W>) -> fmt::Result {
        match &self.0 {
            Some(value) => value.fmt(f),
            None => f.write_str("none"),
        }
    }
}

// The four words of an estimator.
#[derive(Clone, Copy)]
pub(crate) struct Estimator(pub(crate) [u64; 4]);

impl fmt::Display for Estimator {
    fn fmt<W: fmt::Write>(&self, f: &mut fmt::Formatter<W>) -> fmt::Result {
        let [rate, attempts, last, since] = self.0;
        let rate = float64(rate);
        write!(
            f,
            "(rate={rate} attempts={attempts} last={last} since={since})"
        )
    }
}

// A packed quota: the word, and its interval and burst.
#[derive(Clone, Copy)]
pub(crate) struct Packed(pub(crate) u64);

impl fmt::Display for Packed {
    fn fmt<W: fmt::Write>(&self, f: &mut fmt::Formatter<W>) -> fmt::Result {
        let packed = self.0;
        match Quota::unpack(packed) {
            Ok(Quota { interval, burst }) => {
                write!(f, "(packed={packed} interval={interval} burst={burst})")
            }
            Err(_) => write!(f, "(packed={packed})"),
        }
    }
}
