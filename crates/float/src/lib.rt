// The float helpers of the limiter, each defined from IEEE 754 and total: the conversions between
// u64 and f64, ceil and round, min and max, totalOrder, and bit patterns with the NaNs among them.
#![tactic(auto)]

pub mod wide;

ghost use Rattle.std.specs.Prelude.{◌≡◌, pos};
ghost use Rattle.std.specs.Float.Ieee as Ieee;
ghost use Rattle.std.specs.Float.{binary32, binary64};
ghost use Rattle.std.specs.Float.Ieee.Scale.{finite};
ghost use Rattle.float.specs.Integral as Integral;
ghost use Rattle.float.specs.Order as Order;
ghost use Rattle.float.specs.Magnitude as Magnitude;

use std::cmp::Ordering;
use std::num;

// The sign bit of an f64.
const SIGN_BIT: u64 = 0x8000_0000_0000_0000;

// The patterns of the infinities with a clear sign bit. The patterns below are those of the
// magnitudes.
const INFINITY_BITS: u64 = 0x7ff0_0000_0000_0000;

const INFINITY_BITS_F32: u32 = 0x7f80_0000;

// n as an f64: the nearest, a tie to the even one.
pub fn u64_to_f64(n: u64) -> f64
    ensures { result ≡ Ieee.of_int binary64 (pos n) }
{
    num::nearest_u64_to_f64(n)
}

// x as a u64: toward zero, held at the ends of the range, a NaN to 0.
pub fn f64_to_u64(x: f64) -> u64
    ensures { result ≡ Ieee.to_unsigned 64 x }
{
    num::saturating_f64_to_u64(x)
}

// The least whole number that is no less than x.
#[tactic(auto, using(crate::proofs::Stds::ceil_is))]
pub fn ceil(x: f64) -> f64
    ensures { result ≡ Integral.ceil x }
{
    x.ceil()
}

// The whole number nearest to x, a half away from zero.
#[tactic(auto, using(crate::proofs::Stds::round_is))]
pub fn round(x: f64) -> f64
    ensures { result ≡ Integral.round_away x }
{
    x.round()
}

// Whether x is below y, where -0 is below +0.
#[tactic(auto, using(crate::proofs::Stds::negative_is), unfolding(crate::specs::Order::below))]
fn below(x: f64, y: f64) -> bool
    ensures { result ≡ Order.below x y }
{
    x < y || x == y && x.is_sign_negative()
}

// The second of a and b or the first; where one is a NaN, the other.
#[tactic(auto, unfolding(crate::specs::Order::choose))]
fn choose(a: f64, b: f64, second: bool) -> f64
    ensures { result ≡ Order.choose a b second }
{
    if a.is_nan() || second && !b.is_nan() {
        b
    } else {
        a
    }
}

// The lesser of a and b: a NaN loses, and -0 is below +0, where std's `min` may answer either zero.
#[tactic(auto, unfolding(crate::specs::Order::minimum_number))]
pub fn min(a: f64, b: f64) -> f64
    ensures { result ≡ Order.minimum_number a b }
{
    choose(a, b, below(b, a))
}

// The greater of a and b: a NaN loses, and -0 is below +0, where std's `max` may answer either
// zero.
#[tactic(auto, unfolding(crate::specs::Order::maximum_number))]
pub fn max(a: f64, b: f64) -> f64
    ensures { result ≡ Order.maximum_number a b }
{
    choose(a, b, below(a, b))
}

// A bit pattern's place in totalOrder: the patterns with the sign bit set come first, the greatest
// magnitude in front.
#[tactic(auto, unfolding(crate::specs::Order::place))]
pub fn total_place(b: u64) -> u64
    ensures { result ≡ Order.place b }
{
    if b < SIGN_BIT {
        SIGN_BIT + b
    } else {
        u64::MAX - b
    }
}

// Whether the pattern a comes before b in totalOrder.
#[tactic(auto, unfolding(crate::specs::Order::total_less))]
pub fn total_less(a: u64, b: u64) -> bool
    ensures { result ≡ Order.total_less a b }
{
    total_place(a) < total_place(b)
}

// How the patterns a and b stand in totalOrder.
#[tactic(auto, using(crate::proofs::Stds::ordering_is), unfolding(crate::specs::Order::total_cmp, crate::specs::Order::total_less))]
pub fn total_cmp(a: u64, b: u64) -> Ordering
    ensures { result ≡ Order.total_cmp a b }
{
    total_place(a).cmp(&total_place(b))
}

// Whether x is neither infinite nor a NaN.
#[tactic(auto, using(crate::proofs::Stds::finite_is))]
pub fn is_finite(x: f64) -> bool
    ensures { result ≡ finite x }
{
    x.is_finite()
}

// The functions at f64 and at f32 below stay apart: std has a function for each of the two, so a
// trait over both would only repeat these calls in its impls.

// The bit pattern of x, with one pattern for every NaN.
pub fn to_bits(x: f64) -> u64
    ensures { result ≡ Ieee.to_bits binary64 x }
{
    num::f64_to_bits_with_nan(x)
}

// The float of any bit pattern, a NaN's too.
pub fn from_bits(b: u64) -> f64
    ensures { result ≡ Ieee.of_bits binary64 b }
{
    num::f64_from_bits_with_nan(b)
}

// The bit pattern of an f32, with one pattern for every NaN.
pub fn f32_to_bits(x: f32) -> u32
    ensures { result ≡ Ieee.to_bits binary32 x }
{
    num::f32_to_bits_with_nan(x)
}

// The f32 of any bit pattern, a NaN's too.
pub fn f32_from_bits(b: u32) -> f32
    ensures { result ≡ Ieee.of_bits binary32 b }
{
    num::f32_from_bits_with_nan(b)
}

// An f32 as an f64, which holds every value of it.
pub fn f32_to_f64(x: f32) -> f64
    ensures { result ≡ x }
{
    num::f32_to_f64_with_nan(x)
}

// Whether the pattern b is that of an f64 that is finite with a clear sign bit.
pub fn is_magnitude_bits(b: u64) -> bool
    ensures { result ≡ Magnitude.magnitude (Ieee.of_bits binary64 b) }
{
    b < INFINITY_BITS
}

// Whether x is finite with a clear sign bit.
#[tactic(auto, using(crate::proofs::Stds::magnitude_is, crate::proofs::Stds::no_magnitude))]
pub fn is_magnitude(x: f64) -> bool
    ensures { result ≡ Magnitude.magnitude x }
{
    x.is_finite() && x.is_sign_positive()
}

// Whether the pattern b is that of an f32 that is finite with a clear sign bit.
pub fn is_magnitude_bits_f32(b: u32) -> bool
    ensures { result ≡ Magnitude.magnitude (Ieee.of_bits binary32 b) }
{
    b < INFINITY_BITS_F32
}

// Whether the f32 x is finite with a clear sign bit.
#[tactic(auto, using(crate::proofs::Stds::magnitude_is, crate::proofs::Stds::no_magnitude))]
pub fn is_magnitude_f32(x: f32) -> bool
    ensures { result ≡ Magnitude.magnitude x }
{
    x.is_finite() && x.is_sign_positive()
}
