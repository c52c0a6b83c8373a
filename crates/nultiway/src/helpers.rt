// Functions on numbers, for the benchmarks.
ghost use mathlib.Core.Path.{_≡_};
ghost use lib.IntN.{pos};
ghost use lib.Ieee as Ieee;
ghost use lib.Ieee.{binary64};
ghost use Prim.Native.Nat.{_*_, _/_, _^_};
ghost use Rattle·demand.specs.Decay.Weight.{weight};

// Tells the double nearest to a whole number, ties to even.
#[no_mangle]
pub extern "C" fn nultiway_u64_to_f64(n: u64) -> f64
    ensures { λ r. ⌜ r ≡ Ieee.ofInt binary64 (pos n) ⌝ }
{
    float::u64_to_f64(n)
}

// Tells the whole part of a double, held within 64 bits, and 0 of a NaN.
#[no_mangle]
pub extern "C" fn nultiway_f64_to_u64(x: f64) -> u64
    ensures { λ r. ⌜ r ≡ Ieee.toUnsigned 64 x ⌝ }
{
    float::f64_to_u64(x)
}

// Tells the high half of a product of 128 bits.
#[no_mangle]
pub extern "C" fn nultiway_high_product(a: u64, b: u64) -> u64
    ensures { λ r. ⌜ r ≡ a * b / 2 ^ 64 ⌝ }
{
    float::wide::high_product(a, b)
}

// Tells the weight that a rate keeps after some time, in parts of 2^52.
#[no_mangle]
pub extern "C" fn nultiway_decay_weight(elapsed: u64, time_constant: u64) -> u64
    ensures { λ r. ⌜ r ≡ weight elapsed «time_constant» ⌝ }
{
    demand::decay::decay_weight(elapsed, time_constant)
}
