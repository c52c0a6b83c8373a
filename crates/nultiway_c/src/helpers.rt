// Functions on numbers, for the benchmarks.
ghost use Rattle.std.specs.Prelude.{◌≡◌, pos, ◌*◌, ◌/◌, ◌^◌};
ghost use Rattle.std.specs.Float.Ieee as Ieee;
ghost use Rattle.std.specs.Float.{binary64};
ghost use Rattle.demand.specs.Decay.Weight.{weight};

// Tells the double nearest to a whole number, ties to even.
#[unsafe(no_mangle)]
pub extern "C" fn nultiway_u64_to_f64(n: u64) -> f64
    ensures { result ≡ Ieee.of_int binary64 (pos n) }
{
    nultiway::helpers::nultiway_u64_to_f64(n)
}

// Tells the whole part of a double, held within 64 bits, and 0 of a NaN.
#[unsafe(no_mangle)]
pub extern "C" fn nultiway_f64_to_u64(x: f64) -> u64
    ensures { result ≡ Ieee.to_unsigned 64 x }
{
    nultiway::helpers::nultiway_f64_to_u64(x)
}

// Tells the high half of a product of 128 bits.
#[unsafe(no_mangle)]
pub extern "C" fn nultiway_high_product(a: u64, b: u64) -> u64
    ensures { result ≡ a * b / 2 ^ 64 }
{
    nultiway::helpers::nultiway_high_product(a, b)
}

// Tells the weight that a rate keeps after some time, in parts of 2^52.
#[unsafe(no_mangle)]
pub extern "C" fn nultiway_decay_weight(elapsed: u64, time_constant: u64) -> u64
    ensures { result ≡ weight elapsed time_constant }
{
    nultiway::helpers::nultiway_decay_weight(elapsed, time_constant)
}
