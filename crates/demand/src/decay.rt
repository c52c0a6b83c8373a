// The decay weight: the part of an average that is kept after a time, as a whole number of parts
// of which 2^52 make one. It stands for exp(-elapsed / time_constant).

ghost use Rattle.std.specs.Prelude.{◌≡◌, ◌*◌, ◌/◌, ◌≤◌, ◌<◌};
ghost use Rattle.demand.specs.Decay.Weight as spec;

const S: u64 = 0x10_0000_0000_0000;

// exp(-1) in parts
const E1: u64 = 1_656_781_714_176_974;

// a * b / S, rounded down
fn scaled_product(a: u64, b: u64) -> u64
    requires { (a ≤ spec.S) × (b ≤ spec.S) }
    ensures { result ≡ a * b / spec.S }
{
    float::wide::high_product(a * 0x800, b * 2)
}

// The term k of the series from the one before it, t
fn next_term(k: u64, t: u64, y: u64) -> u64
    requires { (0 < k) × (t ≤ spec.S) × (y < spec.S) }
    ensures { (result ≡ spec.next k t y) × (result ≤ t) }
{
    scaled_product(t, y) / k
}

// The alternating sum of the terms 0 to 20, two terms a turn. From a term that is 0 on, each is 0.
fn series(y: u64) -> u64
    requires { y < spec.S }
    ensures { (result ≡ spec.series y) × (result ≤ spec.S) }
{
    let mut sum = S;
    let mut term = S;
    for j in 0..10 {
        if term == 0 {
            return sum;
        }
        let odd = next_term(j + j + 1, term, y);
        term = next_term(j + j + 2, odd, y);
        sum = sum - odd + term;
    }
    sum
}

// exp(-q) in parts
fn power(q: u64) -> u64
    requires { q < 37 }
    ensures { (result ≡ spec.power q) × (result ≤ spec.S) }
{
    let mut p = S;
    for _ in 0..q {
        p = scaled_product(p, E1);
    }
    p
}

// r * S / c, rounded down, by long division: two digits of 26 bits where these fit, else a bit at
// a time
fn ratio(r: u64, c: u64) -> u64
    requires { r < c }
    ensures { result ≡ r * spec.S / c }
{
    if c <= 0x40_0000_0000 {
        let first = r * 0x400_0000;
        let second = first % c * 0x400_0000;
        return first / c * 0x400_0000 + second / c;
    }
    ratio_by_bits(r, c)
}

// r * S / c, rounded down, a bit of the quotient at a time
fn ratio_by_bits(r: u64, c: u64) -> u64
    requires { r < c }
    ensures { result ≡ r * spec.S / c }
{
    let mut y: u64 = 0;
    let mut rest = r;
    for _ in 0..52_u64 {
        if rest < c - rest {
            rest = rest + rest;
            y = y + y;
        } else {
            rest = rest - (c - rest);
            y = y + y + 1;
        }
    }
    y
}

// The weight kept after the time `elapsed`
pub fn decay_weight(elapsed: u64, time_constant: u64) -> u64
    ensures { result ≡ spec.weight elapsed time_constant }
{
    if time_constant == 0 {
        return 0;
    }
    let q = elapsed / time_constant;
    if q >= 37 {
        return 0;
    }
    let y = ratio(elapsed % time_constant, time_constant);
    scaled_product(series(y), power(q))
}
