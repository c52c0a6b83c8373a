// Runs points on the edge through the code and prints a line each.
#![tactic(auto)]

use demand::allocation::View;
use demand::decay::decay_weight;
use gcra::{Gcra, Quota};
use peers::peer_demand::{round_is_newer, stale_after_rounds};
use questions::Refusal;
use std::fmt;
use std::fmt::Write;
use text::Output;

// The quota that is answered; a refusal as the interval 0.
fn quota_of(answer: Result<Quota, Refusal>) -> Quota {
    answer.unwrap_or(Quota {
        interval: 0,
        burst: 0,
    })
}

// The interval that a rate becomes.
fn interval_at(rate: f64) -> u64 {
    quota_of(Quota::per_second(rate, 1)).interval
}

// Quota::new(3, 2), its word and its ceiling at a window of 10^9 ns.
fn put_quota(out: &mut Output) -> fmt::Result {
    let quota = quota_of(Quota::new(3, 2));
    let interval = quota.interval;
    let word = quota.pack().unwrap_or(0);
    let ceiling = quota.ceiling(1_000_000_000).unwrap_or(0);
    writeln!(out, "Quota::new(3, 2) interval {interval}")?;
    writeln!(out, "Quota::new(3, 2) word {word}")?;
    writeln!(out, "Quota::new(3, 2) ceiling at 10^9 {ceiling}")
}

// Intervals of 2^40 - 1 and 2^40 ns, and the two orders of limit, alpha and n.
fn put_intervals(out: &mut Output) -> fmt::Result {
    let last = interval_at(1_000_000_000.0 / 1_099_511_627_775.0);
    let next = interval_at(1_000_000_000.0 / 1_099_511_627_776.0);
    let quotient_first = interval_at(100.0 * (0.5 / 19.0));
    let product_last = interval_at(100.0 / 19.0 * 0.5);
    writeln!(out, "interval of 10^9 / (2^40 - 1) a second {last}")?;
    writeln!(out, "interval of 10^9 / 2^40 a second {next}")?;
    writeln!(
        out,
        "interval of 100 * (0.5 / 19) a second {quotient_first}"
    )?;
    writeln!(out, "interval of 100 / 19 * 0.5 a second {product_last}")
}

// A word of 5 microseconds and burst 1, unpacked and packed again.
fn put_five_micros(out: &mut Output) -> fmt::Result {
    let quota = quota_of(Quota::unpack(5 * 0x100_0000 + 0x40_0000 + 1));
    let interval = quota.interval;
    let word = quota.pack().unwrap_or(0);
    writeln!(out, "5 microseconds unpacked {interval}")?;
    writeln!(out, "and packed again {word}")
}

// The TAT after a change from T 2 to T 1 with a debt of 1 ns at reading 0.
fn put_carried(out: &mut Output) -> fmt::Result {
    let old = Quota {
        interval: 2,
        burst: 1,
    };
    let gcra = Gcra {
        quota: old,
        tat: Some(1),
    };
    let set = gcra.set_quota(Quota { interval: 1, ..old }, 0);
    let tat = set.gcra.tat.unwrap_or(0);
    writeln!(out, "T 2 to 1, debt 1: {tat}")
}

// A number as a float and back.
fn through_float(n: u64) -> u64 {
    float::f64_to_u64(float::u64_to_f64(n))
}

fn put_floats(out: &mut Output) -> fmt::Result {
    let one = through_float(9_007_199_254_740_993);
    let three = through_float(9_007_199_254_740_995);
    writeln!(out, "2^53 + 1 as f64 {one}")?;
    writeln!(out, "2^53 + 3 as f64 {three}")
}

fn put_share(out: &mut Output, own: f64, others: f64) -> fmt::Result {
    let answer = demand::allocation::share(View {
        limit: 100.0,
        cluster_size: 4,
        floor_factor: 0.5,
        own,
        others,
    });
    match answer {
        Err(question) => writeln!(out, "refused {}", question.number()),
        Ok(share) => {
            let whole = float::f64_to_u64(share);
            writeln!(
                out,
                "share of 100, n 4, floor 0.5, own {own}, others {others}: {whole}"
            )
        }
    }
}

fn put_weights(out: &mut Output) -> fmt::Result {
    let below = decay_weight(1, 0x10_0000_0000_0000);
    let above = decay_weight(1, 0x10_0000_0000_0001);
    let one = decay_weight(1, 1);
    writeln!(out, "weight of 1 in 2^52: {below}")?;
    writeln!(out, "weight of 1 in 2^52 + 1: {above}")?;
    writeln!(out, "weight of 1 in 1: {one}")
}

fn put_stale(out: &mut Output, n: usize) -> fmt::Result {
    let rounds = stale_after_rounds(n).unwrap_or(0);
    writeln!(out, "stale_after_rounds({n}): {rounds}")
}

// Whether a round is newer than another, yes as 1 and no as 0.
fn put_newer(out: &mut Output, a: u16, b: u16) -> fmt::Result {
    let newer = u8::from(round_is_newer(a, b));
    writeln!(out, "round {a} newer than {b}: {newer}")
}

fn put_points(out: &mut Output) -> fmt::Result {
    put_quota(out)?;
    put_intervals(out)?;
    put_five_micros(out)?;
    put_carried(out)?;
    put_floats(out)?;
    put_share(out, 3.0, 1.0)?;
    put_share(out, 0.0, 0.0)?;
    put_weights(out)?;
    put_stale(out, 3)?;
    put_stale(out, 4)?;
    put_newer(out, 1, 65535)?;
    put_newer(out, 32768, 0)?;
    put_newer(out, 0, 32768)
}

fn run(rt: &(impl Print + Eprint), out: &mut Output) -> fmt::Result {
    put_points(out)?;
    out.flush_all(rt)
}

fn main(rt: HostRuntime) {
    let mut out = Output::new();
    // A write that fails has been told.
    let _ = run(&rt, &mut out);
}
