// A record of an image as a line: its kind, and each field by its name.
ghost use Rattle.std.specs.Prelude.{◌≤◌};

use crate::fields::{Estimator, Optional, Packed, float32, float64};
use image::rows::LONGEST_RECORD;
use std::fmt;
use std::fmt::Write;
use text::Output;

// The words of a record, and zeros behind them.
type Words = [u64; LONGEST_RECORD];

fn words_of(bytes: &[u8]) -> Words {
    let mut words = [0; LONGEST_RECORD];
    let (chunks, _) = bytes.as_chunks::<8>();
    for (word, chunk) in words.iter_mut().zip(chunks) {
        *word = u64::from_le_bytes(*chunk);
    }
    words
}

// Kind 1, up to the floor factor.
fn put_limits(out: &mut Output, words: &Words) -> fmt::Result {
    let [rate, burst, alpha, floor_factor, ..] = *words;
    let rate = float64(rate);
    let alpha = float64(alpha);
    let floor_factor = float64(floor_factor);
    write!(
        out,
        "settings rate={rate} burst={burst} alpha={alpha} floor_factor={floor_factor}"
    )
}

// Kind 1, the sizes and times.
fn put_sizes(out: &mut Output, words: &Words) -> fmt::Result {
    let [_, _, _, _, cooldown, hot, tracked, constant, table, ..] = *words;
    write!(
        out,
        " cooldown={cooldown} hot_set_size={hot} max_tracked_keys={tracked}"
    )?;
    write!(out, " demand_time_constant={constant} table_size={table}")
}

// Kind 1.
fn put_settings(out: &mut Output, words: &Words) -> fmt::Result {
    put_limits(out, words)?;
    put_sizes(out, words)?;
    let cap = Optional::of(words[9], float64(words[10]));
    let last_tick = Optional::of(words[11], words[12]);
    write!(out, " cap={cap} last_tick={last_tick}")
}

// The estimator whose words begin at an index.
fn estimator(words: &Words, at: usize) -> Estimator
    requires { at ≤ 18 }
{
    Estimator([words[at], words[at + 1], words[at + 2], words[at + 3]])
}

// Kind 2.
fn put_key(out: &mut Output, words: &Words) -> fmt::Result {
    let [key, rate, burst, ..] = *words;
    let rate = float64(rate);
    write!(out, "key {key} limit_rate={rate} limit_burst={burst}")?;
    let demand = estimator(words, 3);
    let requests = estimator(words, 7);
    write!(out, " demand={demand} requests={requests}")?;
    let denials = estimator(words, 11);
    let shadow_denials = estimator(words, 15);
    write!(out, " denials={denials} shadow_denials={shadow_denials}")?;
    let quota = Packed(words[19]);
    let tat = Optional::of(words[20], words[21]);
    write!(out, " quota={quota} tat={tat}")
}

// Kind 3.
fn put_hot(out: &mut Output, words: &Words) -> fmt::Result {
    let [key, demand, primary, flag, value, since, ..] = *words;
    let demand = float64(demand);
    let cooling_since = Optional::of(flag, value);
    write!(
        out,
        "hot {key} demand={demand} primary={primary} cooling_since={cooling_since} since={since}"
    )
}

// Kind 4.
fn put_shadow(out: &mut Output, words: &Words) -> fmt::Result {
    let [key, quota, flag, value, ..] = *words;
    let quota = Packed(quota);
    let tat = Optional::of(flag, value);
    write!(out, "shadow {key} quota={quota} tat={tat}")
}

// Kind 5.
fn put_peer(out: &mut Output, words: &Words) -> fmt::Result {
    let [
        id,
        flag,
        value,
        snapshot,
        epoch,
        round,
        heard_at,
        count,
        a,
        b,
        c,
        d,
        ..
    ] = *words;
    let held_until = Optional::of(flag, value);
    write!(out, "peer {id} held_until={held_until} snapshot={snapshot}")?;
    write!(out, " epoch={epoch} round={round} heard_at={heard_at}")?;
    write!(
        out,
        " count_of_past_epochs={count} past_epochs=({a} {b} {c} {d})"
    )
}

// Kind 6, and the first four words of kind 7.
fn put_peer_key(out: &mut Output, kind: &str, words: &Words) -> fmt::Result {
    let [peer, key, demand, primary, ..] = *words;
    let demand = float32(demand);
    write!(
        out,
        "{kind} peer={peer} key={key} demand={demand} primary={primary}"
    )
}

// Kind 7.
fn put_contested(out: &mut Output, words: &Words) -> fmt::Result {
    put_peer_key(out, "contested", words)?;
    let [_, _, _, _, round, heard_at, ..] = *words;
    write!(out, " round={round} heard_at={heard_at}")
}

// Writes a record without its line feed.
pub(crate) fn put_record(out: &mut Output, record: &[u8]) -> fmt::Result {
    let [_, _, kind, bytes @ ..] = record else {
        return Ok(());
    };
    let words = words_of(bytes);
    match *kind {
        0 => write!(out, "end records={}", words[0]),
        1 => put_settings(out, &words),
        2 => put_key(out, &words),
        3 => put_hot(out, &words),
        4 => put_shadow(out, &words),
        5 => put_peer(out, &words),
        6 => put_peer_key(out, "snapshot_key", &words),
        7 => put_contested(out, &words),
        _ => Ok(()),
    }
}
