// Reads a saved image from standard input and writes a line for each of its records, or `no 13`
// where it is no valid image.
#![tactic(auto)]

mod decimal;
mod fields;
mod lines;

ghost use Rattle.std.specs.Prelude.{◌≡◌, ◌<◌, ◌≤◌, length};

use image::judge::{HOT_SIZE, KEYS_SIZE, SHADOWS_SIZE};
use peers::peer_demand::{CONTESTED_SIZE, PEERS_SIZE, SNAPSHOT_KEYS_SIZE};
use std::fmt;
use std::fmt::Write;
use std::io::Read;
use text::Output;

// One byte more than the largest image has: an input of so many bytes is no image.
const INPUT: usize = image::LARGEST_IMAGE + 1;

// Room that a line may take.
const LINE: usize = 4096;

// How many bytes the first record takes.
fn record_len(image: &[u8]) -> usize
    requires { 0 < length image.now }
    ensures { (0 < result) × (result ≤ length image.now) }
{
    match image::rows::record_at(image, 0) {
        None => image.len(),
        Some(record) => record.end,
    }
}

// Writes the lines of a valid image, as long as no write fails.
fn put_image(rt: &(impl Print + Eprint), out: &mut Output, image: &[u8]) -> fmt::Result {
    let mut rest = image;
    while !rest.is_empty() {
        let (record, behind) = rest.split_at(record_len(rest));
        lines::put_record(out, record)?;
        out.write_str("\n")?;
        out.flush(rt, LINE)?;
        rest = behind;
    }
    out.flush_all(rt)
}

// Writes the image as text once a load has taken it, or the number of the question that was
// answered 'no'. The tables have room for the largest image.
fn inspect(rt: &(impl Print + Eprint), out: &mut Output, image: &[u8]) -> fmt::Result {
    let mut keys = [0u64; KEYS_SIZE];
    let mut hot = [0u64; HOT_SIZE];
    let mut shadows = [0u64; SHADOWS_SIZE];
    let mut peers = [0u64; PEERS_SIZE];
    let mut snapshot_keys = [0u64; SNAPSHOT_KEYS_SIZE];
    let mut contested = [0u64; CONTESTED_SIZE];
    let answer = image::load(
        image,
        &mut keys,
        &mut hot,
        &mut shadows,
        &mut peers,
        &mut snapshot_keys,
        &mut contested,
    );
    match answer {
        Err(question) => {
            writeln!(out, "no {}", question.number())?;
            out.flush_all(rt)
        }
        Ok(_) => put_image(rt, out, image),
    }
}

// Reads until the buffer is full, the input ends or a read fails, and answers how many bytes came.
// The buffer is fixed, and longer input is no image.
fn read_full(stdin: &mut impl Read, buf: &mut [u8]) -> usize
    ensures { result ≤ length buf.new }
{
    let mut done = 0;
    while done < buf.len() {
        let n = stdin.read(&mut buf[done..]).unwrap_or(0);
        if n == 0 {
            break;
        }
        done += n;
    }
    done
}

// Room for the input.
fn input_buffer() -> [u8; INPUT]
    ensures { 1372567 ≡ length result }
{
    [0; INPUT]
}

fn main(rt: HostRuntime) {
    let mut stdin = rt.stdin();
    let mut input = input_buffer();
    let n = read_full(&mut stdin, &mut input);
    let mut out = Output::new();
    // A write that fails has been told, and ends the run.
    let _ = inspect(&rt, &mut out, &input[..n]);
}
