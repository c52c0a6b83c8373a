// Reads a rate and a burst, then a reading a line, and writes the meter's decision on each. It stops
// at the first line that is not what it should be, and where a write fails.
#![tactic(auto)]

ghost use Rattle.std.specs.Prelude.{IfSome};
ghost use Rattle.text.specs.Input.{Within};

use gcra::{Decision, Gcra, Quota};
use std::fmt;
use std::fmt::Write;
use std::io::Read;
use text::Output;
use text::lines::{Kind, Line, Lines};

// Room that a decision may take.
const DECISION: usize = 64;

// The meter that the first line asks for, by a rate and a burst of 32 bits each, parted by one
// space; none where the line is unfit or its quota is refused.
fn meter_of(line: &[u8]) -> Option<Gcra> {
    let space = line.iter().position(|b| *b == b' ')?;
    let rate = u32::try_from(text::decimal(&line[..space])?).ok()?;
    let burst = u32::try_from(text::decimal(&line[space + 1..])?).ok()?;
    Gcra::new(Quota::new(rate, burst).ok()?).ok()
}

// The next line, if one came whole.
fn whole_line(stdin: &mut impl Read, input: &mut [u8], rest: Lines) -> Option<Line>
    ensures { IfSome result (λ line. Within line input.new) }
{
    let line = text::lines::next_line(stdin, input, rest)?;
    match line.kind {
        Kind::Whole => Some(line),
        Kind::TooLong => None,
    }
}

// Writes `allow`, or `deny` and when to come again.
fn put_decision(out: &mut Output, decision: Decision) -> fmt::Result {
    match decision {
        Decision::Allow => writeln!(out, "allow"),
        Decision::Deny { retry_at } => writeln!(out, "deny {retry_at}"),
    }
}

// Decides on reading after reading, as long as lines come.
fn run(
    rt: &(impl Print + Eprint),
    stdin: &mut impl Read,
    input: &mut [u8],
    out: &mut Output,
) -> fmt::Result {
    let Some(first) = whole_line(stdin, input, text::lines::start()) else {
        return Ok(());
    };
    let Some(mut gcra) = meter_of(&input[first.start..first.end]) else {
        return Ok(());
    };
    let mut rest = first.rest;
    for _ in 0..u64::MAX {
        let Some(line) = whole_line(stdin, input, rest) else {
            break;
        };
        let Some(reading) = text::decimal(&input[line.start..line.end]) else {
            break;
        };
        let checked = gcra.check(reading);
        let Ok(decision) = checked.answer else {
            break;
        };
        put_decision(out, decision)?;
        out.flush(rt, DECISION)?;
        gcra = checked.gcra;
        rest = line.rest;
    }
    out.flush_all(rt)
}

fn main(rt: HostRuntime) {
    let mut stdin = rt.stdin();
    let mut input = io::large_buffer();
    let mut out = Output::new();
    // A write that fails has been told, and ends the run.
    let _ = run(&rt, &mut stdin, &mut input, &mut out);
}
