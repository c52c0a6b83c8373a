// Reads a script of calls from standard input and answers each on a line of its own. The input's
// buffer holds a line of 3,145,728 bytes and its line feed; a longer one is no call.
#![tactic(auto)]

mod answers;
mod calls;
mod digits;
mod entries;
mod estimator;
mod fields;
mod helpers;
mod hot_set;
mod images;
mod lent;
mod limiter_calls;
mod limiter_readers;
mod meter;
mod peer_calls;
mod session;
mod shown;
mod tables;

use answers::{Answer, Done, Value};
use calls::{Call, Name};
use fields::Args;
use session::Session;
use std::env::Env;
use std::fmt;
use std::io::Read;
use tables::{Kept, Tables};
use text::Output;
use text::lines::Kind;

// The answer to a call that stands alone.
fn answer_alone(name: Name, args: Args) -> Answer {
    match name {
        Name::WholeToFloat
        | Name::FloatToWhole
        | Name::Ceil
        | Name::Round
        | Name::Min
        | Name::Max
        | Name::TotalCmp => answers::one(helpers::value_of(name, args)),
        Name::QuotaNew
        | Name::QuotaPerSecond
        | Name::QuotaUnpack
        | Name::QuotaRate
        | Name::QuotaPack
        | Name::QuotaCeiling => meter::answer_quota(name, args),
        Name::GcraCheck | Name::GcraSet | Name::GcraDebt | Name::GcraRetry | Name::Step =>
            meter::answer_gcra(name, args),
        Name::DemandTick | Name::DemandRecord | Name::DemandUnbiased | Name::Decay | Name::Share =>
            estimator::answer(name, args),
        _ => answers::one(peer_calls::rounds_of(name, args)),
    }
}

// The answer to a call that changes nothing.
fn answer_of(line: &[u8], call: Call, s: Session, t: &mut Tables) -> Answer {
    let Call { name, args } = call;
    match name {
        Name::HotGet => hot_set::answer(args, s.hot, &t.hot),
        Name::Get
        | Name::Total
        | Name::Elsewhere
        | Name::PeersLen
        | Name::PeersEmpty
        | Name::Totals
        | Name::Elsewheres => session::read_peers(line, name, args, s, t),
        Name::Rates
        | Name::Quota
        | Name::Limit
        | Name::HotSince
        | Name::IsHot
        | Name::Tracked
        | Name::NewQuota
        | Name::NewFactor
        | Name::TrackedKeys
        | Name::HotKeys
        | Name::Config
        | Name::HotDemand
        | Name::MostDenied
        | Name::MostShadow => session::read_node(name, args, s, t),
        _ => answer_alone(name, args),
    }
}

// What a call does and answers; a list that belongs to the answer is left in `list`.
fn act(line: &mut [u8], call: Call, s: Session, t: &mut Tables, kept: &mut Kept) -> Done<Session> {
    let Call { name, args } = call;
    match name {
        Name::HotNew | Name::HotUpdate => session::change_hot(name, args, s, &mut t.hot),
        Name::NewPeers | Name::Report | Name::Forget | Name::Leave | Name::Expire =>
            session::change_peers(line, name, args, s, t),
        Name::Lend => session::lend(args, s),
        Name::New => session::make(args, s, t),
        Name::Ticks => session::tick_with_shares(args, s, t),
        Name::Cap
        | Name::Check
        | Name::CheckIn
        | Name::Record
        | Name::Tick
        | Name::Traced
        | Name::Checks => session::change_node(line, name, args, s, t),
        Name::Save | Name::Load | Name::LoadHex | Name::Reload | Name::Dump => images::change(
            line, name, args, s, t, kept,
        ),
        _ => Done {
            answer: answer_of(line, call, s, t),
            state: s,
        },
    }
}

// Answers what came.
fn respond(
    kind: Kind,
    line: &mut [u8],
    s: Session,
    t: &mut Tables,
    kept: &mut Kept,
) -> Done<Session> {
    if calls::is_skipped(kind, line) {
        return Done::said(Value::Nothing, s);
    }
    match calls::call_of(kind, line) {
        None => Done::said(Value::Unknown, s),
        Some(call) => act(line, call, s, t, kept),
    }
}

// Writes the image of the state, whole or its length and hash, where there is one.
fn put_image(
    rt: &(impl Print + Eprint),
    out: &mut Output,
    whole: bool,
    s: Session,
    t: &Tables,
) -> fmt::Result {
    match session::both(s) {
        None => Ok(()),
        Some((limiter, peers)) => shown::put(rt, out, whole, limiter, peers, s.lent, t),
    }
}

// Writes the line of an answer, the image's length and hash behind it where the script is to show
// images and there is one. The room for an image is made only where one is shown.
fn put_line(
    rt: &(impl Print + Eprint),
    show: bool,
    out: &mut Output,
    done: Done<Session>,
    t: &Tables,
) -> fmt::Result {
    let Done { answer, state } = done;
    if !answers::is_there(answer.first) {
        return Ok(());
    }
    answers::put(out, answer, &t.list)?;
    if matches!(answer.first, Value::Dump) {
        put_image(rt, out, true, state, t)?;
    }
    if show {
        put_image(rt, out, false, state, t)?;
    }
    answers::end_line(rt, out)
}

// Answers line after line, until the input ends or a write fails. No run uses up the turns of the
// loop.
fn run(
    rt: &(impl Print + Eprint),
    stdin: &mut impl Read,
    show: bool,
    input: &mut [u8],
    out: &mut Output,
    t: &mut Tables,
    kept: &mut Kept,
) -> fmt::Result {
    let mut s = session::nothing();
    let mut rest = text::lines::start();
    for _ in 0..u64::MAX {
        let Some(came) = text::lines::next_line(stdin, input, rest) else {
            break;
        };
        let line = &mut input[came.start..came.end];
        let done = respond(came.kind, line, s, t, kept);
        put_line(rt, show, out, done, t)?;
        s = done.state;
        rest = came.rest;
    }
    out.flush_all(rt)
}

// Whether the program is to show images.
fn shows_images(rt: &impl Env) -> bool {
    let mut word = io::buffer();
    let n = rt.arg(1, &mut word).unwrap_or(0);
    &word[..n] == b"--images".as_slice()
}

// Makes the tables, and answers the script.
fn start(
    rt: &(impl Print + Eprint + Env),
    stdin: &mut impl Read,
    input: &mut [u8],
    kept: &mut Kept,
) {
    let mut out = Output::new();
    let mut t = Tables {
        hot: [0; 384],
        keys: [0; 90112],
        hot_keys: [0; 384],
        shadows: [0; 16384],
        peers: [0; 384],
        snapshots: [0; 8192],
        contested: [0; 49152],
        list: [0; 1024],
    };
    // A write that fails has been told, and ends the run.
    let _ = run(rt, stdin, shows_images(rt), input, &mut out, &mut t, kept);
}

fn main(rt: HostRuntime) {
    let mut stdin = rt.stdin();
    let mut input = [0u8; 3_145_729];
    let mut kept = [0u8; image::LARGEST_IMAGE];
    start(&rt, &mut stdin, &mut input, &mut kept);
}
