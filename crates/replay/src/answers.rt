// Answers, made of up to four values or a list, and how they are written.
use crate::lent;
use gcra::{Decision, Quota};
use questions::Refusal;
use std::cmp::Ordering;
use std::fmt;
use std::fmt::Write;
use text::Output;

// Room that the answer to a line may take.
const ROOM: usize = 20480;

// A value of an answer; `Unknown` answers what is no call. Words of a list follow some values: so many
// bits of floats or flags, hot keys of three words, keys with their rates of four, checks of three;
// and behind the rate of the settings the rest of them. `Image` is the word before an image's length
// and its `Hash`; where the answer is `Dump`, the image itself is still to be written.
#[derive(Clone, Copy)]
pub(crate) enum Value {
    Nothing,
    Unknown,
    Missing,
    Done,
    NoState,
    Slash,
    Image,
    Dump,
    Order(Ordering),
    Refused(Refusal),
    Decided(Decision),
    Whole(u64),
    Hash(u64),
    Float64(f64),
    Float32(f32),
    Settings(f64),
    Floats(usize),
    Flags(usize),
    HotKeys(usize),
    KeysWithRates(usize),
    Checks(usize),
}

impl From<()> for Value {
    fn from(done: ()) -> Self {
        Value::Done
    }
}

impl From<bool> for Value {
    fn from(yes: bool) -> Self {
        Value::Whole(yes as u64)
    }
}

impl From<u64> for Value {
    fn from(n: u64) -> Self {
        Value::Whole(n)
    }
}

impl From<u32> for Value {
    fn from(n: u32) -> Self {
        Value::Whole(n as u64)
    }
}

impl From<usize> for Value {
    fn from(n: usize) -> Self {
        Value::Whole(n as u64)
    }
}

impl From<f64> for Value {
    fn from(x: f64) -> Self {
        Value::Float64(x)
    }
}

impl From<Decision> for Value {
    fn from(decision: Decision) -> Self {
        Value::Decided(decision)
    }
}

impl From<Option<u64>> for Value {
    fn from(n: Option<u64>) -> Self {
        n.map_or(Value::Missing, Value::Whole)
    }
}

impl Value {
    // What a call answers, or that it is refused.
    pub(crate) fn of<T>(answer: Result<T, Refusal>) -> Value
    where
        Value: From<T>,
    {
        answer.map_or_else(Value::Refused, Value::from)
    }
}

// By its bits, every NaN as `nan`.
fn fmt_float<W: fmt::Write>(x: f64, f: &mut fmt::Formatter<W>) -> fmt::Result {
    if x != x {
        f.write_str("nan")
    } else {
        write!(f, "{:016x}", float::to_bits(x))
    }
}

impl fmt::Display for Value {
    fn fmt<W: fmt::Write>(&self, f: &mut fmt::Formatter<W>) -> fmt::Result {
        match *self {
            Value::Nothing | Value::Dump => Ok(()),
            Value::Unknown => f.write_str("?"),
            Value::Missing => f.write_str("none"),
            Value::Done => f.write_str("ok"),
            Value::NoState => f.write_str("nostate"),
            Value::Slash => f.write_str("/"),
            Value::Image => f.write_str("image"),
            Value::Order(Ordering::Less) => f.write_str("Less"),
            Value::Order(Ordering::Equal) => f.write_str("Equal"),
            Value::Order(Ordering::Greater) => f.write_str("Greater"),
            Value::Refused(question) => write!(f, "no {}", question.number()),
            Value::Decided(Decision::Allow) => f.write_str("allow"),
            Value::Decided(Decision::Deny { retry_at }) => write!(f, "deny {retry_at}"),
            Value::Whole(n) => write!(f, "{n}"),
            Value::Hash(hash) => write!(f, "{hash:016x}"),
            Value::Float64(x) | Value::Settings(x) => fmt_float(x, f),
            Value::Float32(x) => write!(f, "{:08x}", float::f32_to_bits(x)),
            Value::Floats(n)
            | Value::Flags(n)
            | Value::HotKeys(n)
            | Value::KeysWithRates(n)
            | Value::Checks(n) => write!(f, "{n}"),
        }
    }
}

// The values of an answer in their order. Where the first is nothing no line is written.
#[derive(Clone, Copy)]
pub(crate) struct Answer {
    pub(crate) first: Value,
    pub(crate) second: Value,
    pub(crate) third: Value,
    pub(crate) fourth: Value,
}

// What a call answers, and what there is after it.
#[derive(Clone, Copy)]
pub(crate) struct Done<S> {
    pub(crate) answer: Answer,
    pub(crate) state: S,
}

pub(crate) fn three(first: Value, second: Value, third: Value) -> Answer {
    Answer {
        first,
        second,
        third,
        fourth: Value::Nothing,
    }
}

pub(crate) fn two(first: Value, second: Value) -> Answer {
    three(first, second, Value::Nothing)
}

pub(crate) fn one(value: Value) -> Answer {
    two(value, Value::Nothing)
}

impl<S> Done<S> {
    // An answer of one value.
    pub(crate) fn said(value: Value, state: S) -> Done<S> {
        Done {
            answer: one(value),
            state,
        }
    }
}

// What a call that makes something answers, and what there is after it: what was before where it is
// refused.
pub(crate) fn made<T: Copy>(answer: Result<T, Refusal>, before: Option<T>) -> Done<Option<T>> {
    match answer {
        Err(question) => Done::said(Value::Refused(question), before),
        Ok(made) => Done::said(Value::Done, Some(made)),
    }
}

// What a call answers with one value, or that it is refused.
pub(crate) fn of<T>(answer: Result<T, Refusal>) -> Answer
where
    Value: From<T>,
{
    one(Value::of(answer))
}

// What a call answers with several values, or that it is refused.
pub(crate) fn several<T>(answer: Result<T, Refusal>) -> Answer
where
    Answer: From<T>,
{
    match answer {
        Err(question) => one(Value::Refused(question)),
        Ok(x) => Answer::from(x),
    }
}

// The same of a call that might find nothing.
pub(crate) fn found<T>(answer: Result<Option<T>, Refusal>) -> Answer
where
    Answer: From<T>,
{
    match answer {
        Err(question) => one(Value::Refused(question)),
        Ok(None) => one(Value::Missing),
        Ok(Some(x)) => Answer::from(x),
    }
}

impl From<Quota> for Answer {
    fn from(quota: Quota) -> Self {
        two(Value::from(quota.interval), Value::from(quota.burst))
    }
}

pub(crate) fn is_there(value: Value) -> bool {
    !matches!(value, Value::Nothing)
}

// A value behind others, if there is one.
fn fmt_next<W: fmt::Write>(value: Value, f: &mut fmt::Formatter<W>) -> fmt::Result {
    if is_there(value) {
        write!(f, " {value}")
    } else {
        Ok(())
    }
}

impl fmt::Display for Answer {
    fn fmt<W: fmt::Write>(&self, f: &mut fmt::Formatter<W>) -> fmt::Result {
        write!(f, "{}", self.first)?;
        fmt_next(self.second, f)?;
        fmt_next(self.third, f)?;
        fmt_next(self.fourth, f)
    }
}

// How many words of the list belong to an answer; those of checks are apart.
fn listed(value: Value) -> usize {
    match value {
        Value::Floats(n) | Value::Flags(n) => n,
        Value::HotKeys(n) => lent::words_for(n, 3),
        Value::KeysWithRates(n) => lent::words_for(n, 4),
        Value::Settings(_) => 8,
        _ => 0,
    }
}

// Whether word i of the list is a float: a hot key's demand, a key's three rates, alpha and the floor.
fn is_float(value: Value, i: usize) -> bool {
    match value {
        Value::Floats(_) => true,
        Value::HotKeys(_) => i % 3 == 1,
        Value::KeysWithRates(_) => i % 4 != 0,
        Value::Settings(_) => i == 1 || i == 2,
        _ => false,
    }
}

// The words of the list that belong to an answer, which begins with the value.
fn put_list(out: &mut Output, value: Value, list: &[u64]) -> fmt::Result {
    for (i, word) in list.iter().take(listed(value)).enumerate() {
        if is_float(value, i) {
            write!(out, " {word:016x}")?;
        } else {
            write!(out, " {word}")?;
        }
    }
    Ok(())
}

// One check by its three words: the number of the question, whether it is denied, the retry time.
fn put_check(out: &mut Output, check: [u64; 3]) -> fmt::Result {
    let [no, denied, retry_at] = check;
    if no != 0 {
        write!(out, " / no {}", no % 256)
    } else if denied != 0 {
        write!(out, " / deny {retry_at}")
    } else {
        out.write_str(" / allow")
    }
}

// The checks of the list that belong to an answer.
fn put_checks(out: &mut Output, value: Value, list: &[u64]) -> fmt::Result {
    let Value::Checks(n) = value else {
        return Ok(());
    };
    let (checks, _) = list.as_chunks::<3>();
    for check in checks.iter().take(n) {
        put_check(out, *check)?;
    }
    Ok(())
}

// Writes an answer, but not the end of its line.
pub(crate) fn put(out: &mut Output, answer: Answer, list: &[u64]) -> fmt::Result {
    write!(out, "{answer}")?;
    put_list(out, answer.first, list)?;
    put_checks(out, answer.first, list)
}

// Ends the line of an answer, and writes what is ready where little room is left then.
pub(crate) fn end_line(rt: &(impl Print + Eprint), out: &mut Output) -> fmt::Result {
    out.write_str("\n")?;
    spare(rt, out)
}

// Writes what is ready where there might be too little room for an answer.
pub(crate) fn spare(rt: &(impl Print + Eprint), out: &mut Output) -> fmt::Result {
    out.flush(rt, ROOM)
}
