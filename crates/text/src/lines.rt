// Lines of a reader, as of standard input, however many, through a buffer that the caller lends.
ghost use Rattle.std.specs.Prelude.{◌≡◌, ◌+◌, ◌-◌, ◌≤◌, length};
ghost use Rattle.std.proofs.Math.Seq.{slice};
ghost use Rattle.text.specs.Input.{index_of, feed, Came};
ghost use Rattle.text.specs.Steps.{seen, Held, NoFeed, Roomy, More, LineRead, line_of, last_line};

use std::io::Read;

// Bytes from..to of the buffer are read and not yet handed out. The buffer is the caller's, so the
// places stand beside it: input of any length goes through it.
#[derive(Clone, Copy, Debug, PartialEq, Eq)]
pub struct Lines {
    pub from: usize,
    pub to: usize,
}

// Whether a line came whole, or did not fit the buffer and was passed over.
#[derive(Clone, Copy, Debug, PartialEq, Eq)]
pub enum Kind {
    Whole,
    TooLong,
}

// A line is bytes start..end of the buffer, without its line feed; of one that is too long, its end.
#[derive(Clone, Copy, Debug, PartialEq, Eq)]
pub struct Line {
    pub start: usize,
    pub end: usize,
    pub kind: Kind,
    pub rest: Lines,
}

// What stands in the buffer before the first line is read.
pub fn start() -> Lines
    ensures { (result.from ≡ 0) × (result.to ≡ 0) }
{
    Lines { from: 0, to: 0 }
}

// What is in hand while a line is looked for: bytes from..to, and whether the line's first bytes
// were given up for want of room.
#[derive(Clone, Copy)]
struct Window {
    from: usize,
    to: usize,
    given_up: bool,
}

// The bytes in hand, none where the numbers do not lie within the buffer.
#[tactic(auto, using(std::proofs::lemmas::Bool::Decides::nat_tests), unfolding(crate::specs::Input::in_hand))]
fn in_hand(buf: &[u8], s: Lines) -> Window
    ensures { Held s buf.now result }
{
    let Lines { from, to } = s;
    let given_up = false;
    if from <= to && to <= buf.len() {
        Window { from, to, given_up }
    } else {
        Window {
            from: 0,
            to: 0,
            given_up,
        }
    }
}

// Makes room behind what is in hand: it goes to the front, or is given up where it fills the buffer.
fn make_room(buf: &mut [u8], w: Window) -> Window
    requires { (w.from ≤ w.to) × (w.to ≤ length buf.old) }
    ensures { Roomy w buf.old result buf.new }
{
    if 0 < w.from {
        buf.copy_within(w.from..w.to, 0);
        return Window {
            from: 0,
            to: w.to - w.from,
            ..w
        };
    }
    if w.to < buf.len() {
        return w;
    }
    Window {
        from: 0,
        to: 0,
        given_up: true,
    }
}

// Reads once into the buffer from `to` on, and answers where the bytes end then. A read that fails
// counts as the end of the input.
fn read_more(input: &mut impl Read, buf: &mut [u8], to: usize) -> usize
    requires { to ≤ length buf.old }
    ensures { More to result buf.old buf.new }
{
    to + input.read(&mut buf[to..]).unwrap_or(0)
}

// The index of the first line feed from `from` on, or `to` where there is none before it.
fn line_end(buf: &[u8], from: usize, to: usize) -> usize
    requires { (from ≤ to) × (to ≤ length buf.now) }
    ensures { (result ≡ from + index_of feed (slice from to buf.now)) × (result ≤ to) }
{
    from + crate::index_of(&buf[from..to], b'\n')
}

// The line start..end, with what follows it.
fn line_of(start: usize, end: usize, given_up: bool, from: usize, to: usize) -> Line
    ensures { result ≡ line_of start end given_up from to }
{
    Line {
        start,
        end,
        kind: if given_up { Kind::TooLong } else { Kind::Whole },
        rest: Lines { from, to },
    }
}

// What is left where the input ends: a last line without its line feed, or nothing.
fn last_line(w: Window) -> Option<Line>
    ensures { result ≡ last_line w }
{
    if w.given_up || 0 < w.to {
        Some(line_of(0, w.to, w.given_up, 0, 0))
    } else {
        None
    }
}

// The next line where none is in hand: the input is read as far as need be. No run uses up the
// reads of the loop; where it did, the input would count as ended.
fn read_line(input: &mut impl Read, buf: &mut [u8], hand: Window) -> Option<Line>
    requires { NoFeed hand buf.old }
    ensures { LineRead (seen hand buf.old) buf.old result buf.new }
{
    let mut w = hand;
    for _ in 0..u64::MAX {
        w = make_room(buf, w);
        let more = read_more(input, buf, w.to);
        if more == w.to {
            return last_line(w);
        }
        w.to = more;
        let e = line_end(buf, w.from, more);
        if e < more {
            return Some(line_of(w.from, e, w.given_up, e + 1, more));
        }
    }
    last_line(make_room(buf, w))
}

// The next line: the one in hand, or one that the input is read for. None where the input ended.
pub fn next_line(input: &mut impl Read, buf: &mut [u8], s: Lines) -> Option<Line>
    ensures { Came s buf.old result buf.new }
{
    let w = in_hand(buf, s);
    let e = line_end(buf, w.from, w.to);
    if e < w.to {
        return Some(line_of(w.from, e, false, e + 1, w.to));
    }
    read_line(input, buf, w)
}
