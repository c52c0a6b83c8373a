// What an answer's line shows of the state's image: all its bytes, or length and hash.
use crate::lent::Lent;
use crate::tables::Tables;
use crate::{digits, images, lent};
use limiter::Limiter;
use peers::peer_demand::PeerDemand;
use questions::Refusal;
use std::fmt;
use std::fmt::Write;
use text::Output;

// An image: whole, or its length and hash.
fn put_image(
    rt: &(impl Print + Eprint),
    out: &mut Output,
    whole: bool,
    bytes: &[u8],
) -> fmt::Result {
    if !whole {
        return write!(out, " | {} {:016x}", bytes.len(), digits::hash(bytes));
    }
    out.write_str("image ")?;
    digits::put_bytes(rt, out, bytes)
}

// What a save answers and wrote; where it is refused there is no length and no hash.
fn put_saved(
    rt: &(impl Print + Eprint),
    out: &mut Output,
    whole: bool,
    answer: Result<usize, Refusal>,
    room: &[u8],
) -> fmt::Result {
    match answer {
        Err(question) => {
            if whole {
                write!(out, "no {}", question.number())
            } else {
                Ok(())
            }
        }
        Ok(len) => put_image(rt, out, whole, lent::part(room, len)),
    }
}

// Room for every image.
fn large_room() -> [u8; image::LARGEST_IMAGE] {
    [0; image::LARGEST_IMAGE]
}

// With room for every image.
fn put_large(
    rt: &(impl Print + Eprint),
    out: &mut Output,
    whole: bool,
    limiter: Limiter,
    peers: PeerDemand,
    lent: Lent,
    t: &Tables,
) -> fmt::Result {
    let mut room = large_room();
    let answer = images::save_to(limiter, peers, lent, t, &mut room);
    put_saved(rt, out, whole, answer, &room)
}

// Shows the image of the state. Little room is tried first: there is less to clear.
pub(crate) fn put(
    rt: &(impl Print + Eprint),
    out: &mut Output,
    whole: bool,
    limiter: Limiter,
    peers: PeerDemand,
    lent: Lent,
    t: &Tables,
) -> fmt::Result {
    let mut room = [0u8; 8192];
    let answer = images::save_to(limiter, peers, lent, t, &mut room);
    if matches!(answer, Err(Refusal::ShortOutput)) {
        return put_large(rt, out, whole, limiter, peers, lent, t);
    }
    put_saved(rt, out, whole, answer, &room)
}
