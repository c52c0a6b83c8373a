// The calls that save and load the image of limiter and peers. One image is kept: the first bytes
// of a buffer, as many as the session says.
use crate::answers::{Answer, Done, Value};
use crate::calls::Name;
use crate::fields::Args;
use crate::lent::Lent;
use crate::session::Session;
use crate::tables::{Kept, Tables};
use crate::{answers, digits, lent, session};
use image::Loaded;
use limiter::Limiter;
use peers::peer_demand::PeerDemand;
use questions::Refusal;

// Saves limiter and peers.
pub(crate) fn save_to(
    limiter: Limiter,
    peers: PeerDemand,
    lent: Lent,
    t: &Tables,
    out: &mut [u8],
) -> Result<usize, Refusal> {
    image::save(
        limiter,
        lent::part(&t.keys, lent.keys),
        lent::part(&t.hot_keys, lent.hot),
        lent::part(&t.shadows, lent.shadows),
        peers,
        lent::part(&t.peers, lent.peers),
        lent::part(&t.snapshots, lent.snapshots),
        lent::part(&t.contested, lent.contested),
        out,
    )
}

// After a save into the image that is kept: its length and its hash.
fn of_save(answer: Result<usize, Refusal>, s: Session, kept: &[u8]) -> Done<Session> {
    match answer {
        Err(question) => Done::said(Value::Refused(question), s),
        Ok(len) => {
            let image = lent::part(kept, len);
            Done {
                answer: answers::three(
                    Value::Image,
                    Value::from(image.len()),
                    Value::Hash(digits::hash(image)),
                ),
                state: session::keeping(s, image.len()),
            }
        }
    }
}

// After a load.
fn of_load(answer: Result<Loaded, Refusal>, s: Session) -> Done<Session> {
    match answer {
        Err(question) => Done::said(Value::Refused(question), s),
        Ok(loaded) => session::made(loaded.limiter, loaded.peers, s),
    }
}

// Loads an image.
fn load(from: &[u8], s: Session, t: &mut Tables) -> Done<Session> {
    let lent = s.lent;
    let Tables {
        keys,
        hot_keys,
        shadows,
        peers,
        snapshots,
        contested,
        ..
    } = t;
    let answer = image::load(
        from,
        lent::part_mut(keys, lent.keys),
        lent::part_mut(hot_keys, lent.hot),
        lent::part_mut(shadows, lent.shadows),
        lent::part_mut(peers, lent.peers),
        lent::part_mut(snapshots, lent.snapshots),
        lent::part_mut(contested, lent.contested),
    );
    of_load(answer, s)
}

// What a call comes to: its answer; or, where it loads, an image of so many bytes that is still to be
// loaded.
#[derive(Clone, Copy)]
enum Step {
    Answered(Done<Session>),
    Loading(usize, Session),
}

fn answered(value: Value, s: Session) -> Step {
    Step::Answered(Done::said(value, s))
}

// The bytes that a line spells from there to its end are put at its front, to be loaded.
fn spelled(line: &mut [u8], from: usize, s: Session) -> Step {
    match digits::decode(line, from) {
        None => answered(Value::Unknown, s),
        Some(len) => Step::Loading(len, s),
    }
}

// The image that a save kept is to be loaded.
fn saved(answer: Result<usize, Refusal>, s: Session) -> Step {
    match answer {
        Err(question) => answered(Value::Refused(question), s),
        Ok(len) => Step::Loading(len, session::keeping(s, len)),
    }
}

// The room that a save has in the image that is kept.
fn room_of(name: Name, args: Args) -> usize {
    if name == Name::Save {
        args.first as usize
    } else {
        usize::MAX
    }
}

// A call that saves into the image that is kept, or shows it. A dump is written with its answer.
fn save(name: Name, args: Args, s: Session, t: &Tables, kept: &mut [u8]) -> Step {
    let Some((limiter, peers)) = session::both(s) else {
        return answered(Value::NoState, s);
    };
    if name == Name::Dump {
        return answered(Value::Dump, s);
    }
    let answer = save_to(
        limiter,
        peers,
        s.lent,
        t,
        lent::part_mut(kept, room_of(name, args)),
    );
    if name == Name::Reload {
        return saved(answer, s);
    }
    Step::Answered(of_save(answer, s, kept))
}

// A call up to its load.
fn step_of(
    line: &mut [u8],
    name: Name,
    args: Args,
    s: Session,
    t: &Tables,
    kept: &mut Kept,
) -> Step {
    if name == Name::Load {
        return Step::Loading(s.kept, s);
    }
    if name == Name::LoadHex {
        return spelled(line, args.next, s);
    }
    save(name, args, s, t, kept)
}

// A call on images. The line may be overwritten. The load is called from two places, so that the compiler
// keeps its large frame out of those of the callers.
pub(crate) fn change(
    line: &mut [u8],
    name: Name,
    args: Args,
    s: Session,
    t: &mut Tables,
    kept: &mut Kept,
) -> Done<Session> {
    let step = step_of(line, name, args, s, t, kept);
    let (len, after) = match step {
        Step::Answered(done) => return done,
        Step::Loading(len, after) => (len, after),
    };
    if name == Name::LoadHex {
        return load(lent::part(line, len), after, t);
    }
    load(lent::part(kept, len), after, t)
}
