// The saved image.
ghost use Rattle.std.specs.Prelude.{◌≤◌, length};
ghost use Rattle.peers.specs.Peers.State as peer-state;
ghost use Rattle.limiter.specs.State.{tables};
ghost use Rattle.nultiway.specs.ImageCalls.{PutLoaded};
ghost use Rattle.nultiway.specs.ImageCalls as Calls;
ghost use Rattle.questions.specs.Refusals.{answer_of};

use crate::answers::put_answer;
use crate::values::{
    LIMITER_WORDS, PEERS_WORDS, are_long, ask_limiter, limiter_of, peers_have_room, peers_of,
    put_limiter, put_peers,
};
use image::Loaded;
use questions::Refusal;

// Writes what a load makes: the number of a 'no', or 0.
fn put_loaded(limiter: &mut [u64], peers: &mut [u64], said: Result<Loaded, Refusal>) -> u8
    requires { (16 ≤ length limiter.old) × (3 ≤ length peers.old) }
    ensures { PutLoaded (answer_of said) limiter.old peers.old result
        limiter.new peers.new }
{
    match said {
        Err(no) => no.number(),
        Ok(loaded) => {
            put_limiter(limiter, loaded.limiter);
            put_peers(peers, loaded.peers);
            0
        }
    }
}

// Writes the image of a limiter and its peers to `out`, and tells how many bytes it has.
#[unsafe(no_mangle)]
pub extern "C" fn nultiway_save(
    limiter: &[u64],
    keys: &[u64],
    hot: &[u64],
    shadows: &[u64],
    peers: &[u64],
    peer_table: &[u64],
    snapshot_keys: &[u64],
    contested: &[u64],
    out: &mut [u8],
    answer: &mut [u64],
) -> u8
    ensures { Calls.Save limiter.now (tables keys.now hot.now shadows.now) peers.now
        (peer-state.tables peer_table.now snapshot_keys.now contested.now) out.old
        answer.old result out.new answer.new }
{
    let room = peers_have_room(
        1 <= answer.len(),
        peers.len(),
        peer_table.len(),
        snapshot_keys.len(),
        contested.len(),
    );
    let no = ask_limiter(limiter, keys.len(), hot.len(), shadows.len(), room);
    if no != 0 {
        return no;
    }
    let l = limiter_of(limiter);
    let p = peers_of(peers);
    let said = image::save(
        l,
        keys,
        hot,
        shadows,
        p,
        peer_table,
        snapshot_keys,
        contested,
        out,
    );
    put_answer(answer, said)
}

// Makes the limiter and the peers that an image was saved of, in tables that may hold anything.
#[unsafe(no_mangle)]
pub extern "C" fn nultiway_load(
    image: &[u8],
    limiter: &mut [u64],
    keys: &mut [u64],
    hot: &mut [u64],
    shadows: &mut [u64],
    peers: &mut [u64],
    peer_table: &mut [u64],
    snapshot_keys: &mut [u64],
    contested: &mut [u64],
) -> u8
    ensures { Calls.Load image.now limiter.old (tables keys.old hot.old shadows.old)
        peers.old (peer-state.tables peer_table.old snapshot_keys.old contested.old) result
        limiter.new (tables keys.new hot.new shadows.new) peers.new
        (peer-state.tables peer_table.new snapshot_keys.new contested.new) }
{
    if !are_long(limiter.len(), LIMITER_WORDS, peers.len(), PEERS_WORDS) {
        return 1;
    }
    let said = image::load(
        image,
        keys,
        hot,
        shadows,
        peer_table,
        snapshot_keys,
        contested,
    );
    put_loaded(limiter, peers, said)
}
