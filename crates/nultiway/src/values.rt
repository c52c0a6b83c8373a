// Values in lent words: how each is written and read back, and which words are no value.
ghost use Rattle.std.specs.Prelude.{◌≡◌, ◌&&◌, ◌<◌, ◌≤◌, leb, length, take};
ghost use Rattle.records.specs.Words.{paste};
ghost use Rattle.questions.specs.Questions.{first_no};
ghost use Rattle.nultiway.specs.Values.{limiter_words, limiter_of, is_limiter, limiter_asked};
ghost use Rattle.nultiway.specs.Values.{peers_words, peers_of, peers_room};

use crate::answers::{Lent, config_words};
use image::judge::{cap_of, config_of};
use image::room::peers_fit;
use image::rows::SETTINGS_WORDS;
use image::writer::cap_words;
use limiter::{Limiter, have_room};
use peers::peer_demand::PeerDemand;
use records::{are_same, fields};

// The words of a limiter: its settings, and how many key, hot and shadow records are in use.
pub const LIMITER_WORDS: usize = SETTINGS_WORDS + 3;

// The last of the settings' words: whether there was a tick, and the last tick's time.
const WAS_TICK: usize = SETTINGS_WORDS - 2;

pub const LAST_TICK: usize = SETTINGS_WORDS - 1;

const KEYS_AT: usize = SETTINGS_WORDS;

const HOT_AT: usize = SETTINGS_WORDS + 1;

const SHADOWS_AT: usize = SETTINGS_WORDS + 2;

// The words of the peers.
pub const PEERS_WORDS: usize = 3;

// Writes the words of `from` at the front of `to`.
pub(crate) fn put(to: &mut [u64], from: &[u64])
    requires { length from.now ≤ length to.old }
    ensures { to.new ≡ paste 0 from.now to.old }
{
    to[..from.len()].copy_from_slice(from);
}

// Whether two buffers of a fixed size have their words.
pub(crate) fn are_long(first: usize, least: usize, second: usize, least_second: usize) -> bool
    ensures { result ≡ (leb least first && leb least_second second) }
{
    least <= first && least_second <= second
}

// ---- the limiter

// The words of its settings.
fn settings_in(words: &[u64]) -> [u64; SETTINGS_WORDS]
    requires { 16 ≤ length words.now }
    ensures { result ≡ take 13 words.now }
{
    let mut w = [0; SETTINGS_WORDS];
    put(&mut w, &words[..SETTINGS_WORDS]);
    w
}

// The limiter that the words stand for.
pub(crate) fn limiter_of(words: &[u64]) -> Limiter
    requires { 16 ≤ length words.now }
    ensures { result ≡ limiter_of words.now }
{
    let w = settings_in(words);
    let config = config_of(w);
    let cap = cap_of(w[9], w[10]);
    let last_tick = fields::time_of(w[WAS_TICK], w[LAST_TICK]);
    Limiter {
        config,
        cap,
        last_tick,
        keys: words[KEYS_AT] as usize,
        hot: words[HOT_AT] as usize,
        shadows: words[SHADOWS_AT] as usize,
    }
}

// The words of a limiter.
pub(crate) fn limiter_words(limiter: Limiter) -> [u64; LIMITER_WORDS]
    ensures { result ≡ limiter_words limiter }
{
    let w = config_words(limiter.config);
    let c = cap_words(limiter.cap);
    let t = fields::time_words(limiter.last_tick);
    [
        w[0],
        w[1],
        w[2],
        w[3],
        w[4],
        w[5],
        w[6],
        w[7],
        w[8],
        c[0],
        c[1],
        t[0],
        t[1],
        limiter.keys as u64,
        limiter.hot as u64,
        limiter.shadows as u64,
    ]
}

// Whether the words are those of the limiter that they stand for.
fn is_limiter(words: &[u64], limiter: Limiter) -> bool
    requires { (16 ≤ length words.now) × (limiter ≡ limiter_of words.now) }
    ensures { result ≡ is_limiter words.now }
{
    let again = limiter_words(limiter);
    are_same(&again, &words[..LIMITER_WORDS])
}

// Question 1: are the limiter's words there, are its tables long enough for the sizes in them, and
// have the other buffers room? Question 2: are the words a limiter's? The first that is answered
// 'no', 0 where none is.
pub(crate) fn ask_limiter(words: &[u64], keys: usize, hot: usize, shadows: usize, room: bool) -> u8
    ensures { result ≡ first_no
        (limiter_asked words.now (record { keys = keys; hot = hot; shadows = shadows })
        room) }
{
    if words.len() < LIMITER_WORDS {
        return 1;
    }
    if !room {
        return 1;
    }
    let limiter = limiter_of(words);
    let config = limiter.config;
    if !have_room(config.table_size, config.hot_set_size, keys, hot, shadows) {
        return 1;
    }
    if !is_limiter(words, limiter) {
        return 2;
    }
    0
}

// Writes a limiter's words.
pub(crate) fn put_limiter(words: &mut [u64], limiter: Limiter)
    requires { 16 ≤ length words.old }
    ensures { words.new ≡ paste 0 (limiter_words limiter) words.old }
{
    put(words, &limiter_words(limiter));
}

// ---- the peers, of which any three words are a value

// The peers that the words stand for.
pub(crate) fn peers_of(words: &[u64]) -> PeerDemand
    requires { 3 ≤ length words.now }
    ensures { result ≡ peers_of words.now }
{
    PeerDemand {
        peers: words[0] as usize,
        snapshot_keys: words[1] as usize,
        contested: words[2] as usize,
    }
}

// Whether the other buffers have room, the peers their words, and their tables theirs.
pub(crate) fn peers_have_room(
    room: bool,
    words: usize,
    peers: usize,
    snapshot_keys: usize,
    contested: usize,
) -> bool
    ensures { result ≡ (room
        && peers_room words
        (record { peers = peers; snapshot_keys = snapshot_keys; contested = contested })) }
{
    room && PEERS_WORDS <= words && peers_fit(peers, snapshot_keys, contested)
}

// Writes the peers' words.
pub(crate) fn put_peers(words: &mut [u64], peers: PeerDemand)
    requires { 3 ≤ length words.old }
    ensures { words.new ≡ paste 0 (peers_words peers) words.old }
{
    put(words, &peers.words());
}
