// Judges an image before anything of it is stored: its counts, its settings, and its records, which
// are read into tables of their own and tested there.
ghost use Rattle.std.specs.Prelude.{◌≡◌, cond, ◌^◌, ltb, eqb};
ghost use Rattle.questions.specs.Refusals.{asked};
ghost use Rattle.image.specs.Image.{kinds};
ghost use Rattle.image.specs.Reader.{cap_from, sections_first};
ghost use Rattle.image.specs.Steps.{Scans};
ghost use Rattle.image.specs.LoadSteps.{are_few, FewFound, count_in, config_from, Counted, Reads};
ghost use Rattle.image.specs.LoadSteps.{peers_found, limiter_judged, peers_judged, Judges};

use crate::Loaded;
use crate::rows::{Kind, SETTINGS_WORDS, read_table};
use crate::scan::{Sections, is_end};
use crate::writer::settings_words;
use hot::hot_set::HotSet;
use limiter::{Config, HOT_WORDS, KEY_WORDS, Limit, Limiter, MAX_KEYS, SHADOW_WORDS};
use peers::peer_demand;
use peers::peer_demand::PeerDemand;
use questions::Refusal;
use records::{are_same, fields};

// The most snapshot keys, of all peers together.
pub(crate) const MAX_SNAPSHOT_KEYS: usize = peer_demand::MAX_PEERS * peer_demand::MAX_DEMAND_KEYS;

// The most contested keys, of all peers together.
pub(crate) const MAX_CONTESTED: usize = peer_demand::MAX_PEERS * peer_demand::MAX_CONTESTED;

// The words of the most keys.
pub const KEYS_SIZE: usize = KEY_WORDS * MAX_KEYS;

// The words of the most hot entries.
pub const HOT_SIZE: usize = HOT_WORDS * HotSet::MAX_SIZE;

// The words of the most shadows.
pub const SHADOWS_SIZE: usize = SHADOW_WORDS * MAX_KEYS;

// Kind 1 comes once, and the others no more often than a valid state has them.
#[tactic(auto, unfolding(crate::specs::LoadSteps::are_few))]
fn are_few(found: Sections) -> bool
    ensures { result ≡ are_few found }
{
    found.settings.n == 1
        && found.keys.n <= MAX_KEYS
        && found.hot.n <= HotSet::MAX_SIZE
        && found.shadows.n <= MAX_KEYS
        && found.peers.n <= peer_demand::MAX_PEERS
        && found.snapshot_keys.n <= MAX_SNAPSHOT_KEYS
        && found.contested.n <= MAX_CONTESTED
}

// How many records were found.
fn count_in(found: Sections) -> u64
    requires { FewFound found }
    ensures { result ≡ count_in found }
{
    let limiter = found.settings.n + found.keys.n + found.hot.n + found.shadows.n;
    (limiter + found.peers.n + found.snapshot_keys.n + found.contested.n) as u64
}

// A burst of 32 bits; 0, which no limit has, for a greater number.
fn burst_of(word: u64) -> u32
    ensures { result ≡ cond (ltb word (2 ^ 32)) word 0 }
{
    u32::try_from(word).unwrap_or(0)
}

// The cap of its flag and its value.
pub fn cap_of(flag: u64, word: u64) -> Option<f64>
    ensures { result ≡ cap_from flag word }
{
    fields::time_of(flag, word).map(float::from_bits)
}

// The configuration in the words of kind 1.
pub fn config_of(w: [u64; SETTINGS_WORDS]) -> Config
    ensures { result ≡ config_from w }
{
    let limit = Limit {
        rate: float::from_bits(w[0]),
        burst: burst_of(w[1]),
    };
    Config {
        limit,
        alpha: float::from_bits(w[2]),
        floor_factor: float::from_bits(w[3]),
        cooldown: w[4],
        hot_set_size: w[5] as usize,
        max_tracked_keys: w[6] as usize,
        demand_time_constant: w[7],
        table_size: w[8] as usize,
    }
}

// The limiter of the words of kind 1 and of as many records as were found.
fn limiter_of(w: [u64; SETTINGS_WORDS], found: Sections) -> Limiter
    ensures { Reads w found result }
{
    let config = config_of(w);
    let cap = cap_of(w[9], w[10]);
    let last_tick = fields::time_of(w[11], w[12]);
    Limiter {
        config,
        cap,
        last_tick,
        keys: found.keys.n,
        hot: found.hot.n,
        shadows: found.shadows.n,
    }
}

// Whether every question was answered 'yes'.
fn passed(answer: Result<(), Refusal>) -> bool
    ensures { result ≡ eqb (asked answer) 0 }
{
    answer.is_ok()
}

// Whether the records of keys, hot entries and shadows are valid under the limiter's settings.
fn has_valid_limiter(image: &[u8], found: Sections, limiter: Limiter) -> bool
    requires { Scans image.now found × FewFound found × Counted found limiter }
    ensures { result ≡ limiter_judged limiter (sections_first kinds image.now) }
{
    let mut keys = [0; KEYS_SIZE];
    let mut hot = [0; HOT_SIZE];
    let mut shadows = [0; SHADOWS_SIZE];
    read_table(
        image,
        found.settings.end,
        Kind::Key,
        &mut keys,
        found.keys.n,
    );
    read_table(image, found.keys.end, Kind::Hot, &mut hot, found.hot.n);
    read_table(
        image,
        found.hot.end,
        Kind::Shadow,
        &mut shadows,
        found.shadows.n,
    );
    passed(limiter.ask(&keys, &hot, &shadows))
}

// The same of the records of peers, their snapshot keys and contested keys.
fn has_valid_peers(image: &[u8], found: Sections) -> bool
    requires { Scans image.now found × FewFound found }
    ensures { result ≡ peers_judged (sections_first kinds image.now) }
{
    let mut peers = [0; peer_demand::PEERS_SIZE];
    let mut snapshot_keys = [0; peer_demand::SNAPSHOT_KEYS_SIZE];
    let mut contested = [0; peer_demand::CONTESTED_SIZE];
    read_table(
        image,
        found.shadows.end,
        Kind::Peer,
        &mut peers,
        found.peers.n,
    );
    read_table(
        image,
        found.peers.end,
        Kind::SnapshotKey,
        &mut snapshot_keys,
        found.snapshot_keys.n,
    );
    read_table(
        image,
        found.snapshot_keys.end,
        Kind::Contested,
        &mut contested,
        found.contested.n,
    );
    passed(peers_of(found).ask(&peers, &snapshot_keys, &contested))
}

// As many records of the peers as were found.
fn peers_of(found: Sections) -> PeerDemand
    ensures { result ≡ peers_found found }
{
    PeerDemand {
        peers: found.peers.n,
        snapshot_keys: found.snapshot_keys.n,
        contested: found.contested.n,
    }
}

// Question 13, and what the image makes: nothing is stored.
pub(crate) fn judge(image: &[u8], found: Sections) -> Result<Loaded, Refusal>
    requires { Scans image.now found }
    ensures { Judges image.now result }
{
    if !are_few(found) {
        return Err(Refusal::Image);
    }
    if !is_end(image, found.contested.end, count_in(found)) {
        return Err(Refusal::Image);
    }
    let mut w = [0; SETTINGS_WORDS];
    read_table(image, 0, Kind::Settings, &mut w, found.settings.n);
    let limiter = limiter_of(w, found);
    let again = settings_words(limiter);
    if !are_same(&again, &w) {
        return Err(Refusal::Image);
    }
    if !has_valid_limiter(image, found, limiter) {
        return Err(Refusal::Image);
    }
    if !has_valid_peers(image, found) {
        return Err(Refusal::Image);
    }
    let peers = peers_of(found);
    Ok(Loaded { limiter, peers })
}
