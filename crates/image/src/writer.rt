// Writes the image of a limiter and its peers from their tables.
ghost use Rattle.std.specs.Prelude.{◌≡◌, ◌+◌, ◌≤◌, length};
ghost use Rattle.records.specs.Words.{paste};
ghost use Rattle.questions.specs.Questions.{first_no};
ghost use Rattle.peers.specs.Peers.State as peer-state;
ghost use Rattle.limiter.specs.Calls.{both_questions};
ghost use Rattle.limiter.specs.State.{tables, cap_words, settings_words, settings_of};
ghost use Rattle.image.specs.Steps.{limiter_bytes, limiter_length, LimiterReady, peers_bytes};
ghost use Rattle.image.specs.Steps.{peers_length, PeersReady, Few, count_of, image_length};
ghost use Rattle.image.specs.Calls as Calls;
ghost use Rattle.questions.specs.Refusals.{asked};

use crate::rows::{END_WORDS, Kind, SETTINGS_WORDS, put_table, rows_len};
use limiter::Limiter;
use peers::peer_demand::PeerDemand;
use questions::Refusal;
use records::fields;

// The flag and the value of a cap.
pub fn cap_words(cap: Option<f64>) -> [u64; 2]
    ensures { result ≡ cap_words cap }
{
    fields::time_words(cap.map(float::to_bits))
}

// The words of kind 1.
pub(crate) fn settings_words(limiter: Limiter) -> [u64; SETTINGS_WORDS]
    ensures { result ≡ settings_words (settings_of limiter) }
{
    let config = limiter.config;
    let limit = config.limit;
    let c = cap_words(limiter.cap);
    let t = fields::time_words(limiter.last_tick);
    [
        float::to_bits(limit.rate),
        limit.burst as u64,
        float::to_bits(config.alpha),
        float::to_bits(config.floor_factor),
        config.cooldown,
        config.hot_set_size as u64,
        config.max_tracked_keys as u64,
        config.demand_time_constant,
        config.table_size as u64,
        c[0],
        c[1],
        t[0],
        t[1],
    ]
}

// Writes kinds 1 to 4, and answers where they end.
fn put_limiter(
    out: &mut [u8],
    limiter: Limiter,
    keys: &[u64],
    hot: &[u64],
    shadows: &[u64],
) -> usize
    requires { LimiterReady limiter (tables keys.now hot.now shadows.now) × (limiter_length limiter ≤ length out.old) }
    ensures value { result ≡ limiter_length limiter }
    ensures out_after { out.new ≡ paste 0 (limiter_bytes limiter (tables keys.now hot.now shadows.now)) out.old }
{
    let settings = settings_words(limiter);
    let keys_at = put_table(out, 0, Kind::Settings, &settings, 1);
    let hot_at = put_table(out, keys_at, Kind::Key, keys, limiter.keys);
    let shadows_at = put_table(out, hot_at, Kind::Hot, hot, limiter.hot);
    put_table(out, shadows_at, Kind::Shadow, shadows, limiter.shadows)
}

// Writes kinds 5 to 7 at index at on, and answers where they end.
fn put_peers(
    out: &mut [u8],
    at: usize,
    peers: PeerDemand,
    peer_table: &[u64],
    snapshot_keys: &[u64],
    contested: &[u64],
) -> usize
    requires { PeersReady peers (peer-state.tables peer_table.now snapshot_keys.now contested.now)
        × (at + peers_length peers ≤ length out.old) }
    ensures value { result ≡ at + peers_length peers }
    ensures out_after { out.new
        ≡ paste at (peers_bytes peers (peer-state.tables peer_table.now snapshot_keys.now contested.now)) out.old }
{
    let keys_at = put_table(out, at, Kind::Peer, peer_table, peers.peers);
    let contested_at = put_table(
        out,
        keys_at,
        Kind::SnapshotKey,
        snapshot_keys,
        peers.snapshot_keys,
    );
    put_table(
        out,
        contested_at,
        Kind::Contested,
        contested,
        peers.contested,
    )
}

// How many records come before the end.
fn record_count(limiter: Limiter, peers: PeerDemand) -> u64
    requires { Few limiter peers }
    ensures { result ≡ count_of limiter peers }
{
    let n = 1 + limiter.keys + limiter.hot + limiter.shadows;
    (n + peers.peers + peers.snapshot_keys + peers.contested) as u64
}

// How many bytes the image has.
fn image_len(limiter: Limiter, peers: PeerDemand) -> usize
    requires { Few limiter peers }
    ensures { result ≡ image_length limiter peers }
{
    rows_len(Kind::Settings, 1)
        + rows_len(Kind::Key, limiter.keys)
        + rows_len(Kind::Hot, limiter.hot)
        + rows_len(Kind::Shadow, limiter.shadows)
        + rows_len(Kind::Peer, peers.peers)
        + rows_len(Kind::SnapshotKey, peers.snapshot_keys)
        + rows_len(Kind::Contested, peers.contested)
        + rows_len(Kind::End, 1)
}

// Writes the image where questions 1 and 2, as they were answered, were passed and it fits.
pub(crate) fn save_asked(
    answer: Result<(), Refusal>,
    limiter: Limiter,
    keys: &[u64],
    hot: &[u64],
    shadows: &[u64],
    peers: PeerDemand,
    peer_table: &[u64],
    snapshot_keys: &[u64],
    contested: &[u64],
    out: &mut [u8],
) -> Result<usize, Refusal>
    requires { asked answer
        ≡ first_no (both_questions limiter (tables keys.now hot.now shadows.now) peers (peer-state.tables peer_table.now snapshot_keys.now contested.now)) }
    ensures { Calls.Saves limiter (tables keys.now hot.now shadows.now) peers (peer-state.tables peer_table.now snapshot_keys.now contested.now)
        out.old result out.new }
{
    answer?;
    let len = image_len(limiter, peers);
    if out.len() < len {
        return Err(Refusal::ShortOutput);
    }
    let at = put_limiter(out, limiter, keys, hot, shadows);
    let end = put_peers(out, at, peers, peer_table, snapshot_keys, contested);
    let count: [u64; END_WORDS] = [record_count(limiter, peers)];
    put_table(out, end, Kind::End, &count, 1);
    Ok(len)
}
