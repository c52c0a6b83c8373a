// The saved image of a limiter and its peers: `save` writes it, `load` takes nothing else.
#![tactic(auto)]

pub mod judge;
pub mod room;
pub mod rows;
mod scan;
mod store;
pub mod words;
pub mod writer;

ghost use Rattle.peers.specs.Peers.State as peer-state;
ghost use Rattle.limiter.specs.State.{tables};
ghost use Rattle.image.specs.Calls as Calls;

use hot::hot_set::HotSet;
use limiter::Limiter;
use peers::peer_demand;
use peers::peer_demand::PeerDemand;
use questions::Refusal;

// The most records that an image has, the settings and the end among them.
const MOST_RECORDS: usize = 2
    + limiter::MAX_KEYS
    + HotSet::MAX_SIZE
    + limiter::MAX_KEYS
    + peer_demand::MAX_PEERS
    + judge::MAX_SNAPSHOT_KEYS
    + judge::MAX_CONTESTED;

// The words of the most records.
const MOST_WORDS: usize = rows::SETTINGS_WORDS
    + judge::KEYS_SIZE
    + judge::HOT_SIZE
    + judge::SHADOWS_SIZE
    + peer_demand::PEERS_SIZE
    + peer_demand::SNAPSHOT_KEYS_SIZE
    + peer_demand::CONTESTED_SIZE
    + rows::END_WORDS;

// The most bytes that an image has, 1,372,566: room for any save.
pub const LARGEST_IMAGE: usize = rows::HEAD * MOST_RECORDS + 8 * MOST_WORDS;

// What a load makes: the limiter, and the peers.
#[derive(Clone, Copy)]
pub struct Loaded {
    pub limiter: Limiter,
    pub peers: PeerDemand,
}

// Writes the image of the lent state: how many bytes.
pub fn save(
    limiter: Limiter,
    keys: &[u64],
    hot: &[u64],
    shadows: &[u64],
    peers: PeerDemand,
    peer_table: &[u64],
    snapshot_keys: &[u64],
    contested: &[u64],
    out: &mut [u8],
) -> Result<usize, Refusal>
    ensures { Calls.Saves limiter (tables keys.now hot.now shadows.now) peers (peer-state.tables peer_table.now snapshot_keys.now contested.now)
        out.old result out.new }
{
    let here = limiter.ask(keys, hot, shadows);
    let there = peers.ask(peer_table, snapshot_keys, contested);
    writer::save_asked(
        Refusal::first(here, there),
        limiter,
        keys,
        hot,
        shadows,
        peers,
        peer_table,
        snapshot_keys,
        contested,
        out,
    )
}

// Makes the limiter and the peers of an image, in tables that may hold anything. The image is judged
// before the first word is stored.
pub fn load(
    image: &[u8],
    keys: &mut [u64],
    hot: &mut [u64],
    shadows: &mut [u64],
    peer_table: &mut [u64],
    snapshot_keys: &mut [u64],
    contested: &mut [u64],
) -> Result<Loaded, Refusal>
    ensures { Calls.Loads image.now (tables keys.old hot.old shadows.old)
        (peer-state.tables peer_table.old snapshot_keys.old contested.old) result (tables keys.new hot.new shadows.new)
        (peer-state.tables peer_table.new snapshot_keys.new contested.new) }
{
    if !room::has_room(
        image,
        keys.len(),
        hot.len(),
        shadows.len(),
        peer_table.len(),
        snapshot_keys.len(),
        contested.len(),
    ) {
        return Err(Refusal::ShortBuffer);
    }
    let found = scan::scan(image);
    let loaded = judge::judge(image, found)?;
    store::store(
        image,
        found,
        keys,
        hot,
        shadows,
        peer_table,
        snapshot_keys,
        contested,
    );
    Ok(loaded)
}
