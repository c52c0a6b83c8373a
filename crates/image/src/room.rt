// Question 1 of a load: the sizes are those of the image's kind 1, where it can be read.
ghost use Rattle.std.specs.Prelude.{◌≡◌};
ghost use Rattle.image.specs.LoadSteps.{peers_fit, room_for};

use crate::rows::{Kind, begins, record_word};
use peers::peer_demand;

// Where the hot set size stands among the words of kind 1.
const HOT_SET_SIZE: usize = 5;

// Where the table size stands among them.
const TABLE_SIZE: usize = 8;

// Whether tables of the peers with so many words are long enough.
#[tactic(auto, unfolding(peers::specs::Peers::State::have_room))]
pub fn peers_fit(peers: usize, snapshot_keys: usize, contested: usize) -> bool
    ensures { result ≡ peers_fit peers snapshot_keys contested }
{
    peer_demand::PEERS_SIZE <= peers
        && peer_demand::SNAPSHOT_KEYS_SIZE <= snapshot_keys
        && peer_demand::CONTESTED_SIZE <= contested
}

// Whether tables with so many words are long enough for the image; where its sizes can't be read,
// they are.
pub(crate) fn has_room(
    image: &[u8],
    keys: usize,
    hot: usize,
    shadows: usize,
    peers: usize,
    snapshot_keys: usize,
    contested: usize,
) -> bool
    ensures { result ≡ room_for image.now keys hot shadows peers snapshot_keys contested }
{
    if !begins(image, 0, Kind::Settings) {
        return true;
    }
    let table_size = record_word(image, 0, TABLE_SIZE);
    let hot_set_size = record_word(image, 0, HOT_SET_SIZE);
    limiter::have_room(
        table_size as usize,
        hot_set_size as usize,
        keys,
        hot,
        shadows,
    ) && peers_fit(peers, snapshot_keys, contested)
}
