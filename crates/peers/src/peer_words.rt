// Whether the words of one record of the peers could stand in a valid image.
ghost use Rattle.std.specs.Prelude.{◌≡◌};
ghost use Rattle.peers.specs.Peers.Words.{is_peer_record, is_snapshot_key_record, is_contested_record};

use crate::peer_demand::{CONTESTED_WORDS, PEER_WORDS, SNAPSHOT_KEY_WORDS};
use crate::peer_scan;

// Whether the words are those of a valid peer.
pub fn is_peer_record(words: &[u64]) -> bool
    ensures { result ≡ is_peer_record words.now }
{
    words.len() == PEER_WORDS && peer_scan::are_peer_words(words)
}

// Whether the words are those of a valid snapshot key.
pub fn is_snapshot_key_record(words: &[u64]) -> bool
    ensures { result ≡ is_snapshot_key_record words.now }
{
    words.len() == SNAPSHOT_KEY_WORDS && peer_scan::are_key_words(words)
}

// Whether the words are those of a valid contested key.
pub fn is_contested_record(words: &[u64]) -> bool
    ensures { result ≡ is_contested_record words.now }
{
    words.len() == CONTESTED_WORDS && peer_scan::are_key_words(words)
}
