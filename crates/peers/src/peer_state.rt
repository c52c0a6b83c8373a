// The peers' state in its lent tables: room, validity, and the questions that the calls on it ask first.
ghost use Rattle.std.specs.Prelude.{◌≡◌, true, is_some, IfSome};
ghost use Rattle.peers.specs.Peers.State.{tables, lengths, have_room, is_valid};
ghost use Rattle.peers.specs.Peers.Steps.Heard.{Started, Asked, EachAsked};
ghost use Rattle.peers.specs.Peers.Calls.{Asks, IsNew};
ghost use Rattle.questions.specs.Refusals.{asked};

use crate::peer_demand::{
    CONTESTED_SIZE, CONTESTED_WORDS, MAX_CONTESTED, MAX_DEMAND_KEYS, PEERS_SIZE, PeerDemand,
    SNAPSHOT_KEY_WORDS, SNAPSHOT_KEYS_SIZE, STARTS,
};
use crate::peer_scan;
use questions::Refusal;

// Where the keys of each peer start in both tables of keys, and after all peers where the last one's
// keys end. A table has at most 8,192 keys, and numbers of 16 bits make a value that is soon copied.
#[derive(Clone, Copy)]
pub(crate) struct KeyStarts {
    pub(crate) snapshot_keys: [u16; STARTS],
    pub(crate) contested: [u16; STARTS],
}

// Whether the lent tables are long enough.
#[tactic(auto, unfolding(crate::specs::Peers::State::lengths, crate::specs::Peers::State::have_room))]
fn has_room(peers: &[u64], snapshot_keys: &[u64], contested: &[u64]) -> bool
    ensures { result ≡ have_room (lengths (tables peers.now snapshot_keys.now contested.now)) }
{
    PEERS_SIZE <= peers.len()
        && SNAPSHOT_KEYS_SIZE <= snapshot_keys.len()
        && CONTESTED_SIZE <= contested.len()
}

// Questions 1, 2 and 16 of a call on the keys of n records of w words, which are within `len` words;
// `starts` answers the state's questions 1 and 2.
pub(crate) fn ask_for_each(
    starts: Result<KeyStarts, Refusal>,
    len: usize,
    w: usize,
    n: usize,
    room: usize,
) -> Result<KeyStarts, Refusal>
    ensures { EachAsked starts len w n room result }
{
    if !records::fits(len, w, n) {
        return Err(Refusal::ShortBuffer);
    }
    let starts = starts?;
    if room < n {
        return Err(Refusal::ShortOutput);
    }
    Ok(starts)
}

impl PeerDemand {
    // Where the keys of each peer start, if the state could stand in a valid image.
    fn starts(self, peers: &[u64], snapshot_keys: &[u64], contested: &[u64]) -> Option<KeyStarts>
        requires room { have_room (lengths (tables peers.now snapshot_keys.now contested.now)) ≡ true }
        ensures value { is_some result ≡ is_valid self (tables peers.now snapshot_keys.now contested.now) }
        ensures started { IfSome result (λ starts. Started self (tables peers.now snapshot_keys.now contested.now) starts) }
    {
        let p = self.peers;
        if !peer_scan::are_peers(peers, p) {
            return None;
        }
        Some(KeyStarts {
            snapshot_keys: peer_scan::are_keys(
                snapshot_keys,
                SNAPSHOT_KEY_WORDS,
                self.snapshot_keys,
                peers,
                p,
                1,
                MAX_DEMAND_KEYS,
            )?,
            contested: peer_scan::are_keys(
                contested,
                CONTESTED_WORDS,
                self.contested,
                peers,
                p,
                0,
                MAX_CONTESTED,
            )?,
        })
    }

    // Questions 1 and 2, with the starts of the peers' keys.
    pub(crate) fn ask_for_starts(
        self,
        peers: &[u64],
        snapshot_keys: &[u64],
        contested: &[u64],
    ) -> Result<KeyStarts, Refusal>
        ensures { Asked self (tables peers.now snapshot_keys.now contested.now) result }
    {
        if !has_room(peers, snapshot_keys, contested) {
            return Err(Refusal::ShortBuffer);
        }
        self.starts(peers, snapshot_keys, contested)
            .ok_or(Refusal::Invalid)
    }

    // Questions 1 and 2.
    pub fn ask(self, peers: &[u64], snapshot_keys: &[u64], contested: &[u64]) -> Result<(), Refusal>
        ensures { Asks self (tables peers.now snapshot_keys.now contested.now) (asked result) }
    {
        self.ask_for_starts(peers, snapshot_keys, contested)?;
        Ok(())
    }

    // A state without peers.
    pub fn new(
        peers: &[u64],
        snapshot_keys: &[u64],
        contested: &[u64],
    ) -> Result<PeerDemand, Refusal>
        ensures { IsNew (tables peers.now snapshot_keys.now contested.now) result }
    {
        if !has_room(peers, snapshot_keys, contested) {
            return Err(Refusal::ShortBuffer);
        }
        Ok(PeerDemand {
            peers: 0,
            snapshot_keys: 0,
            contested: 0,
        })
    }
}
