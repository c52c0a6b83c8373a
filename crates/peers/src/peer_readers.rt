// What the peers said: of one peer and one key, of all peers, of many keys, and how many keys there are.
ghost use Rattle.std.specs.Prelude.{◌≡◌, ℕ, ◌+◌, ◌*◌, ◌<◌, ◌≤◌, true, length, slice_index};
ghost use Rattle.peers.specs.Peers.State.{PeersState, tables, state_of};
ghost use Rattle.peers.specs.Peers.Steps.Heard.{counted, own_keys, StateReady, Own, Readable};
ghost use Rattle.peers.specs.Peers.Calls.{Gets, Totals, TellsHotElsewhere, Counts, TellsEmpty};
ghost use Rattle.peers.specs.Peers.Calls.{TotalsEach, TellsHotElsewhereEach};
ghost use Rattle.peers.specs.Peers.Readers.{told};
ghost use Rattle.records.specs.Records.{fits};
ghost use Rattle.peers.specs.Peers.Readers as readers;

use crate::boundary::PeerId;
use crate::peer_demand::{CONTESTED_WORDS, Heard, PEER_WORDS, PeerDemand, SNAPSHOT_KEY_WORDS};
use crate::peer_each::Keys;
use crate::peer_state::KeyStarts;
use crate::{peer_heard, peer_state};
use questions::Refusal;

// Where the keys of one peer are in both tables of keys: from one place up to another.
#[derive(Clone, Copy)]
pub(crate) struct OwnKeys {
    pub(crate) snapshot_from: usize,
    pub(crate) snapshot_to: usize,
    pub(crate) contested_from: usize,
    pub(crate) contested_to: usize,
}

impl KeyStarts {
    // Those of peer i.
    fn own_keys(&self, i: usize) -> OwnKeys
        requires { i < 32 }
        ensures { result ≡ own_keys self.now.snapshot_keys self.now.contested i }
    {
        OwnKeys {
            snapshot_from: usize::from(self.snapshot_keys[i]),
            snapshot_to: usize::from(self.snapshot_keys[i + 1]),
            contested_from: usize::from(self.contested[i]),
            contested_to: usize::from(self.contested[i + 1]),
        }
    }
}

impl PeerDemand {
    // What the peer of record i said about `key`.
    fn heard_from(
        self,
        peers: &[u64],
        snapshot_keys: &[u64],
        contested: &[u64],
        i: usize,
        key: u64,
    ) -> Option<Heard>
        requires state_ready { StateReady self (tables peers.now snapshot_keys.now contested.now) }
        requires i_lt_peers { i < self.peers }
        ensures { result ≡ readers.heard (slice_index peers.now (i * 12)) key
            (state_of self (tables peers.now snapshot_keys.now contested.now)) }
    {
        let at = i * PEER_WORDS;
        let id = peers[at];
        let taken = peer_heard::heard_taken(
            snapshot_keys,
            self.snapshot_keys,
            id,
            key,
            peers[at + 3],
            peers[at + 5],
            peers[at + 6],
        );
        let other = peer_heard::heard_contested(contested, self.contested, id, key);
        peer_heard::join(taken, other)
    }

    // The same, looked for among the keys of that peer alone.
    fn heard_among_own(
        self,
        peers: &[u64],
        snapshot_keys: &[u64],
        contested: &[u64],
        own: OwnKeys,
        i: usize,
        key: u64,
    ) -> Option<Heard>
        requires state_ready { StateReady self (tables peers.now snapshot_keys.now contested.now) }
        requires own { Own self (tables peers.now snapshot_keys.now contested.now) i own }
        requires i_lt_peers { i < self.peers }
        ensures { result ≡ readers.heard (slice_index peers.now (i * 12)) key
            (state_of self (tables peers.now snapshot_keys.now contested.now)) }
    {
        let k = own.snapshot_from;
        let k_end = own.snapshot_to;
        let c = own.contested_from;
        let c_end = own.contested_to;
        let alone = PeerDemand {
            snapshot_keys: k_end - k,
            contested: c_end - c,
            ..self
        };
        alone.heard_from(
            peers,
            &snapshot_keys[k * SNAPSHOT_KEY_WORDS..k_end * SNAPSHOT_KEY_WORDS],
            &contested[c * CONTESTED_WORDS..c_end * CONTESTED_WORDS],
            i,
            key,
        )
    }

    // What the peer with this id said about `key`.
    fn heard_by(
        self,
        peers: &[u64],
        snapshot_keys: &[u64],
        contested: &[u64],
        id: u64,
        key: u64,
    ) -> Option<Heard>
        requires { StateReady self (tables peers.now snapshot_keys.now contested.now) }
        ensures { result ≡ readers.heard id key (state_of self (tables peers.now snapshot_keys.now contested.now)) }
    {
        match records::find(peers, PEER_WORDS, 1, self.peers, id, 0) {
            records::Found::At(i) => self.heard_from(peers, snapshot_keys, contested, i, key),
            _ => None,
        }
    }

    // The sum of what all peers said about `key`.
    fn sum_heard(
        self,
        peers: &[u64],
        snapshot_keys: &[u64],
        contested: &[u64],
        starts: &KeyStarts,
        key: u64,
    ) -> f64
        requires { Readable self (tables peers.now snapshot_keys.now contested.now) starts.now }
        ensures { result ≡ readers.total key (state_of self (tables peers.now snapshot_keys.now contested.now)) }
    {
        let mut sum = 0.0;
        for i in 0..self.peers {
            let own = starts.own_keys(i);
            let said = self.heard_among_own(peers, snapshot_keys, contested, own, i, key);
            sum = peer_heard::add_heard(sum, said);
        }
        sum
    }

    // Whether a peer has `key` as primary, of a valid state.
    fn is_primary_of_any(
        self,
        peers: &[u64],
        snapshot_keys: &[u64],
        contested: &[u64],
        starts: &KeyStarts,
        key: u64,
    ) -> bool
        requires { Readable self (tables peers.now snapshot_keys.now contested.now) starts.now }
        ensures { result ≡ readers.hot_elsewhere key (state_of self (tables peers.now snapshot_keys.now contested.now)) }
    {
        for i in 0..self.peers {
            let own = starts.own_keys(i);
            let said = self.heard_among_own(peers, snapshot_keys, contested, own, i, key);
            if peer_heard::is_primary(said) {
                return true;
            }
        }
        false
    }

    // How many keys are known: those of the snapshots, and those that are contested alone.
    fn count_keys(self, peers: &[u64], snapshot_keys: &[u64], contested: &[u64]) -> usize
        requires { StateReady self (tables peers.now snapshot_keys.now contested.now) }
        ensures { result ≡ counted (state_of self (tables peers.now snapshot_keys.now contested.now)) }
    {
        let n = self.snapshot_keys;
        let m = self.contested;
        let mut count = n;
        for i in 0..m {
            count += peer_heard::count_unlisted(snapshot_keys, n, contested, i);
        }
        count
    }

    // The word of a peer on a key, if there is one.
    pub fn get(
        self,
        peers: &[u64],
        snapshot_keys: &[u64],
        contested: &[u64],
        peer: PeerId,
        key: u64,
    ) -> Result<Option<Heard>, Refusal>
        ensures { Gets self (tables peers.now snapshot_keys.now contested.now) peer.0 key result }
    {
        self.ask(peers, snapshot_keys, contested)?;
        Ok(self.heard_by(peers, snapshot_keys, contested, peer.0, key))
    }

    // The sum of the peers' demand for a key, in ascending id.
    pub fn total(
        self,
        peers: &[u64],
        snapshot_keys: &[u64],
        contested: &[u64],
        key: u64,
    ) -> Result<f64, Refusal>
        ensures { Totals self (tables peers.now snapshot_keys.now contested.now) key result }
    {
        let keys = [key];
        let mut out = [0.0];
        self.total_of_each(peers, snapshot_keys, contested, &keys, 1, 1, &mut out)?;
        Ok(out[0])
    }

    // Whether a peer has the key as primary.
    pub fn hot_elsewhere(
        self,
        peers: &[u64],
        snapshot_keys: &[u64],
        contested: &[u64],
        key: u64,
    ) -> Result<bool, Refusal>
        ensures { TellsHotElsewhere self (tables peers.now snapshot_keys.now contested.now) key result }
    {
        let keys = [key];
        let mut out = [false];
        self.hot_elsewhere_of_each(peers, snapshot_keys, contested, &keys, 1, 1, &mut out)?;
        Ok(out[0])
    }

    // The total of the key, the first word, of each of n records of w words, for one test of the tables.
    pub fn total_of_each(
        self,
        peers: &[u64],
        snapshot_keys: &[u64],
        contested: &[u64],
        keys: &[u64],
        w: usize,
        n: usize,
        out: &mut [f64],
    ) -> Result<(), Refusal>
        ensures { TotalsEach self (tables peers.now snapshot_keys.now contested.now) w n keys.now out.old result
            out.new }
    {
        let asked = self.ask_for_starts(peers, snapshot_keys, contested);
        let starts = peer_state::ask_for_each(asked, keys.len(), w, n, out.len())?;
        let keys = Keys {
            words: keys,
            width: w,
            count: n,
        };
        keys.tell_each(out, |key| {
            self.sum_heard(peers, snapshot_keys, contested, &starts, key)
        });
        Ok(())
    }

    // Whether a peer has the key, the first word, of each of n records of w words as primary, for one
    // test of the tables.
    pub fn hot_elsewhere_of_each(
        self,
        peers: &[u64],
        snapshot_keys: &[u64],
        contested: &[u64],
        keys: &[u64],
        w: usize,
        n: usize,
        out: &mut [bool],
    ) -> Result<(), Refusal>
        ensures { TellsHotElsewhereEach self (tables peers.now snapshot_keys.now contested.now) w n keys.now out.old result
            out.new }
    {
        let asked = self.ask_for_starts(peers, snapshot_keys, contested);
        let starts = peer_state::ask_for_each(asked, keys.len(), w, n, out.len())?;
        let keys = Keys {
            words: keys,
            width: w,
            count: n,
        };
        if keys.are_many_ascending() {
            keys.primary_of_ascending(
                snapshot_keys,
                self.snapshot_keys,
                contested,
                self.contested,
                out,
            );
            return Ok(());
        }
        keys.tell_each(out, |key| {
            self.is_primary_of_any(peers, snapshot_keys, contested, &starts, key)
        });
        Ok(())
    }

    // How many keys there are a word on, counted peer by peer.
    pub fn len(
        self,
        peers: &[u64],
        snapshot_keys: &[u64],
        contested: &[u64],
    ) -> Result<usize, Refusal>
        ensures { Counts self (tables peers.now snapshot_keys.now contested.now) result }
    {
        self.ask(peers, snapshot_keys, contested)?;
        Ok(self.count_keys(peers, snapshot_keys, contested))
    }

    // Whether there are none.
    pub fn is_empty(
        self,
        peers: &[u64],
        snapshot_keys: &[u64],
        contested: &[u64],
    ) -> Result<bool, Refusal>
        ensures { TellsEmpty self (tables peers.now snapshot_keys.now contested.now) result }
    {
        let n = self.len(peers, snapshot_keys, contested)?;
        Ok(n == 0)
    }
}
