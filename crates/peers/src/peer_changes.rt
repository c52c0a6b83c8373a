// Departures and time: a peer that is forgotten, one that leaves, and what expires.
ghost use Rattle.peers.specs.Peers.State.{tables};
ghost use Rattle.peers.specs.Peers.Calls.{Forgets, Leaves, Expires};
ghost use Rattle.peers.specs.Peers.Steps.Runs.{Becomes};
ghost use Rattle.peers.specs.Peers.Steps.Stays.{Valid};
ghost use Rattle.peers.specs.Peers.Changes as changes;

use crate::boundary::PeerId;
use crate::peer_demand::{
    CONTESTED_WORDS, PEER_WORDS, PeerDemand, PeersChanged, SNAPSHOT_KEY_WORDS,
};
use crate::{peer_runs, peer_steps};

impl PeerDemand {
    // Takes out a peer with all its keys, of a valid state.
    fn forget_peer(
        self,
        peers: &mut [u64],
        snapshot_keys: &mut [u64],
        contested: &mut [u64],
        id: u64,
    ) -> PeerDemand
        requires { Valid self (tables peers.old snapshot_keys.old contested.old) }
        ensures { Becomes (changes.forget id) self (tables peers.old snapshot_keys.old contested.old) result
            (tables peers.new snapshot_keys.new contested.new) }
    {
        let n = peer_runs::replace_run(peers, PEER_WORDS, self.peers, id, &[]);
        let k = peer_runs::replace_run(
            snapshot_keys,
            SNAPSHOT_KEY_WORDS,
            self.snapshot_keys,
            id,
            &[],
        );
        let c = peer_runs::replace_run(contested, CONTESTED_WORDS, self.contested, id, &[]);
        PeerDemand {
            peers: n,
            snapshot_keys: k,
            contested: c,
        }
    }

    // What `expire` does to a valid state.
    fn expire_all(
        self,
        peers: &mut [u64],
        snapshot_keys: &mut [u64],
        contested: &mut [u64],
        reading: u64,
        max_age: u64,
    ) -> PeerDemand
        requires { Valid self (tables peers.old snapshot_keys.old contested.old) }
        ensures { Becomes (changes.expire reading max_age) self (tables peers.old snapshot_keys.old contested.old) result
            (tables peers.new snapshot_keys.new contested.new) }
    {
        let c = peer_steps::retain_contested(
            peers,
            self.peers,
            contested,
            self.contested,
            reading,
            max_age,
        );
        let n = peer_steps::retain_peers(contested, c, peers, self.peers, reading, max_age);
        let k = peer_steps::retain_snapshot_keys(peers, n, snapshot_keys, self.snapshot_keys);
        PeerDemand {
            peers: n,
            snapshot_keys: k,
            contested: c,
        }
    }

    // Takes out a peer with all its keys.
    pub fn forget(
        self,
        peers: &mut [u64],
        snapshot_keys: &mut [u64],
        contested: &mut [u64],
        peer: PeerId,
    ) -> PeersChanged
        ensures { Forgets self (tables peers.old snapshot_keys.old contested.old) peer.0 result
            (tables peers.new snapshot_keys.new contested.new) }
    {
        if let Err(no) = self.ask(peers, snapshot_keys, contested) {
            return PeersChanged::refused(no, self);
        }
        PeersChanged::done(self.forget_peer(peers, snapshot_keys, contested, peer.0))
    }

    // Puts a peer on hold for the time `hold`; where that is 0 it is forgotten.
    pub fn leave(
        self,
        peers: &mut [u64],
        snapshot_keys: &mut [u64],
        contested: &mut [u64],
        peer: PeerId,
        reading: u64,
        hold: u64,
    ) -> PeersChanged
        ensures { Leaves self (tables peers.old snapshot_keys.old contested.old) peer.0 reading hold result
            (tables peers.new snapshot_keys.new contested.new) }
    {
        if hold == 0 {
            return self.forget(peers, snapshot_keys, contested, peer);
        }
        if let Err(no) = self.ask(peers, snapshot_keys, contested) {
            return PeersChanged::refused(no, self);
        }
        peer_steps::hold_peer(peers, self.peers, peer.0, reading.saturating_add(hold));
        PeersChanged::done(self)
    }

    // Takes out the held peers whose hold has ended, and of the others each snapshot and contested key
    // that is `max_age` old.
    pub fn expire(
        self,
        peers: &mut [u64],
        snapshot_keys: &mut [u64],
        contested: &mut [u64],
        reading: u64,
        max_age: u64,
    ) -> PeersChanged
        ensures { Expires self (tables peers.old snapshot_keys.old contested.old) reading max_age result
            (tables peers.new snapshot_keys.new contested.new) }
    {
        if let Err(no) = self.ask(peers, snapshot_keys, contested) {
            return PeersChanged::refused(no, self);
        }
        PeersChanged::done(self.expire_all(peers, snapshot_keys, contested, reading, max_age))
    }
}
