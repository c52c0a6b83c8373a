// The words of the peers' answers.
ghost use Rattle.std.specs.Prelude.{◌≡◌};
ghost use Rattle.nultiway.specs.Values.{peers_words};
ghost use Rattle.nultiway.specs.PeerCalls.{heard_words};

use crate::answers::Lent;
use peers::peer_demand::{Heard, PeerDemand};
use records::fields::flag_word;

// New peers.
impl Lent<3> for PeerDemand {
    ghost words = { peers_words };

    #[tactic(auto, unfolding(crate::specs::Values::peers_words))]
    fn words(self) -> [u64; 3] {
        [
            self.peers as u64,
            self.snapshot_keys as u64,
            self.contested as u64,
        ]
    }
}

// The words of what was heard.
fn heard_words(heard: Heard) -> [u64; 5]
    ensures { result ≡ heard_words (Some heard) }
{
    let demand = float::f32_to_bits(heard.demand);
    let primary = flag_word(heard.primary);
    [
        1,
        demand as u64,
        primary,
        heard.round as u64,
        heard.heard_at,
    ]
}

// What was heard of a peer.
impl Lent<5> for Option<Heard> {
    ghost words = { heard_words };

    fn words(self) -> [u64; 5] {
        match self {
            None => [0; 5],
            Some(heard) => heard_words(heard),
        }
    }
}
