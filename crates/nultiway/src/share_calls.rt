// A node's share of a limit, and the rounds of reports.
ghost use Rattle.std.specs.Prelude.{◌≡◌};
ghost use Rattle.peers.specs.Peers.Changes.{newer};
ghost use Rattle.nultiway.specs.DemandCalls as Calls;

use crate::answers::put_answer;
use demand::allocation::View;

// Tells the part of a limit, a rate a second, that falls to a node by its demand and that of all
// others: the bits of a double.
#[unsafe(no_mangle)]
pub extern "C" fn nultiway_share(
    limit: f64,
    cluster_size: u64,
    floor_factor: f64,
    own: f64,
    others: f64,
    answer: &mut [u64],
) -> u8
    ensures { Calls.Share
        (record {
          limit = limit;
          cluster_size = cluster_size;
          floor_factor = floor_factor;
          own = own;
          others = others;
        })
        answer.old result answer.new }
{
    if answer.len() < 1 {
        return 1;
    }
    let view = View {
        limit,
        cluster_size: cluster_size as usize,
        floor_factor,
        own,
        others,
    };
    put_answer(answer, demand::allocation::share(view))
}

// Tells after how many rounds without a word a peer's snapshot is stale.
#[unsafe(no_mangle)]
pub extern "C" fn nultiway_stale_after_rounds(cluster_size: u64, answer: &mut [u64]) -> u8
    ensures { Calls.StaleAfterRounds cluster_size answer.old result answer.new }
{
    if answer.len() < 1 {
        return 1;
    }
    put_answer(
        answer,
        peers::peer_demand::stale_after_rounds(cluster_size as usize),
    )
}

// Tells whether round `a` is 1 to 32,767 ahead of round `b`, modulo 65,536.
#[unsafe(no_mangle)]
pub extern "C" fn nultiway_round_is_newer(a: u16, b: u16) -> bool
    ensures { result ≡ newer a b }
{
    peers::peer_demand::round_is_newer(a, b)
}
