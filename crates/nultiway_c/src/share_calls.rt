// A node's share of a limit, and the rounds of reports.
ghost use Rattle.std.specs.Prelude.{◌≡◌};
ghost use Rattle.peers.specs.Peers.Changes.{newer};
ghost use Rattle.nultiway.specs.DemandCalls as Calls;

// Tells the part of a limit, a rate a second, that falls to a node by its demand and that of all
// others: the bits of a double.
#[unsafe(no_mangle)]
pub extern "C" fn nultiway_share(
    limit: f64,
    cluster_size: u64,
    floor_factor: f64,
    own: f64,
    others: f64,
    answer: &mut [u64],
) -> u8
    ensures { Calls.Share
        (record {
          limit = limit;
          cluster_size = cluster_size;
          floor_factor = floor_factor;
          own = own;
          others = others;
        })
        answer.old result answer.new }
{
    nultiway::share_calls::nultiway_share(limit, cluster_size, floor_factor, own, others, answer)
}

// Tells after how many rounds without a word a peer's snapshot is stale.
#[unsafe(no_mangle)]
pub extern "C" fn nultiway_stale_after_rounds(cluster_size: u64, answer: &mut [u64]) -> u8
    ensures { Calls.StaleAfterRounds cluster_size answer.old result answer.new }
{
    nultiway::share_calls::nultiway_stale_after_rounds(cluster_size, answer)
}

// Tells whether round `a` is 1 to 32,767 ahead of round `b`, modulo 65,536.
#[unsafe(no_mangle)]
pub extern "C" fn nultiway_round_is_newer(a: u16, b: u16) -> bool
    ensures { result ≡ newer a b }
{
    nultiway::share_calls::nultiway_round_is_newer(a, b)
}
