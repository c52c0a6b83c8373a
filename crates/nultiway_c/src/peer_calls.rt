// What the peers tell.
ghost use Rattle.peers.specs.Peers.State.{tables};
ghost use Rattle.nultiway.specs.PeerCalls as Calls;

// Asks questions 1 and 2 of the peers and their tables.
#[unsafe(no_mangle)]
pub extern "C" fn nultiway_peers_ask(
    peers: &[u64],
    peer_table: &[u64],
    snapshot_keys: &[u64],
    contested: &[u64],
) -> u8
    ensures { Calls.Ask peers.now (tables peer_table.now snapshot_keys.now contested.now) result }
{
    nultiway::peer_calls::nultiway_peers_ask(peers, peer_table, snapshot_keys, contested)
}

// Tells whether a peer said something of a key, the bits of the demand (a float), whether the key
// is primary there, the round, and when it was heard.
#[unsafe(no_mangle)]
pub extern "C" fn nultiway_peers_get(
    peers: &[u64],
    peer_table: &[u64],
    snapshot_keys: &[u64],
    contested: &[u64],
    peer: u64,
    key: u64,
    answer: &mut [u64],
) -> u8
    ensures { Calls.Get peers.now (tables peer_table.now snapshot_keys.now contested.now) peer key
        answer.old result answer.new }
{
    nultiway::peer_calls::nultiway_peers_get(
        peers,
        peer_table,
        snapshot_keys,
        contested,
        peer,
        key,
        answer,
    )
}

// Tells the peers' demands for a key, added up: the bits of a double.
#[unsafe(no_mangle)]
pub extern "C" fn nultiway_peers_total(
    peers: &[u64],
    peer_table: &[u64],
    snapshot_keys: &[u64],
    contested: &[u64],
    key: u64,
    answer: &mut [u64],
) -> u8
    ensures { Calls.Total peers.now (tables peer_table.now snapshot_keys.now contested.now) key
        answer.old result answer.new }
{
    nultiway::peer_calls::nultiway_peers_total(
        peers,
        peer_table,
        snapshot_keys,
        contested,
        key,
        answer,
    )
}

// Tells whether a key is primary at a peer.
#[unsafe(no_mangle)]
pub extern "C" fn nultiway_peers_hot_elsewhere(
    peers: &[u64],
    peer_table: &[u64],
    snapshot_keys: &[u64],
    contested: &[u64],
    key: u64,
    answer: &mut [u64],
) -> u8
    ensures { Calls.HotElsewhere peers.now (tables peer_table.now snapshot_keys.now contested.now) key
        answer.old result answer.new }
{
    nultiway::peer_calls::nultiway_peers_hot_elsewhere(
        peers,
        peer_table,
        snapshot_keys,
        contested,
        key,
        answer,
    )
}

// Tells the number of keys of all peers.
#[unsafe(no_mangle)]
pub extern "C" fn nultiway_peers_len(
    peers: &[u64],
    peer_table: &[u64],
    snapshot_keys: &[u64],
    contested: &[u64],
    answer: &mut [u64],
) -> u8
    ensures { Calls.Len peers.now (tables peer_table.now snapshot_keys.now contested.now)
        answer.old result answer.new }
{
    nultiway::peer_calls::nultiway_peers_len(peers, peer_table, snapshot_keys, contested, answer)
}

// Tells whether there is no key of any peer.
#[unsafe(no_mangle)]
pub extern "C" fn nultiway_peers_is_empty(
    peers: &[u64],
    peer_table: &[u64],
    snapshot_keys: &[u64],
    contested: &[u64],
    answer: &mut [u64],
) -> u8
    ensures { Calls.IsEmpty peers.now (tables peer_table.now snapshot_keys.now contested.now)
        answer.old result answer.new }
{
    nultiway::peer_calls::nultiway_peers_is_empty(
        peers,
        peer_table,
        snapshot_keys,
        contested,
        answer,
    )
}

// Tells the peers' demands, added up, for each of `count` keys, the first words of records of
// `width` words.
#[unsafe(no_mangle)]
pub extern "C" fn nultiway_peers_total_of_each(
    peers: &[u64],
    peer_table: &[u64],
    snapshot_keys: &[u64],
    contested: &[u64],
    keys: &[u64],
    width: u64,
    count: u64,
    out: &mut [f64],
) -> u8
    ensures { Calls.TotalOfEach peers.now (tables peer_table.now snapshot_keys.now contested.now)
        keys.now width count out.old result out.new }
{
    nultiway::peer_calls::nultiway_peers_total_of_each(
        peers,
        peer_table,
        snapshot_keys,
        contested,
        keys,
        width,
        count,
        out,
    )
}

// Tells of each of `count` keys, the first words of records of `width` words, whether it is
// primary at a peer.
#[unsafe(no_mangle)]
pub extern "C" fn nultiway_peers_hot_elsewhere_of_each(
    peers: &[u64],
    peer_table: &[u64],
    snapshot_keys: &[u64],
    contested: &[u64],
    keys: &[u64],
    width: u64,
    count: u64,
    out: &mut [bool],
) -> u8
    ensures { Calls.HotElsewhereOfEach peers.now
        (tables peer_table.now snapshot_keys.now contested.now) keys.now width count
        out.old result out.new }
{
    nultiway::peer_calls::nultiway_peers_hot_elsewhere_of_each(
        peers,
        peer_table,
        snapshot_keys,
        contested,
        keys,
        width,
        count,
        out,
    )
}
