// The saved image.
ghost use Rattle.peers.specs.Peers.State as peer-state;
ghost use Rattle.limiter.specs.State.{tables};
ghost use Rattle.nultiway.specs.ImageCalls as Calls;

// Writes the image of a limiter and its peers to `out`, and tells how many bytes it has.
#[unsafe(no_mangle)]
pub extern "C" fn nultiway_save(
    limiter: &[u64],
    keys: &[u64],
    hot: &[u64],
    shadows: &[u64],
    peers: &[u64],
    peer_table: &[u64],
    snapshot_keys: &[u64],
    contested: &[u64],
    out: &mut [u8],
    answer: &mut [u64],
) -> u8
    ensures { Calls.Save limiter.now (tables keys.now hot.now shadows.now) peers.now
        (peer-state.tables peer_table.now snapshot_keys.now contested.now) out.old
        answer.old result out.new answer.new }
{
    nultiway::image_calls::nultiway_save(
        limiter,
        keys,
        hot,
        shadows,
        peers,
        peer_table,
        snapshot_keys,
        contested,
        out,
        answer,
    )
}

// Makes the limiter and the peers that an image was saved of, in tables that may hold anything.
#[unsafe(no_mangle)]
pub extern "C" fn nultiway_load(
    image: &[u8],
    limiter: &mut [u64],
    keys: &mut [u64],
    hot: &mut [u64],
    shadows: &mut [u64],
    peers: &mut [u64],
    peer_table: &mut [u64],
    snapshot_keys: &mut [u64],
    contested: &mut [u64],
) -> u8
    ensures { Calls.Load image.now limiter.old (tables keys.old hot.old shadows.old)
        peers.old (peer-state.tables peer_table.old snapshot_keys.old contested.old) result
        limiter.new (tables keys.new hot.new shadows.new) peers.new
        (peer-state.tables peer_table.new snapshot_keys.new contested.new) }
{
    nultiway::image_calls::nultiway_load(
        image,
        limiter,
        keys,
        hot,
        shadows,
        peers,
        peer_table,
        snapshot_keys,
        contested,
    )
}
