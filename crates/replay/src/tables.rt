// The program's tables by their sizes. Functions that only hand them on take all of them, and those
// that lend parts of them take slices.

// The image that is kept.
pub(crate) type Kept = [u8; image::LARGEST_IMAGE];

// The lone hot set's entries; the limiter's keys, hot keys and shadows; the peers, what their
// snapshots list, and the contested keys; and the words of a list that belongs to an answer.
#[derive(Drop)]
pub(crate) struct Tables {
    pub(crate) hot: [u64; 384],
    pub(crate) keys: [u64; 90112],
    pub(crate) hot_keys: [u64; 384],
    pub(crate) shadows: [u64; 16384],
    pub(crate) peers: [u64; 384],
    pub(crate) snapshots: [u64; 8192],
    pub(crate) contested: [u64; 49152],
    pub(crate) list: [u64; 1024],
}
