// Which of many keys that ascend the peers have as primary: each of the peers' records is looked up
// among the keys, and not each key among the peers'.
ghost use Rattle.std.specs.Prelude.{◌≡◌, ℕ, true, ◌+◌, ◌*◌, ◌≤◌, ◌&&◌, ◌||◌, length, ◌==◌, nat_eq, nat_lt, slice_index};
ghost use Rattle.records.specs.Records.{records, fits};
ghost use Rattle.peers.specs.Peers.State.{PeersState};
ghost use Rattle.peers.specs.Peers.Readers.{told};
ghost use Rattle.records.specs.Fields.{flag_of};
ghost use Rattle.peers.specs.Peers.Steps.Scan.{KeysReady};
ghost use Rattle.records.specs.Typed.{in_order};
ghost use Rattle.peers.specs.Peers.Steps.Each.{has_primary, is_primary_in, marked, cleared, Markable};

use crate::peer_demand::{CONTESTED_WORDS, SNAPSHOT_KEY_WORDS};

// Keys: the first word of each of `count` records of `width` words.
#[derive(Clone, Copy)]
pub(crate) struct Keys<'a> {
    pub(crate) words: &'a [u64],
    pub(crate) width: usize,
    pub(crate) count: usize,
}

impl<'a> Keys<'a> {
    // Whether there is more than one key, and the keys ascend. One key alone is looked up among the
    // peers'.
    pub(crate) fn are_many_ascending(self) -> bool
        ensures { result ≡ (nat_lt 1 self.entry.count && in_order self.entry.width 1 self.entry.count self.entry.words.now) }
    {
        2 <= self.count && records::is_ascending(self.words, self.width, 1, self.count)
    }

    // Sets the flag of `key`, where it is one of the keys.
    fn mark_key(self, key: u64, out: &mut [bool])
        requires { Markable self.width self.count self.words.now out.old }
        ensures { out.new ≡ marked (nat_eq key) (records self.entry.width self.entry.count self.entry.words.now) out.old }
    {
        if let records::Found::At(i) = records::find(
            self.words, self.width, 1, self.count, key, 0,
        ) {
            out[i] = true;
        }
    }

    // The same of the key of the record r, where it is primary.
    fn mark_record(self, r: &[u64], out: &mut [bool])
        requires { Markable self.width self.count self.words.now out.old × (4 ≤ length r.now) }
        ensures { out.new ≡ marked (λ key. has_primary key r.now) (records self.entry.width self.entry.count self.entry.words.now) out.old }
    {
        if r[3] != 0 {
            self.mark_key(r[1], out);
        }
    }

    // The same of each of m records of v words.
    fn mark_table(self, t: &[u64], v: usize, m: usize, out: &mut [bool])
        requires { Markable self.width self.count self.words.now out.old × KeysReady v m t.now }
        ensures { out.new ≡ marked (is_primary_in (records v m t.now)) (records self.entry.width self.entry.count self.entry.words.now)
            out.old }
    {
        for i in 0..m {
            self.mark_record(&t[i * v..i * v + v], out);
        }
    }

    // Tells of each of the keys, which ascend, whether one of k snapshot keys or c contested keys has
    // it as primary.
    pub(crate) fn primary_of_ascending(
        self,
        snapshot_keys: &[u64],
        k: usize,
        contested: &[u64],
        c: usize,
        out: &mut [bool],
    )
        requires { Markable self.width self.count self.words.now out.old × KeysReady 4 k snapshot_keys.now × KeysReady 6 c contested.now }
        ensures { out.new ≡ marked
            (λ key. is_primary_in (records 4 k snapshot_keys.now) key
            || is_primary_in (records 6 c contested.now) key)
            (records self.entry.width self.entry.count self.entry.words.now) (cleared self.entry.count out.old) }
    {
        out[..self.count].fill(false);
        self.mark_table(snapshot_keys, SNAPSHOT_KEY_WORDS, k, out);
        self.mark_table(contested, CONTESTED_WORDS, c, out);
    }

    // Tells of each of the keys.
    pub(crate) fn tell_each<A: Copy, F: Fn(u64) -> A>(self, out: &mut [A], tell: F)
        requires callable { F.IsAlwaysCallable tell }
        requires fit { fits (length self.words.now) self.width self.count ≡ true }
        requires room { self.count ≤ length out.old }
        ensures { (f : ℕ → PeersState → A) (s : PeersState) → ((key : ℕ) (r : A) → F.post tell key r → r ≡ f key s)
            → out.new ≡ told f s self.entry.width self.entry.count self.entry.words.now out.old }
    {
        for i in 0..self.count {
            out[i] = tell(self.words[i * self.width]);
        }
    }
}
