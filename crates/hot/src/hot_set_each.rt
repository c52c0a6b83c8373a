// The hot set's update of many keys, one after the other, for one test of the set. C callers lend
// the keys, demands, thresholds and flags as lists of their own, and so they stay here.
ghost use Rattle.std.specs.Prelude.{◌≡◌, true, ◌≤◌, length, take};
ghost use Rattle.float.specs.Magnitude.{magnitude};
ghost use Rattle.questions.specs.Questions.{passes, first_no};
ghost use Rattle.questions.specs.Refusals.{asked};
ghost use Rattle.questions.specs.Lists.{all};
ghost use Rattle.hot.specs.HotSet.Calls as Calls;
ghost use Rattle.hot.specs.HotSet.Steps.{UpdatesEach};

use crate::hot_set::{EVICTION_MARGIN, HotSet};
use questions::Refusal;

// Whether the keys of n records of w words, and a demand, a threshold and a flag for each, are
// within lent slices of these lengths.
#[tactic(auto, using(std::proofs::lemmas::Bool::Decides::nat_tests), unfolding(crate::specs::HotSet::Calls::updates_fit))]
fn updates_fit(
    keys: usize,
    w: usize,
    n: usize,
    demands: usize,
    thresholds: usize,
    elsewhere: usize,
) -> bool
    ensures { result ≡ Calls.updates_fit keys w n demands thresholds elsewhere }
{
    records::fits(keys, w, n) && n <= demands && n <= thresholds && n <= elsewhere
}

// Whether each demand is finite with a clear sign bit.
fn are_magnitudes(demands: &[f64]) -> bool
    ensures { result ≡ all magnitude demands.now }
{
    demands.iter().all(|demand| float::is_magnitude(*demand))
}

impl HotSet {
    // Asks about n updates. That the keys are lent is asked before.
    fn ask_each(self, hot: &[u64], demands: &[f64], n: usize, room: usize) -> Result<(), Refusal>
        requires { n ≤ length demands.now }
        ensures { asked result ≡ first_no (Calls.ask_set_each self hot.now n demands.now room) }
    {
        self.ask(hot)?;
        if !are_magnitudes(&demands[..n]) {
            return Err(Refusal::Demand);
        }
        if room < n {
            return Err(Refusal::ShortOutput);
        }
        Ok(())
    }

    // What `update_each` does once its questions are passed.
    fn update_all(
        self,
        hot: &mut [u64],
        keys: &[u64],
        w: usize,
        n: usize,
        demands: &[f64],
        thresholds: &[f64],
        elsewhere: &[bool],
        now: u64,
        out: &mut [bool],
    ) -> HotSet
        requires { passes
            (Calls.ask_each self hot.old keys.now w n demands.now thresholds.now elsewhere.now
            (length out.old))
            ≡ true }
        ensures { UpdatesEach Calls.eviction_margin self hot.old
            (Calls.lent_updates keys.now w n demands.now thresholds.now elsewhere.now) now n
            out.old result hot.new out.new }
    {
        let mut set = self;
        for i in 0..n {
            let updated = set.take_in(
                hot,
                keys[i * w],
                demands[i],
                thresholds[i],
                now,
                elsewhere[i],
                EVICTION_MARGIN,
            );
            out[i] = updated.is_hot;
            set = updated.set;
        }
        set
    }

    // Takes in the demand of the key, the first word, of each of n records of w words, one after the
    // other; writes whether each is hot after its own update.
    pub fn update_each(
        self,
        hot: &mut [u64],
        keys: &[u64],
        w: usize,
        n: usize,
        demands: &[f64],
        thresholds: &[f64],
        elsewhere: &[bool],
        now: u64,
        out: &mut [bool],
    ) -> Result<HotSet, Refusal>
        ensures { Calls.UpdatedEach self hot.old keys.now w n demands.now thresholds.now
            elsewhere.now now out.old result hot.new out.new }
    {
        if !updates_fit(
            keys.len(),
            w,
            n,
            demands.len(),
            thresholds.len(),
            elsewhere.len(),
        ) {
            return Err(Refusal::ShortBuffer);
        }
        self.ask_each(hot, demands, n, out.len())?;
        Ok(self.update_all(hot, keys, w, n, demands, thresholds, elsewhere, now, out))
    }
}
