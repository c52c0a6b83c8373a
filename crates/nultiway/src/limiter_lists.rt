// Lists of keys, in words that the caller lends for them.
ghost use Rattle.limiter.specs.State.{tables};
ghost use Rattle.nultiway.specs.LimiterCalls as Calls;

use crate::answers::put_answer;
use crate::values::{ask_limiter, limiter_of};

// Lists the hot keys, greatest demand first, and tells how many: three words for each, the key,
// its demand's bits, and whether it is primary.
#[unsafe(no_mangle)]
pub extern "C" fn nultiway_hot_demand(
    limiter: &[u64],
    keys: &[u64],
    hot: &[u64],
    shadows: &[u64],
    out: &mut [u64],
    answer: &mut [u64],
) -> u8
    ensures { Calls.HotDemand limiter.now (tables keys.now hot.now shadows.now) out.old
        answer.old result
        out.new answer.new }
{
    let room = 1 <= answer.len();
    let no = ask_limiter(limiter, keys.len(), hot.len(), shadows.len(), room);
    if no != 0 {
        return no;
    }
    let limiter = limiter_of(limiter);
    let said = limiter.hot_demand(keys, hot, shadows, out);
    put_answer(answer, said)
}

// Lists the first `k` keys by denials a second, and tells how many: four words for each, the key
// and the bits of its three rates.
#[unsafe(no_mangle)]
pub extern "C" fn nultiway_most_denied(
    limiter: &[u64],
    keys: &[u64],
    hot: &[u64],
    shadows: &[u64],
    k: u64,
    out: &mut [u64],
    answer: &mut [u64],
) -> u8
    ensures { Calls.MostDenied limiter.now (tables keys.now hot.now shadows.now) k out.old
        answer.old result
        out.new answer.new }
{
    let room = 1 <= answer.len();
    let no = ask_limiter(limiter, keys.len(), hot.len(), shadows.len(), room);
    if no != 0 {
        return no;
    }
    let most = k as usize;
    let limiter = limiter_of(limiter);
    let said = limiter.most_denied(keys, hot, shadows, most, out);
    put_answer(answer, said)
}

// Lists the first `k` keys by shadow denials a second likewise.
#[unsafe(no_mangle)]
pub extern "C" fn nultiway_most_shadow_denied(
    limiter: &[u64],
    keys: &[u64],
    hot: &[u64],
    shadows: &[u64],
    k: u64,
    out: &mut [u64],
    answer: &mut [u64],
) -> u8
    ensures { Calls.MostShadowDenied limiter.now (tables keys.now hot.now shadows.now) k
        out.old answer.old result
        out.new answer.new }
{
    let room = 1 <= answer.len();
    let no = ask_limiter(limiter, keys.len(), hot.len(), shadows.len(), room);
    if no != 0 {
        return no;
    }
    let most = k as usize;
    let limiter = limiter_of(limiter);
    let said = limiter.most_shadow_denied(keys, hot, shadows, most, out);
    put_answer(answer, said)
}
