// The meter: ITU-T I.371's virtual scheduling, known as GCRA, whose state is one number, the TAT
// (theoretical arrival time). A check whose reading is below TAT - tau is denied; an allowed one adds
// T, the interval, to the TAT.
#![tactic(auto)]

ghost use Rattle.std.specs.Prelude.{◌≡◌, ◌+◌, ◌-◌, ◌*◌, ◌^◌, ◌≤◌, ◌<◌, min, max};
ghost use Rattle.gcra.specs.Packed as Packed;
ghost use Rattle.gcra.specs.Packed.{Accepted};
ghost use Rattle.gcra.specs.Meter as Meter;
ghost use Rattle.gcra.specs.Rate as Rate;
ghost use Rattle.gcra.specs.Calls as Calls;
ghost use Rattle.questions.specs.Refusals.{answer_of};

use questions::Refusal;

const ONE_SEC: u64 = 1_000_000_000;

// An interval is at most 2^40 - 1 of the widest unit; slower rates get this one.
pub const MAX_INTERVAL: u64 = ((1 << Quota::INTERVAL_BITS) - 1) * 1_000_000;

// tau is at most 2^63 - 1 ns: a TAT held at 2^64 - 1 is then still ahead of readings below 2^63.
pub const MAX_TAU: u64 = u64::MAX / 2;

// A table of the three unit widths in nanoseconds, for the codes 0 to 2 of a packed word.
#[derive(Clone, Copy)]
pub struct Units {
    pub first: u64,
    pub second: u64,
    pub third: u64,
}

const UNIT_NANOS: Units = Units {
    first: 1,
    second: 1_000,
    third: 1_000_000,
};

// How many values fit the value's field; and the place values of the unit code and of the value in
// a packed word.
const VALUES: u64 = 1 << Quota::INTERVAL_BITS;

const UNIT_SCALE: u64 = 1 << Quota::BURST_BITS;

const UNIT_CODES: u64 = 1 << Quota::UNIT_BITS;

const VALUE_SCALE: u64 = UNIT_SCALE * UNIT_CODES;

// The least value of a coarser unit: each is 1,000 of the one before it, which holds values below `VALUES`.
const COARSER_LEAST: u64 = VALUES / 1_000 + 1;

// How an interval is packed: a count, and the code of the unit that it counts.
#[derive(Clone, Copy)]
pub struct Encoded {
    pub value: u64,
    pub unit: u64,
}

// The pace of a quota: T and tau.
#[derive(Clone, Copy)]
pub struct Pace {
    pub t: u64,
    pub tau: u64,
}

// T in nanoseconds, rounded up to its unit, and the burst that one reading may be allowed at once.
#[derive(Clone, Copy, Debug, PartialEq, Eq)]
pub struct Quota {
    pub interval: u64,
    pub burst: u32,
}

// The meter of a key: its quota and its TAT.
#[derive(Clone, Copy)]
pub struct Gcra {
    pub quota: Quota,
    pub tat: Option<u64>,
}

// What a check answers; `retry_at` is 01's retry time.
#[derive(Clone, Copy, Debug, PartialEq, Eq)]
pub enum Decision {
    Allow,
    Deny { retry_at: u64 },
}

// What `step` decides, and the TAT that it leaves.
#[derive(Clone, Copy)]
pub struct Stepped {
    pub decision: Decision,
    pub tat: u64,
}

// The answer of a check, and the Gcra after it.
#[derive(Clone, Copy)]
pub struct Checked {
    pub answer: Result<Decision, Refusal>,
    pub gcra: Gcra,
}

// The answer of a change of quota, and the Gcra after it.
#[derive(Clone, Copy)]
pub struct QuotaSet {
    pub answer: Result<(), Refusal>,
    pub gcra: Gcra,
}

fn div_ceil(n: u64, d: u64) -> u64
    requires { (0 < d) × (n + d ≤ 2 ^ 64) }
    ensures { result ≡ Packed.round_up n d }
{
    (n + (d - 1)) / d
}

// The width of a unit code; the unused code 3 counts as the third.
fn unit_nanos(units: Units, unit: u64) -> u64
    ensures { result ≡ Packed.width units unit }
{
    match unit {
        0 => units.first,
        1 => units.second,
        _ => units.third,
    }
}

// T * (burst - 1), at most `MAX_TAU`.
#[tactic(auto, unfolding(crate::specs::Packed::tau))]
fn tau(interval: u64, burst: u64) -> u64
    ensures { result ≡ Packed.tau interval burst }
{
    interval
        .saturating_mul(burst.saturating_sub(1))
        .min(MAX_TAU)
}

impl Quota {
    // The three fields of a packed word, top down.
    pub const INTERVAL_BITS: u32 = 40;

    pub const UNIT_BITS: u32 = 2;

    pub const BURST_BITS: u32 = 64 - Self::INTERVAL_BITS - Self::UNIT_BITS;

    // The largest burst of a quota: 4,194,303.
    pub const MAX_BURST: u32 = (1 << Self::BURST_BITS) - 1;

    // The quota of a whole rate a second.
    pub fn new(rate_per_sec: u32, burst: u32) -> Result<Quota, Refusal>
        ensures { answer_of result ≡ Calls.quota_new rate_per_sec burst }
    {
        if rate_per_sec == 0 {
            return Err(Refusal::Rate);
        }
        if !Self::burst_fits(burst) {
            return Err(Refusal::Burst);
        }
        let interval = div_ceil(ONE_SEC, rate_per_sec as u64);
        Ok(Self::with_interval(UNIT_NANOS, interval, burst))
    }

    // The quota of any rate a second. Where 1e9 / rate is not finite or not above 0, and where it is
    // too long, the interval is the longest.
    pub fn per_second(rate: f64, burst: u32) -> Result<Quota, Refusal>
        ensures { answer_of result ≡ Calls.quota_per_second rate burst }
    {
        if !Self::burst_fits(burst) {
            return Err(Refusal::Burst);
        }
        let interval = Self::quotient_nanos(float::ceil(1_000_000_000.0 / rate));
        Ok(Self::with_interval(UNIT_NANOS, interval, burst))
    }

    // The interval of a quotient 1e9 / rate, rounded up.
    fn quotient_nanos(quotient: f64) -> u64
        ensures { result ≡ Rate.quotient_nanos Packed.unit_nanos quotient }
    {
        if !float::is_finite(quotient) {
            return MAX_INTERVAL;
        }
        if quotient >= 1.0 {
            return float::f64_to_u64(quotient).min(MAX_INTERVAL);
        }
        if quotient > 0.0 { 1 } else { MAX_INTERVAL }
    }

    // Whether a burst is 1 to `MAX_BURST`.
    pub fn burst_fits(burst: u32) -> bool
        ensures { result ≡ Packed.valid_burst burst }
    {
        1 <= burst && burst <= Self::MAX_BURST
    }

    // A quota of any interval: it is held between 1 and the longest, and rounded up to its unit.
    fn with_interval(units: Units, interval: u64, burst: u32) -> Self
        requires { Accepted units }
        ensures { result ≡ Packed.with_interval units interval burst }
    {
        let held = Self::clamp_interval(units, interval);
        Self {
            interval: Self::rounded(units, held),
            burst,
        }
    }

    // The longest interval that a table of units holds.
    fn max_interval(units: Units) -> u64
        requires { Accepted units }
        ensures { result ≡ Packed.max_interval units }
    {
        (VALUES - 1) * units.third
    }

    // The interval, held between 1 and the longest.
    fn clamp_interval(units: Units, interval: u64) -> u64
        requires { Accepted units }
        ensures { result ≡ min (max interval 1) (Packed.max_interval units) }
    {
        interval.max(1).min(Self::max_interval(units))
    }

    // The first unit whose rounded-up value is below 2^40, and that value.
    fn encode_interval(units: Units, interval: u64) -> Encoded
        requires { Accepted units × (interval ≤ Packed.max_interval units) }
        ensures { result ≡ Packed.encode units interval }
    {
        let nanos = div_ceil(interval, units.first);
        if nanos < VALUES {
            return Encoded {
                value: nanos,
                unit: 0,
            };
        }
        let coarser = div_ceil(interval, units.second);
        if coarser < VALUES {
            return Encoded {
                value: coarser,
                unit: 1,
            };
        }
        Encoded {
            value: div_ceil(interval, units.third),
            unit: 2,
        }
    }

    // The interval that an interval is kept as.
    fn rounded(units: Units, interval: u64) -> u64
        requires { Accepted units × (interval ≤ Packed.max_interval units) }
        ensures { result ≡ Packed.rounded units interval }
    {
        let e = Self::encode_interval(units, interval);
        e.value * unit_nanos(units, e.unit)
    }

    // Whether the quota could stand in a valid image.
    fn is_valid(self, units: Units) -> bool
        requires { Accepted units }
        ensures { result ≡ Packed.valid_quota units self }
    {
        if self.interval < 1 || Self::max_interval(units) < self.interval {
            return false;
        }
        Self::burst_fits(self.burst) && Self::rounded(units, self.interval) == self.interval
    }

    // 1e9 / T, the rate a second that the rounded interval stands for.
    pub fn rate_per_sec(self) -> Result<f64, Refusal>
        ensures { answer_of result ≡ Calls.quota_rate self }
    {
        if !self.is_valid(UNIT_NANOS) {
            return Err(Refusal::Invalid);
        }
        Ok(1_000_000_000.0 / float::u64_to_f64(self.interval))
    }

    // The quota's burst.
    pub fn burst(self) -> Result<u64, Refusal>
        ensures { answer_of result ≡ Calls.quota_burst self }
    {
        if !self.is_valid(UNIT_NANOS) {
            return Err(Refusal::Invalid);
        }
        Ok(self.burst as u64)
    }

    // The packed word: value, unit code and burst, top down.
    pub fn pack(self) -> Result<u64, Refusal>
        ensures { answer_of result ≡ Calls.quota_pack self }
    {
        if !self.is_valid(UNIT_NANOS) {
            return Err(Refusal::Invalid);
        }
        Ok(self.pack_in(UNIT_NANOS))
    }

    // The word at any table of units.
    fn pack_in(self, units: Units) -> u64
        requires { Accepted units × (self.interval ≤ Packed.max_interval units) × (self.burst ≤ Packed.max_burst) }
        ensures { result ≡ Packed.pack units self }
    {
        let e = Self::encode_interval(units, self.interval);
        e.value * VALUE_SCALE + e.unit * UNIT_SCALE + self.burst as u64
    }

    // The quota of a word.
    pub fn unpack(packed: u64) -> Result<Quota, Refusal>
        ensures { answer_of result ≡ Calls.quota_unpack packed }
    {
        if !Self::unpacks(packed) {
            return Err(Refusal::Word);
        }
        Ok(Self::unpack_in(UNIT_NANOS, packed))
    }

    // Whether a word has a unit code of 0 to 2 and a burst above 0.
    fn unpacks(packed: u64) -> bool
        ensures { result ≡ Packed.unpacks packed }
    {
        packed / UNIT_SCALE % UNIT_CODES < 3 && 0 < packed % UNIT_SCALE
    }

    // The quota of a word at any table of units.
    fn unpack_in(units: Units, packed: u64) -> Self
        requires { Accepted units }
        ensures { result ≡ Packed.unpack units packed }
    {
        let burst = packed % UNIT_SCALE;
        Self::with_interval(units, Self::interval_of(units, packed), burst as u32)
    }

    // The interval that a word holds, in nanoseconds.
    fn interval_of(units: Units, packed: u64) -> u64
        requires { Accepted units }
        ensures { result ≡ Packed.value_of packed * Packed.width units (Packed.unit_of packed) }
    {
        packed / VALUE_SCALE * unit_nanos(units, packed / UNIT_SCALE % UNIT_CODES)
    }

    // Whether a word is one that `pack` gives: some nanoseconds, or as many of a coarser unit as a
    // finer one does not hold.
    pub fn is_packed(packed: u64) -> bool
        ensures { result ≡ Packed.valid_word Packed.unit_nanos packed }
    {
        let unit = packed / UNIT_SCALE % UNIT_CODES;
        let value = packed / VALUE_SCALE;
        if packed % UNIT_SCALE == 0 {
            return false;
        }
        match unit {
            0 => 1 <= value,
            1 | 2 => COARSER_LEAST <= value,
            _ => false,
        }
    }

    // The pace of a word, which may be any.
    fn decode(units: Units, packed: u64) -> Pace
        requires { Accepted units }
        ensures { result ≡ Packed.decode units packed }
    {
        let t = Self::interval_of(units, packed);
        Pace {
            t,
            tau: tau(t, packed % UNIT_SCALE),
        }
    }

    // The pace of a quota, as a check needs it.
    fn t_and_tau(self) -> Pace
        ensures { result ≡ Meter.pace_of self }
    {
        Pace {
            t: self.interval,
            tau: tau(self.interval, self.burst as u64),
        }
    }

    // The quoted ceiling of a window, both of whose ends count: burst + window / T.
    pub fn ceiling(self, window: u64) -> Result<u64, Refusal>
        ensures { answer_of result ≡ Calls.quota_ceiling self window }
    {
        if !self.is_valid(UNIT_NANOS) {
            return Err(Refusal::Invalid);
        }
        if window > 1 << 62 {
            return Err(Refusal::Window);
        }
        Ok(self.burst as u64 + window / self.interval)
    }
}

impl Decision {
    pub fn is_allow(self) -> bool
        ensures { result ≡ Meter.is_allow self }
    {
        matches!(self, Decision::Allow)
    }
}

// One attempt at any pace.
fn attempt(pace: Pace, tat: u64, now: u64) -> Stepped
    ensures { result ≡ Meter.attempt pace tat now }
{
    let earliest = tat.saturating_sub(pace.tau);
    if now < earliest {
        return Stepped {
            decision: Decision::Deny { retry_at: earliest },
            tat,
        };
    }
    Stepped {
        decision: Decision::Allow,
        tat: tat.max(now).saturating_add(pace.t),
    }
}

// One attempt on a TAT, 0 for none, at the quota of a packed word, which may be any.
pub fn step(tat: u64, packed: u64, now: u64) -> Stepped
    ensures { result ≡ Meter.step Packed.unit_nanos tat packed now }
{
    attempt(Quota::decode(UNIT_NANOS, packed), tat, now)
}

// The debt in slots of the old interval. A TAT that is held at 2^64 - 1 does not tell it, so it is
// taken as at least the larger of the two bursts.
fn debt_slots(tat: u64, old: Quota, new: Quota, now: u64) -> f64
    ensures { result ≡ Rate.debt_slots tat old new now }
{
    let debt = float::u64_to_f64(tat.saturating_sub(now));
    let computed = debt / float::u64_to_f64(old.interval);
    if tat != u64::MAX {
        return computed;
    }
    let old_burst = float::u64_to_f64(old.burst as u64);
    let new_burst = float::u64_to_f64(new.burst as u64);
    float::max(float::max(computed, old_burst), new_burst)
}

// The TAT whose debt at the new interval has as many slots as the old TAT's had at the old one.
fn carry_tat(tat: u64, old: Quota, new: Quota, now: u64) -> u64
    ensures { result ≡ Rate.carry_tat tat old new now }
{
    let nanos = debt_slots(tat, old, new, now) * float::u64_to_f64(new.interval);
    now.saturating_add(float::f64_to_u64(float::round(nanos)))
}

impl Gcra {
    // A meter with no TAT.
    pub fn new(quota: Quota) -> Result<Gcra, Refusal>
        ensures { answer_of result ≡ Calls.gcra_new quota }
    {
        if !quota.is_valid(UNIT_NANOS) {
            return Err(Refusal::Invalid);
        }
        Ok(Self { quota, tat: None })
    }

    // Its quota.
    pub fn quota(self) -> Result<Quota, Refusal>
        ensures { answer_of result ≡ Calls.gcra_quota self }
    {
        if !self.quota.is_valid(UNIT_NANOS) {
            return Err(Refusal::Invalid);
        }
        Ok(self.quota)
    }

    // Decides on a check with the reading `now`.
    pub fn check(self, now: u64) -> Checked
        ensures { Calls.GcraChecks self now result }
    {
        if !self.quota.is_valid(UNIT_NANOS) {
            return Checked {
                answer: Err(Refusal::Invalid),
                gcra: self,
            };
        }
        self.checked(now)
    }

    // The check itself, of a quota that may be any.
    fn checked(self, now: u64) -> Checked
        ensures { result ≡ Meter.checked self now }
    {
        let s = attempt(self.quota.t_and_tau(), self.tat.unwrap_or(now), now);
        let tat = if s.decision.is_allow() {
            Some(s.tat)
        } else {
            self.tat
        };
        Checked {
            answer: Ok(s.decision),
            gcra: Gcra { tat, ..self },
        }
    }

    // Whether the TAT is ahead of the reading.
    pub fn has_debt(self, now: u64) -> Result<bool, Refusal>
        ensures { answer_of result ≡ Calls.gcra_has_debt self now }
    {
        if !self.quota.is_valid(UNIT_NANOS) {
            return Err(Refusal::Invalid);
        }
        Ok(now < self.tat.unwrap_or(now))
    }

    // How far the retry time is ahead of the reading, where a check would be denied.
    pub fn retry_after(self, now: u64) -> Result<Option<u64>, Refusal>
        ensures { answer_of result ≡ Calls.gcra_retry_after self now }
    {
        if !self.quota.is_valid(UNIT_NANOS) {
            return Err(Refusal::Invalid);
        }
        let s = attempt(self.quota.t_and_tau(), self.tat.unwrap_or(now), now);
        match s.decision {
            Decision::Allow => Ok(None),
            Decision::Deny { retry_at } => Ok(Some(retry_at - now)),
        }
    }

    // Gives the meter another quota, and its debt the same number of slots; an equal quota changes
    // nothing.
    pub fn set_quota(self, quota: Quota, now: u64) -> QuotaSet
        ensures { Calls.GcraSets self quota now result }
    {
        if !self.quota.is_valid(UNIT_NANOS) || !quota.is_valid(UNIT_NANOS) {
            return QuotaSet {
                answer: Err(Refusal::Invalid),
                gcra: self,
            };
        }
        QuotaSet {
            answer: Ok(()),
            gcra: self.changed(quota, now),
        }
    }

    // The change itself, of quotas that may be any.
    fn changed(self, quota: Quota, now: u64) -> Self
        ensures { result ≡ Rate.set_quota self quota now }
    {
        if quota == self.quota {
            return self;
        }
        match self.tat {
            None => Gcra { quota, ..self },
            Some(at) => Gcra {
                quota,
                tat: Some(carry_tat(at, self.quota, quota, now)),
            },
        }
    }
}
