// An estimator of attempts a second. Attempts are counted between ticks; a tick moves the rate
// towards what was counted, by the decay weight of the time since the tick before.

ghost use Rattle.std.specs.Prelude.{◌≡◌};
ghost use Rattle.demand.specs.Estimators.Estimator as Estimator;
ghost use Rattle.demand.specs.Estimators.Calls as Calls;
ghost use Rattle.questions.specs.Refusals.{answer_of};

use questions::Refusal;

// The times of an estimator: of its last tick, and of its start.
#[derive(Clone, Copy)]
pub struct Times {
    pub last_tick: u64,
    pub since: u64,
}

// An estimator: its rate, the attempts that no tick has folded yet, its time constant, and its times, which it
// has both or neither.
#[derive(Clone, Copy)]
pub struct Demand {
    pub current_rate: f64,
    pub attempts_since_tick: u64,
    pub times: Option<Times>,
    pub time_constant: u64,
}

// How far a tick moves the rate towards what was counted: (2^52 - weight) / 2^52, exactly.
pub fn alpha(elapsed: u64, time_constant: u64) -> f64
    ensures { result ≡ Estimator.alpha elapsed time_constant }
{
    let parts = 0x10_0000_0000_0000 - crate::decay::decay_weight(elapsed, time_constant);
    float::u64_to_f64(parts) / 4503599627370496.0
}

// The rate after a tick that moves it by `alpha`.
pub fn folded_by(alpha: f64, rate: f64, attempts: u64, elapsed: u64) -> f64
    ensures { result ≡ Estimator.folded_by alpha rate attempts elapsed }
{
    let elapsed_secs = float::u64_to_f64(elapsed) / 1_000_000_000.0;
    let instantaneous_rate = float::u64_to_f64(attempts) / elapsed_secs;
    alpha * instantaneous_rate + (1.0 - alpha) * rate
}

// The rate after a tick.
fn folded(rate: f64, attempts: u64, elapsed: u64, time_constant: u64) -> f64
    ensures { result ≡ Estimator.folded rate attempts elapsed time_constant }
{
    folded_by(alpha(elapsed, time_constant), rate, attempts, elapsed)
}

// The rate over the weight `alpha` of all the time measured; 0 where there is none.
pub fn unbiased_by(alpha: f64, rate: f64, measured: u64) -> f64
    ensures { result ≡ Estimator.unbiased_by alpha rate measured }
{
    if measured == 0 {
        return 0.0;
    }
    if alpha == 0.0 {
        return 0.0;
    }
    rate / alpha
}

impl Demand {
    // An estimator at rate 0, with no times.
    pub fn new(time_constant: u64) -> Self
        ensures { result ≡ Estimator.new time_constant }
    {
        Self {
            current_rate: 0.0,
            attempts_since_tick: 0,
            times: None,
            time_constant,
        }
    }

    // The same with both times at `now`, so that its first tick has an elapsed time.
    pub fn starting_at(time_constant: u64, now: u64) -> Self
        ensures { result ≡ Estimator.starting_at time_constant now }
    {
        Self {
            current_rate: 0.0,
            attempts_since_tick: 0,
            times: Some(Times {
                last_tick: now,
                since: now,
            }),
            time_constant,
        }
    }

    // Whether the estimator could stand in a valid image.
    fn is_valid(self) -> bool
        ensures { result ≡ Estimator.valid self }
    {
        float::is_magnitude(self.current_rate)
    }

    // One attempt more.
    pub fn record_attempt(self) -> Result<Demand, Refusal>
        ensures { answer_of result ≡ Calls.record_attempts self 1 }
    {
        self.record_attempts(1)
    }

    // So many attempts more.
    pub fn record_attempts(self, n: u64) -> Result<Demand, Refusal>
        ensures { answer_of result ≡ Calls.record_attempts self n }
    {
        if !self.is_valid() {
            return Err(Refusal::Invalid);
        }
        if n > u64::MAX - self.attempts_since_tick {
            return Err(Refusal::Counter);
        }
        Ok(Self {
            attempts_since_tick: self.attempts_since_tick + n,
            ..self
        })
    }

    // Moves the rate by the attempts counted, and starts counting again.
    pub fn tick(self, now: u64) -> Result<Demand, Refusal>
        ensures { answer_of result ≡ Calls.tick self now }
    {
        if !self.is_valid() {
            return Err(Refusal::Invalid);
        }
        Ok(self.ticked(now))
    }

    fn ticked(self, now: u64) -> Self
        ensures { result ≡ Estimator.ticked self now }
    {
        match self.times {
            None => Self {
                times: Some(Times {
                    last_tick: now,
                    since: now,
                }),
                ..self
            },
            Some(t) => {
                let elapsed = now.saturating_sub(t.last_tick);
                if elapsed == 0 {
                    return self;
                }
                Self {
                    current_rate: folded(
                        self.current_rate,
                        self.attempts_since_tick,
                        elapsed,
                        self.time_constant,
                    ),
                    attempts_since_tick: 0,
                    times: Some(Times {
                        last_tick: now,
                        ..t
                    }),
                    ..self
                }
            }
        }
    }

    // Whether there are attempts that no tick has folded.
    pub fn has_pending(self) -> Result<bool, Refusal>
        ensures { answer_of result ≡ Calls.has_pending self }
    {
        if !self.is_valid() {
            return Err(Refusal::Invalid);
        }
        Ok(0 < self.attempts_since_tick)
    }

    // The rate that the last tick left.
    pub fn rate(self) -> Result<f64, Refusal>
        ensures { answer_of result ≡ Calls.rate self }
    {
        if !self.is_valid() {
            return Err(Refusal::Invalid);
        }
        Ok(self.current_rate)
    }

    // The rate over the weight that all ticks since the start have together: the start at 0 is taken
    // out.
    pub fn unbiased_rate(self) -> Result<f64, Refusal>
        ensures { answer_of result ≡ Calls.unbiased_rate self }
    {
        if !self.is_valid() {
            return Err(Refusal::Invalid);
        }
        Ok(self.unbiased())
    }

    fn unbiased(self) -> f64
        ensures { result ≡ Estimator.unbiased self }
    {
        match self.times {
            None => 0.0,
            Some(t) => {
                let measured = t.last_tick.saturating_sub(t.since);
                unbiased_by(
                    alpha(measured, self.time_constant),
                    self.current_rate,
                    measured,
                )
            }
        }
    }
}
