ghost use Rattle.std.specs.Prelude.{◌≡◌};
ghost use Rattle.staircase.specs.Of.{stair_of};
ghost use Rattle.staircase.specs.Counting.{Proper, full, elapsed, charged, is_empty, until_full, bound};

use crate::Staircase;

// A staircase's counter. It has a token for each sample that may come at once, and a timer for the next token. It is plain
// by a rule of the project: `Proper` is an invariant of the table around all counters, and here a `requires`.
#[derive(Clone, Copy, Debug, PartialEq, Eq)]
pub(crate) struct Counter {
    burst: u16,
    step: u16,
    tokens: u16,
    // the ticks until it elapses
    timer: u16,
}

impl Counter {
    // A new counter has all its tokens.
    pub(crate) fn full(staircase: Staircase) -> Counter
        ensures { result ≡ full (stair_of staircase) }
    {
        let burst = staircase.burst.get();
        let step = staircase.step.get();
        Counter {
            burst,
            step,
            tokens: burst,
            timer: step,
        }
    }

    // A tick passes.
    pub(crate) fn tick(&mut self)
        requires { Proper self.old }
        ensures { self.new ≡ elapsed self.old }
    {
        let left = self.timer - 1;
        if left > 0 {
            self.timer = left;
        } else {
            self.tokens = self.burst.min(self.tokens + 1);
            self.timer = self.step;
        }
    }

    // A sample takes a token.
    pub(crate) fn charge(&mut self)
        ensures { self.new ≡ charged self.old }
    {
        if self.tokens == self.burst {
            self.timer = self.step;
        }
        self.tokens = self.tokens.saturating_sub(1);
    }

    pub(crate) fn is_empty(&self) -> bool
        ensures { result ≡ is_empty self.now }
    {
        self.tokens == 0
    }

    // The ticks that it takes to fill up if no sample comes.
    fn until_full(&self) -> u32
        requires { Proper self.now }
        ensures { result ≡ until_full self.now }
    {
        let missing = self.burst - self.tokens;
        if missing == 0 {
            return 0;
        }
        u32::from(missing) * u32::from(self.step) - u32::from(self.step - self.timer)
    }

    // The most samples that it lets come in the present tick and so many more.
    pub(crate) fn bound(&self, horizon: u32) -> u64
        requires { Proper self.now }
        ensures { result ≡ bound self.now horizon }
    {
        let full = u32::from(self.burst) * u32::from(self.step);
        (u64::from(full - self.until_full()) + u64::from(horizon)) / u64::from(self.step)
    }
}
