ghost use Rattle.std.specs.Prelude.{◌≡◌, true, map, length, Some};
ghost use Rattle.std.specs.Option.{option_map};
ghost use Rattle.staircase.specs.Counting.{Sound};
ghost use Rattle.staircase.specs.Of.{stair_of};
ghost use Rattle.staircase.specs.Limits.{any_there};
ghost use Rattle.staircase.specs.Tables.{fresh, all_elapsed, all_charged, lowest_empty, least_bound};

use crate::Staircase;
use crate::counter::Counter;

// A place for each number that a staircase can have, with its counter where there is a staircase. It is plain, as the
// counters are by a rule of the project: the table around it has `Sound` as its invariant, and here each contract states it.
// An array, since there is no heap on the card.
#[derive(Drop)]
pub(crate) struct Slots {
    counters: [Option<Counter>; 4],
}

impl Slots {
    // Full counters for the staircases, of which there is one at least.
    pub(crate) fn new(staircases: [Option<Staircase>; 4]) -> Slots
        requires four { length staircases ≡ 4 }
        requires some { any_there staircases ≡ true }
        ensures counters { result.counters ≡ fresh (map (option_map stair_of) staircases) }
        ensures sound { Sound result.counters }
    {
        Slots {
            counters: staircases.map(|staircase| staircase.map(Counter::full)),
        }
    }

    // A tick passes each counter.
    pub(crate) fn tick(&mut self)
        requires { Sound self.old.counters }
        ensures after { self.new.counters ≡ all_elapsed self.old.counters }
        ensures sound { Sound self.new.counters }
    {
        // on a copy that is put back: ticked where they stand, the counters of a full table take twice the time
        let mut counters = self.counters;
        // tried by `iter_mut().flatten()`: no lemma ties what it yields to the array, and the proof did not close
        for place in counters.iter_mut() {
            if let Some(counter) = place {
                counter.tick();
            }
        }
        self.counters = counters;
    }

    // A sample takes a token from each counter.
    pub(crate) fn charge(&mut self)
        requires { Sound self.old.counters }
        ensures after { self.new.counters ≡ all_charged self.old.counters }
        ensures sound { Sound self.new.counters }
    {
        // tried by `iter_mut().flatten()`, as in `tick`
        for place in self.counters.iter_mut() {
            if let Some(counter) = place {
                counter.charge();
            }
        }
    }

    // The lowest number whose counter has no token.
    pub(crate) fn lowest_empty(&self) -> Option<u8>
        requires { Sound self.now.counters }
        ensures { result ≡ lowest_empty self.now.counters }
    {
        self.counters
            .iter()
            .position(|place| place.as_ref().is_some_and(|counter| counter.is_empty()))
            .map(|number| u8::try_from(number).unwrap())
    }

    // The least bound of the counters, if there is one.
    fn least_bound(&self, horizon: u32) -> Option<u64>
        requires { Sound self.now.counters }
        ensures { result ≡ least_bound self.now.counters horizon }
    {
        self.counters
            .iter()
            .filter_map(|place| place.as_ref().map(|counter| counter.bound(horizon)))
            .min()
    }

    // The least bound of the counters, of which there is one at least.
    pub(crate) fn bound(&self, horizon: u32) -> u64
        requires { Sound self.now.counters }
        ensures { Some result ≡ least_bound self.now.counters horizon }
    {
        self.least_bound(horizon).unwrap()
    }
}
