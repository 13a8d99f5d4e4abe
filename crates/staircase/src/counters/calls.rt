ghost use Rattle.std.specs.Prelude.{◌≡◌, true, map, length, Some, OnErr};
ghost use Rattle.std.specs.Option.{option_map};
ghost use Rattle.staircase.specs.Limits.{any_there};
ghost use Rattle.staircase.specs.Of.{stair_of, stairs_of};
ghost use Rattle.staircase.specs.Tables.{counters_of, fresh, all_elapsed, lowest_empty, refusal_of, arrived, least_bound};
ghost use Rattle.staircase.specs.Promise.{Promise};

use super::{Broken, Counters};
use crate::slots::Slots;
use crate::{Staircase, Table};

impl Counters {
    // The counters of the table, all full.
    #[tactic(auto, using(crate::proofs::Keeping::fresh_promised))]
    pub fn new(table: Table) -> Counters
        ensures value { counters_of result ≡ fresh (stairs_of table) }
        ensures promise { Promise (stairs_of table) (counters_of result) }
    {
        Counters {
            slots: Slots::new(table.staircases),
        }
    }

    // A tick passes: timers run, and those that elapse bring their counter a token.
    pub fn tick(&mut self)
        ensures { counters_of self.new ≡ all_elapsed (counters_of self.old) }
    {
        self.slots.tick();
    }

    // A sample arrives. It takes a token from every counter, or is refused if one has none.
    pub fn arrive(&mut self) -> Result<(), Broken>
        ensures value { refusal_of result ≡ lowest_empty (counters_of self.old) }
        ensures after { counters_of self.new ≡ arrived (counters_of self.old) }
        ensures same { OnErr result (self.new ≡ self.old) }
    {
        if let Some(staircase) = self.slots.lowest_empty() {
            return Err(Broken { staircase });
        }
        self.slots.charge();
        Ok(())
    }

    // The most samples that can still come in the present tick and the `horizon` ticks after it.
    pub fn bound(&self, horizon: u32) -> u64
        ensures { Some result ≡ least_bound (counters_of self.now) horizon }
    {
        self.slots.bound(horizon)
    }
}
