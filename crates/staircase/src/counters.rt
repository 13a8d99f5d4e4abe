ghost use Rattle.std.specs.Prelude.{◌≡◌, true, length};
ghost use Rattle.std.proofs.Props.{props};
ghost use Rattle.staircase.specs.Limits.{any_there};
ghost use Rattle.staircase.specs.Counting.{AllProper};

use crate::slots::Slots;

mod calls;

// The counters of a table, one for each of its staircases.
#[derive(Drop)]
pub struct Counters {
    slots: Slots,
    ghost counters: { length slots.counters ≡ 4 },
    ghost some: { any_there slots.counters ≡ true },
    ghost limits: { AllProper slots.counters } by { Prim.hlevel props },
}

// The lowest-numbered staircase that a refused sample would break.
#[derive(Clone, Copy, Debug, PartialEq, Eq)]
pub struct Broken {
    pub staircase: u8,
}
