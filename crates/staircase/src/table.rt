ghost use Rattle.std.specs.Prelude.{◌≡◌, true, length};
ghost use Rattle.staircase.specs.Limits.{any_there};

use super::{Burst, Step};

mod calls;

// A limit on the samples that may come: the burst at once, and one more with each step.
#[derive(Clone, Copy, Debug, PartialEq, Eq)]
pub struct Staircase {
    pub burst: Burst,
    pub step: Step,
}

// Up to four staircases, and one at least. Each has its number from 0 to 3, and numbers may be missing. They stand in an array,
// since there is no heap on the card.
#[derive(Clone, Copy, Debug, PartialEq, Eq)]
pub struct Table {
    pub(crate) staircases: [Option<Staircase>; 4],
    ghost four: { length staircases ≡ 4 },
    ghost some: { any_there staircases ≡ true },
}
