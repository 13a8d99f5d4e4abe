ghost use Rattle.staircase.specs.Limits.{Within};

mod calls;

// A figure of 1 to MOST.
#[derive(Clone, Copy, Debug, PartialEq, Eq)]
pub struct Limited<const MOST: u16> {
    value: u16,
    ghost limits: { Within MOST value },
}

// How many samples a staircase lets come at once.
pub type Burst = Limited<255>;

// The ticks after which a staircase lets one sample more come.
pub type Step = Limited<10_000>;

// How many samples may wait on the card.
pub type Capacity = Limited<256>;

// The shortest sleep, in ticks, that is worth its waking.
pub type BreakEven = Limited<60_000>;
