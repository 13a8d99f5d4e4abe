ghost use Rattle.std.specs.Prelude.{◌≡◌, ◌<◌};
ghost use Rattle.std.specs.Option.{option_map};
ghost use Rattle.std.specs.Result.{result_map_both};
ghost use Rattle.staircase.specs.Limits.{limited, most_burst};
ghost use Rattle.staircase.specs.Of.{value_of, stair_of};
ghost use Rattle.record.specs.Setups.{said};
ghost use Rattle.record.specs.Sheets.{burst_of, distance_read, sheet_read, SheetExact};

use crate::faults::SheetFault;
use crate::setup::{Setup, known};
use staircase::{Burst, Limited, Staircase, Table};

// What the maker of a sonde says of the samples that it sends, in ticks.
#[derive(Clone, Copy, Debug, PartialEq, Eq)]
pub struct Sheet {
    // from one sample to the next
    pub period: u32,
    // how much later than it is due a sample may come
    pub jitter: u32,
    // no two samples come closer; 0 for none
    pub distance: u32,
}

// The figure of that value, if the value keeps the limits.
fn figure<const MOST: u16>(value: u32) -> Option<Limited<MOST>>
    ensures { option_map value_of result ≡ limited MOST value }
{
    // tried by `and_then(Limited::new)`: a function whose result has a const parameter gets no proof there
    Limited::new(u16::try_from(value).ok()?)
}

impl Sheet {
    // One more than the whole periods that the jitter holds.
    fn burst(self) -> Option<Burst>
        requires { 0 < self.period }
        ensures { option_map value_of result ≡ limited most_burst (burst_of self) }
    {
        figure((self.jitter / self.period).saturating_add(1))
    }

    // The staircase that keeps samples apart, if there is a least distance.
    fn apart(self) -> Result<Option<Staircase>, SheetFault>
        ensures { result_map_both (option_map stair_of) (λ e. e) result ≡ distance_read self.distance }
    {
        if self.distance == 0 {
            return Ok(None);
        }
        let step = figure(self.distance).ok_or(SheetFault::Distance)?;
        Ok(Some(Staircase {
            burst: known(1),
            step,
        }))
    }

    // What the figures make, each within its limits.
    fn staircases(self) -> Result<Setup, SheetFault>
        ensures { said result ≡ sheet_read self }
    {
        let step = figure(self.period).ok_or(SheetFault::Period)?;
        let burst = self.burst().ok_or(SheetFault::Jitter)?;
        let apart = self.apart()?;
        Ok(Setup {
            table: Table::new([Some(Staircase { burst, step }), apart, None, None]).unwrap(),
            capacity: None,
            break_even: None,
        })
    }

    // What the sheet says, or which of its figures is beyond the limits.
    #[tactic(auto, using(crate::proofs::Sheeted::exact_sheet))]
    pub fn setup(self) -> Result<Setup, SheetFault>
        ensures value { said result ≡ sheet_read self }
        ensures exact { SheetExact self (said result) }
    {
        self.staircases()
    }
}
