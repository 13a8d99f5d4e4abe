ghost use Rattle.std.specs.Prelude.{◌≡◌};
ghost use Rattle.std.specs.Option.{option_map, unwrap_or};
ghost use Rattle.staircase.specs.Limits.{Within};
ghost use Rattle.staircase.specs.Of.{value_of};
ghost use Rattle.record.specs.Setups.{content_of};

use staircase::{BreakEven, Capacity, Limited, Table};

// What a keeper is fitted with, and of the two figures those that were given.
#[derive(Clone, Copy, Debug, PartialEq, Eq)]
pub struct Setup {
    pub table: Table,
    pub capacity: Option<Capacity>,
    pub break_even: Option<BreakEven>,
}

impl Setup {
    // The capacity that was given, or the default.
    pub fn capacity(self) -> Capacity
        ensures { value_of result ≡ (content_of self).capacity }
    {
        given_or(self.capacity, 256)
    }

    // The break-even that was given, or the default.
    pub fn break_even(self) -> BreakEven
        ensures { value_of result ≡ (content_of self).break_even }
    {
        given_or(self.break_even, 1)
    }
}

// The figure that was given, or the default. A rule of the project wants an optional field taken apart by `let .. else`.
fn given_or<const MOST: u16>(given: Option<Limited<MOST>>, default: u16) -> Limited<MOST>
    requires { Within MOST default }
    ensures { value_of result ≡ unwrap_or (option_map value_of given.entry) default }
{
    let Some(figure) = given else {
        return known(default);
    };
    figure
}

// A figure that is known to keep its limits.
pub(crate) fn known<const MOST: u16>(value: u16) -> Limited<MOST>
    requires { Within MOST value }
    ensures { value_of result ≡ value }
{
    Limited::new(value).unwrap()
}
