ghost use Rattle.std.specs.Prelude.{◌≡◌};
ghost use Rattle.std.specs.Option.{option_map};
ghost use Rattle.staircase.specs.Limits.{limited};
ghost use Rattle.staircase.specs.Of.{value_of};

use super::Limited;

impl<const MOST: u16> Limited<MOST> {
    // The figure of that value, if the value keeps the limits. As with the library's `NonZero` it is an `Option`: callers give
    // it a fault of their own by `ok_or`, and a `TryFrom` would be no plainer, with an error that nobody reads.
    pub fn new(value: u16) -> Option<Limited<MOST>>
        ensures { option_map value_of result ≡ limited MOST value }
    {
        if value < 1 || value > MOST {
            return None;
        }
        Some(Limited { value })
    }

    pub fn get(self) -> u16
        ensures { result ≡ value_of self.entry }
    {
        self.value
    }
}
