ghost use Rattle.std.specs.Prelude.{◌≡◌, not, None, slice_index_or};
ghost use Rattle.std.specs.Option.{option_map};
ghost use Rattle.staircase.specs.Limits.{any_there, tabled};
ghost use Rattle.staircase.specs.Of.{staircases_of};

use super::{Staircase, Table};

// Whether no place has a staircase.
fn all_free(staircases: &[Option<Staircase>]) -> bool
    ensures { result ≡ not (any_there staircases.now) }
{
    !staircases.iter().any(Option::is_some)
}

impl Table {
    // The table that has at each number the staircase given for it, if there is one at all.
    pub fn new(staircases: [Option<Staircase>; 4]) -> Option<Table>
        ensures { option_map staircases_of result ≡ tabled staircases }
    {
        if all_free(&staircases) {
            return None;
        }
        Some(Table { staircases })
    }

    // By number.
    pub fn staircases(&self) -> [Option<Staircase>; 4]
        ensures { result ≡ staircases_of self.now }
    {
        self.staircases
    }

    // The staircase of that number, if the table has it.
    pub fn staircase(&self, number: usize) -> Option<Staircase>
        ensures { result ≡ slice_index_or (staircases_of self.now) number None }
    {
        *self.staircases.get(number)?
    }
}
