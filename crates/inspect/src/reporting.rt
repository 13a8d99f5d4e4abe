ghost use Rattle.std.specs.Prelude.{Some};
ghost use Rattle.std.specs.Option.{option_map};
ghost use Rattle.staircase.specs.Of.{stair_of, stairs_of};
ghost use Rattle.record.specs.Setups.{content_of, said};
ghost use Rattle.inspect.specs.Report.{stair_line, stair_lines, figure_line, content_lines, report_lines};

use fault::Fault;
use record::Setup;
use staircase::{Staircase, Table};
use std::fmt;

// The line of a staircase with its number; a number without a staircase has none.
#[derive(Clone, Copy, Debug, PartialEq, Eq)]
struct StairLine {
    number: usize,
    staircase: Option<Staircase>,
}

impl fmt::Display for StairLine {
    ghost output = { λ l. Some (stair_line l.number (option_map stair_of l.staircase)) };

    fn fmt<W: fmt::Write>(&self, f: &mut fmt::Formatter<W>) -> fmt::Result {
        // a `match` or `if let` would be no plainer: the line is the rest
        let Some(staircase) = self.staircase else {
            return Ok(());
        };
        let burst = staircase.burst.get();
        let step = staircase.step.get();
        writeln!(f, "staircase {}: burst {burst}, step {step}", self.number)
    }
}

// The lines of the staircases, in the order of their numbers.
#[derive(Clone, Copy, Debug, PartialEq, Eq)]
struct TableLines(Table);

impl fmt::Display for TableLines {
    ghost output = { λ t. Some (stair_lines 0 (stairs_of t.0)) };

    fn fmt<W: fmt::Write>(&self, f: &mut fmt::Formatter<W>) -> fmt::Result {
        for (number, staircase) in self.0.staircases().into_iter().enumerate() {
            write!(f, "{}", StairLine { number, staircase })?;
        }
        Ok(())
    }
}

// The line of a figure, which is marked if it was not given. The value is printed either way, so an `Option` in place of
// value and flag would be no plainer: it would lose the default.
#[derive(Clone, Copy, Debug, PartialEq, Eq)]
struct FigureLine<'a> {
    name: &'a str,
    value: u16,
    given: bool,
}

impl fmt::Display for FigureLine<'_> {
    ghost output = { λ l. Some (figure_line l.name.now l.value l.given) };

    fn fmt<W: fmt::Write>(&self, f: &mut fmt::Formatter<W>) -> fmt::Result {
        let mark = if self.given { "" } else { " (default)" };
        writeln!(f, "{} {}{mark}", self.name, self.value)
    }
}

// The lines of the staircases, the capacity and the break-even.
#[derive(Clone, Copy, Debug, PartialEq, Eq)]
struct SetupLines(Setup);

impl fmt::Display for SetupLines {
    ghost output = { λ s. Some (content_lines (content_of s.0)) };

    fn fmt<W: fmt::Write>(&self, f: &mut fmt::Formatter<W>) -> fmt::Result {
        let setup = self.0;
        let table = TableLines(setup.table);
        let capacity = FigureLine {
            name: "capacity",
            value: setup.capacity().get(),
            given: setup.capacity.is_some(),
        };
        let break_even = FigureLine {
            name: "break-even",
            value: setup.break_even().get(),
            given: setup.break_even.is_some(),
        };
        write!(f, "{table}{capacity}{break_even}")
    }
}

// All that is printed of what was found.
#[derive(Clone, Copy, PartialEq, Eq)]
pub(crate) struct Report(pub(crate) Result<Setup, Fault>);

impl fmt::Display for Report {
    ghost output = { λ r. Some (report_lines (said r.0)) };

    fn fmt<W: fmt::Write>(&self, f: &mut fmt::Formatter<W>) -> fmt::Result {
        match self.0 {
            Ok(setup) => write!(f, "{}", SetupLines(setup)),
            Err(fault) => writeln!(f, "{fault}"),
        }
    }
}
