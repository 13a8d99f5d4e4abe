ghost use Rattle.std.specs.Prelude.{◌≡◌};
ghost use Rattle.std.specs.Option.{option_map};
ghost use Rattle.replay.specs.Lines.{alone, counting, begun, beginning};

use crate::calls::Call;
use anyhow::Context;
use staircase::{Burst, Staircase, Step, Table};
use std::alloc::Global;

#[derive(Clone, Copy, Debug, PartialEq, Eq)]
pub(crate) enum Line {
    Begin(Table),
    Make(Call),
}

// A staircase by its figures; there is none for figures beyond their limits, as 0 and 0.
fn staircase(burst: &str, step: &str) -> Option<Staircase> {
    Some(Staircase {
        burst: Burst::new(burst.parse::<u16>().ok()?)?,
        step: Step::new(step.parse::<u16>().ok()?)?,
    })
}

fn call(name: &str, number: u32) -> Option<Line>
    ensures { result ≡ counting name.now number }
{
    match name {
        "ticks" => Some(Line::Make(Call::Ticks(number))),
        "bound" => Some(Line::Make(Call::Bound(number))),
        _ => None,
    }
}

fn sample(name: &str) -> Option<Line>
    ensures { result ≡ alone name.now }
{
    match name {
        "sample" => Some(Line::Make(Call::Sample)),
        _ => None,
    }
}

fn begin(name: &str, staircases: [Option<Staircase>; 4]) -> Option<Line>
    ensures { option_map begun result ≡ beginning name.now staircases }
{
    match name {
        "table" => Table::new(staircases).map(Line::Begin),
        _ => None,
    }
}

fn line_in(words: &[&str]) -> Option<Line> {
    match words {
        [name] => sample(name),
        [name, number] => call(name, number.parse::<u32>().ok()?),
        [name, b0, s0, b1, s1, b2, s2, b3, s3] => begin(
            name,
            [(b0, s0), (b1, s1), (b2, s2), (b3, s3)].map(|(burst, step)| staircase(burst, step)),
        ),
        _ => None,
    }
}

// What a line asks for. It is no `FromStr`: that has no heap for the words, and words in an array of options read worse
// than a slice of them.
pub(crate) fn line_of(heap: Global, line: &str) -> anyhow::Result<Line> {
    let words: Vec<&str> = line.split_whitespace().collect(heap)?;
    line_in(&words).context("a line that is neither a table nor a call")
}

#[cfg(test)]
mod tests {
    use super::*;

    fn is_line(heap: Global, line: &str) -> bool {
        line_of(heap, line).is_ok()
    }

    #[test]
    fn lines(rt: HostRuntime) {
        let heap = rt.alloc();
        assert!(rt; is_line(heap, "table 0 0 0 0 0 0 255 10000"));
        assert!(rt; !is_line(heap, "table 0 0 0 0 0 0 256 10000"));
        assert!(rt; !is_line(heap, "table 0 0 0 0 0 0 255 10001"));
        assert!(rt; !is_line(heap, "table 4 10"));
        assert!(rt; !is_line(heap, "tables 4 10 1 6 0 0 0 0"));
        assert!(rt; is_line(heap, "ticks 0"));
        assert!(rt; is_line(heap, "bound 4294967295"));
        assert!(rt; !is_line(heap, "bound 4294967296"));
        assert!(rt; !is_line(heap, "bound -1"));
        assert!(rt; !is_line(heap, "tick 1"));
        assert!(rt; is_line(heap, "sample"));
        assert!(rt; !is_line(heap, "sample 1"));
        assert!(rt; !is_line(heap, "samples"));
        assert!(rt; !is_line(heap, ""));
    }
}
