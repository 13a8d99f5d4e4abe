ghost use Rattle.std.specs.Prelude.{◌≡◌, Some};
ghost use Rattle.staircase.specs.Tables.{counters_of};
ghost use Rattle.replay.specs.Replayed.{elapsed_by, left, answered, text};

use staircase::{Broken, Counters};
use std::fmt;

#[derive(Clone, Copy, Debug, PartialEq, Eq)]
pub(crate) enum Call {
    Ticks(u32),
    Sample,
    Bound(u32),
}

// What a call is answered; ticks are not.
#[derive(Clone, Copy, Debug, PartialEq, Eq)]
pub(crate) enum Answer {
    Sample(Result<(), Broken>),
    Bound(u64),
}

impl fmt::Display for Answer {
    ghost output = { λ a. Some (text a) };

    fn fmt<W: fmt::Write>(&self, f: &mut fmt::Formatter<W>) -> fmt::Result {
        match self {
            Answer::Sample(Ok(())) => write!(f, "accepted"),
            Answer::Sample(Err(Broken { staircase })) => write!(f, "refused {staircase}"),
            Answer::Bound(count) => write!(f, "bound {count}"),
        }
    }
}

// So many ticks. The loop repeats one call and uses no index: a chain would be no plainer.
fn pass(counters: &mut Counters, ticks: u32)
    ensures { counters_of counters.new ≡ elapsed_by ticks (counters_of counters.old) }
{
    for _done in 0..ticks {
        counters.tick();
    }
}

// Makes the call. The kinds of call are read from input, a closed set: closures in place of the enum would be no plainer.
pub(crate) fn made(counters: &mut Counters, call: Call) -> Option<Answer>
    ensures value { result ≡ answered call (counters_of counters.old) }
    ensures after { counters_of counters.new ≡ left call (counters_of counters.old) }
{
    match call {
        Call::Ticks(count) => {
            pass(counters, count);
            None
        }
        Call::Sample => Some(Answer::Sample(counters.arrive())),
        Call::Bound(horizon) => Some(Answer::Bound(counters.bound(horizon))),
    }
}
