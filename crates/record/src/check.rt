ghost use Rattle.std.specs.Prelude.{◌≡◌};
ghost use Rattle.record.specs.Checks.{verdict, Verdict};
ghost use Rattle.record.specs.Reading.{reading};

use crate::reading::read;
use fault::Fault;

fn checked(bytes: &[u8]) -> u32
    ensures value { result ≡ verdict (reading bytes.now) }
    ensures tells { Verdict bytes.now result }
{
    read(bytes).map_or_else(|e| Fault::from(e).packed(), |_| 0)
}

// The check of a record that callers in C get: 0 if it is taken, and else the refusal's number times 65,536 and its place.
// A number, since C takes no `Result`; callers in Rattle have `read`.
pub fn napkinridge_record_check(record: &[u8]) -> u32
    ensures value { result ≡ verdict (reading «record».now) }
    ensures tells { Verdict «record».now result }
{
    checked(record)
}
