// The check of a table record, as the card's firmware in C calls it.
#![tactic(auto)]

ghost use Rattle.std.specs.Prelude.{◌≡◌};
ghost use Rattle.record.specs.Checks.{verdict, Verdict};
ghost use Rattle.record.specs.Reading.{reading};

// 0 if the record is taken, and else the refusal's number times 65,536 and its place. A number, since C takes no `Result`.
#[unsafe(no_mangle)]
pub extern "C" fn napkinridge_record_check(record: &[u8]) -> u32
    ensures value { result ≡ verdict (reading «record».now) }
    ensures tells { Verdict «record».now result }
{
    record::napkinridge_record_check(record)
}
