// Says what the table record in the file table.bin holds, or what a sonde sheet given as arguments says.
#![tactic(auto)]

ghost use Rattle.std.specs.Prelude.{◌≡◌};
ghost use Rattle.std.specs.Result.{result_map_both};
ghost use Rattle.record.specs.Faults.{record_fault, sheet_fault};
ghost use Rattle.record.specs.Reading.{reading};
ghost use Rattle.record.specs.Setups.{said};
ghost use Rattle.record.specs.Sheets.{sheet_read};

mod asking;
mod reporting;

use anyhow::Context;
use asking::{Request, asked};
use fault::Fault;
use record::{Setup, Sheet, read};
use reporting::Report;
use std::{env, fs};

// What a record says, or its fault. This and `sheet_says` are alike in their bodies alone: what they read and promise differs.
fn record_says(bytes: &[u8]) -> Result<Setup, Fault>
    ensures { said result ≡ result_map_both (λ c. c) record_fault (reading bytes.now) }
{
    Ok(read(bytes)?)
}

// What a sheet says, or its fault.
fn sheet_says(sheet: Sheet) -> Result<Setup, Fault>
    ensures { said result ≡ result_map_both (λ c. c) sheet_fault (sheet_read sheet) }
{
    Ok(sheet.setup()?)
}

// What the record in the file says. A file that cannot be read counts as an empty record.
fn record_in(rt: &HostRuntime, path: &str) -> Result<Setup, Fault> {
    let bytes = fs::read(rt, path).unwrap_or_else(|_| Vec::new(rt.alloc()));
    record_says(&bytes)
}

fn run(rt: &HostRuntime) -> anyhow::Result<()> {
    let arguments: Vec<String> = env::args(rt)?.collect(rt.alloc())?;
    let request = asked(&arguments).context("usage: inspect [--sheet PERIOD JITTER DISTANCE]")?;
    let found = match request {
        Request::Record => record_in(rt, "table.bin"),
        Request::Sheet(sheet) => sheet_says(sheet),
    };
    rt.print(Report(found))?;
    Ok(())
}

fn main(rt: HostRuntime) -> anyhow::Result<()> {
    run(&rt)
}

#[cfg(test)]
mod tests {
    use super::*;
    use std::alloc::Global;
    use std::process::Abort;
    use std::test::Fail;

    // What is printed of what was found.
    fn prints(
        rt: &impl Abort,
        heap: Global,
        found: Result<Setup, Fault>,
        text: &str,
    ) -> Result<(), Fail> {
        assert_eq!(rt; Report(found).to_string(heap)?.as_str(), text);
        Ok(())
    }

    #[test]
    fn records(rt: HostRuntime) -> Result<(), Fail> {
        let heap = rt.alloc();
        prints(&rt, heap, record_says(&[]), "! R 1 0\n")?;
        prints(
            &rt,
            heap,
            record_says(&[0x13, 4, 0, 10, 1, 0, 6, 0]),
            "! R 4 8\n",
        )?;
        prints(
            &rt,
            heap,
            record_says(&[0x38, 255, 0x27, 0x10, 1, 0, 0xEA, 0x60]),
            "staircase 3: burst 255, step 10000\ncapacity 256\nbreak-even 60000\n",
        )
    }

    #[test]
    fn files_that_cannot_be_read(rt: HostRuntime) -> Result<(), Fail> {
        prints(&rt, rt.alloc(), record_in(&rt, "no/such/file"), "! R 1 0\n")
    }

    #[test]
    fn sheets(rt: HostRuntime) -> Result<(), Fail> {
        let heap = rt.alloc();
        let sheet = Sheet {
            period: 10,
            jitter: 20,
            distance: 3,
        };
        prints(
            &rt,
            heap,
            sheet_says(sheet),
            "staircase 0: burst 3, step 10\nstaircase 1: burst 1, step 3\ncapacity 256 (default)\nbreak-even 1 (default)\n",
        )?;
        let sheet = Sheet {
            period: 1,
            jitter: 255,
            distance: 0,
        };
        prints(&rt, heap, sheet_says(sheet), "! S 7 1\n")
    }
}
