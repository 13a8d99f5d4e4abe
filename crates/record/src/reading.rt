ghost use Rattle.std.specs.Prelude.{◌≡◌, OnOk};
ghost use Rattle.record.specs.Layout.{table_width};
ghost use Rattle.record.specs.Steps.{cursor_of, past, table_of, table_read, setup_read};
ghost use Rattle.record.specs.Reading.{reading};
ghost use Rattle.record.specs.Exact.{Exact, Lengths};
ghost use Rattle.record.specs.Setups.{said};

use crate::bits::BitMap;
use crate::faults::RecordFault;
use crate::reader::Reader;
use crate::setup::Setup;
use staircase::Table;

const CAPACITY_BIT: u8 = 4;

const BREAK_EVEN_BIT: u8 = 5;

// The four staircases, of those whose bits stand.
fn table(reader: &mut Reader, map: BitMap) -> Result<Table, RecordFault>
    ensures value { table_of result ≡ table_read map.0 (cursor_of reader.old) }
    ensures moved { OnOk result (cursor_of reader.new ≡ past (table_width map.0) (cursor_of reader.old)) }
{
    // tried by the array's `try_map`: it does not tie the reader of one call to that of the next, and the proof did not close
    let staircases = [
        reader.staircase(map.has(0))?,
        reader.staircase(map.has(1))?,
        reader.staircase(map.has(2))?,
        reader.staircase(map.has(3))?,
    ];
    Table::new(staircases).ok_or(RecordFault::NoStaircase)
}

// What the fields of a record with these bits say.
fn setup(mut reader: Reader, map: BitMap) -> Result<Setup, RecordFault>
    ensures { said result ≡ setup_read map.0 (cursor_of reader.entry) }
{
    Ok(Setup {
        table: table(&mut reader, map)?,
        capacity: reader.optional(map.has(CAPACITY_BIT))?,
        break_even: reader.optional(map.has(BREAK_EVEN_BIT))?,
    })
}

// The bit map is split off, and tells which fields to read.
fn split(bytes: &[u8]) -> Result<Setup, RecordFault>
    ensures { said result ≡ reading bytes.now }
{
    let [bits, fields @ ..] = bytes else {
        return Err(RecordFault::Empty);
    };
    let map = BitMap(*bits);
    map.check(bytes.len())?;
    setup(Reader::after_bit_map(fields), map)
}

// What the record says, or why it is refused.
#[tactic(auto, using(crate::proofs::Whole::exact_read, crate::proofs::Laid::lengths))]
pub fn read(bytes: &[u8]) -> Result<Setup, RecordFault>
    ensures value { said result ≡ reading bytes.now }
    ensures exact { Exact bytes.now (said result) }
    ensures lengths { Lengths }
{
    split(bytes)
}
