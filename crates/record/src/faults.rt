ghost use Rattle.std.specs.Prelude.{◌≡◌};
ghost use Rattle.record.specs.Faults.{record_fault, sheet_fault};

use fault::{Fault, Layer};

// Why a table record is refused.
#[derive(Clone, Copy, Debug, PartialEq, Eq)]
pub enum RecordFault {
    // there is no bit map
    Empty,
    // the bit map has a bit that stands for no field
    UnknownBits,
    // no bit of a staircase stands
    NoStaircase,
    // shorter than its bits call for: the length of the record
    Short(u16),
    // longer than its bits call for: the length that they call for
    Long(u16),
    // a field is beyond its limits: where the earliest such field begins
    Beyond(u16),
}

impl From<RecordFault> for Fault {
    ghost from_gives = { λ e r. r ≡ record_fault e };

    fn from(e: RecordFault) -> Fault {
        let (number, place) = match e {
            RecordFault::Empty => (1, 0),
            RecordFault::UnknownBits => (2, 0),
            RecordFault::NoStaircase => (3, 0),
            RecordFault::Short(length) => (4, length),
            RecordFault::Long(called_for) => (5, called_for),
            RecordFault::Beyond(offset) => (6, offset),
        };
        Fault {
            layer: Layer::Record,
            number,
            place,
        }
    }
}

// Which figure of a sonde sheet is beyond its limits.
#[derive(Clone, Copy, Debug, PartialEq, Eq)]
pub enum SheetFault {
    Period,
    // the burst that comes of it is
    Jitter,
    Distance,
}

impl From<SheetFault> for Fault {
    ghost from_gives = { λ e r. r ≡ sheet_fault e };

    fn from(e: SheetFault) -> Fault {
        let place = match e {
            SheetFault::Period => 0,
            SheetFault::Jitter => 1,
            SheetFault::Distance => 2,
        };
        Fault {
            layer: Layer::Sheet,
            number: 7,
            place,
        }
    }
}
