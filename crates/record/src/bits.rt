ghost use Rattle.std.specs.Prelude.{◌≡◌, ◌+◌, ◌<◌, ◌≤◌};
ghost use Rattle.record.specs.Layout.{stands, width, called_for};
ghost use Rattle.record.specs.Reading.{some_staircase, bits_checked};

use crate::faults::RecordFault;

// The first byte of a record: which fields stand in it.
#[derive(Clone, Copy, Debug, PartialEq, Eq)]
pub(crate) struct BitMap(pub(crate) u8);

impl BitMap {
    // Whether that bit stands. Bits go by their numbers in the record's format, and so do the ranges over them below: an enum of
    // fields would be no plainer.
    pub(crate) fn has(self, bit: u8) -> bool
        requires { bit < 8 }
        ensures { result ≡ stands self.0 bit }
    {
        self.0 >> bit & 1 == 1
    }

    // Whether the bit of a staircase stands.
    fn has_staircase(self) -> bool
        ensures { result ≡ some_staircase self.0 }
    {
        (0..4).any(|bit| self.has(bit))
    }

    // How many bytes the field of that bit takes.
    fn width(self, bit: u8) -> u16
        requires { bit < 8 }
        ensures value { result ≡ width self.0 bit }
        ensures few { result ≤ 3 }
    {
        if !self.has(bit) {
            0
        } else if bit < 4 {
            3
        } else {
            2
        }
    }

    // How many bytes the fields take.
    fn fields_width(self) -> u16
        ensures value { 1 + result ≡ called_for self.0 }
        ensures few { result ≤ 18 }
    {
        (0..6).map(|bit| self.width(bit)).sum()
    }

    // How long a record with these bits has to be.
    fn called_for(self) -> u16
        ensures value { result ≡ called_for self.0 }
        ensures few { result ≤ 19 }
    {
        1 + self.fields_width()
    }

    // What the bits alone, and with them the length of the record, are refused for.
    pub(crate) fn check(self, length: usize) -> Result<(), RecordFault>
        ensures { result ≡ bits_checked self.0 length }
    {
        if self.has(6) || self.has(7) {
            return Err(RecordFault::UnknownBits);
        }
        if !self.has_staircase() {
            return Err(RecordFault::NoStaircase);
        }
        let called_for = self.called_for();
        if length < usize::from(called_for) {
            return Err(RecordFault::Short(u16::try_from(length).unwrap()));
        }
        if length > usize::from(called_for) {
            return Err(RecordFault::Long(called_for));
        }
        Ok(())
    }
}
