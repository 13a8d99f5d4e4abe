ghost use Rattle.std.specs.Prelude.{◌≡◌, ◌+◌, ◌*◌, ◌^◌, ◌<◌, length, OnOk};
ghost use Rattle.record.specs.Layout.{wide};
ghost use Rattle.record.specs.Steps.{cursor_of, past, byte_read, pair_read, judged, burst_read, figure_read, stair_read, field_read, figure_of, staircase_of, field_of};

use super::Reader;
use crate::faults::RecordFault;
use staircase::{Burst, Limited, Staircase};

// The figure that begins at that place, if the number there keeps the limits.
fn judged<const MOST: u16>(place: u16, number: u16) -> Result<Limited<MOST>, RecordFault>
    ensures { figure_of result ≡ judged MOST place number }
{
    Limited::new(number).ok_or(RecordFault::Beyond(place))
}

impl<'a> Reader<'a> {
    // A reader of the fields that follow a bit map.
    pub(crate) fn after_bit_map(fields: &'a [u8]) -> Reader<'a>
        requires { 1 + length fields.now < 2 ^ 16 }
        ensures { cursor_of result ≡ record { rest = fields.now; offset = 1 } }
    {
        Reader {
            rest: fields,
            offset: 1,
        }
    }

    // The next byte. This and `pair` differ in how many bytes they take; a rule of the project wants slice patterns for both.
    fn byte(&mut self) -> Result<u8, RecordFault>
        ensures value { result ≡ byte_read (cursor_of self.old) }
        ensures moved { OnOk result (cursor_of self.new ≡ past 1 (cursor_of self.old)) }
    {
        let [byte, rest @ ..] = self.rest else {
            return Err(RecordFault::Short(self.offset));
        };
        self.rest = rest;
        self.offset += 1;
        Ok(*byte)
    }

    // The number in the next two bytes.
    fn pair(&mut self) -> Result<u16, RecordFault>
        ensures value { result ≡ pair_read (cursor_of self.old) }
        ensures moved { OnOk result (cursor_of self.new ≡ past 2 (cursor_of self.old)) }
    {
        let [high, low, rest @ ..] = self.rest else {
            return Err(RecordFault::Short(self.offset + u16::try_from(self.rest.len()).unwrap()));
        };
        self.rest = rest;
        self.offset += 2;
        Ok(u16::from_be_bytes([*high, *low]))
    }

    // The burst in the next byte.
    fn burst(&mut self) -> Result<Burst, RecordFault>
        ensures value { figure_of result ≡ burst_read (cursor_of self.old) }
        ensures moved { OnOk result (cursor_of self.new ≡ past 1 (cursor_of self.old)) }
    {
        let place = self.offset;
        let byte = self.byte()?;
        judged(place, byte.into())
    }

    // The figure in the next two bytes.
    fn figure<const MOST: u16>(&mut self) -> Result<Limited<MOST>, RecordFault>
        ensures value { figure_of result ≡ figure_read MOST (cursor_of self.old) }
        ensures moved { OnOk result (cursor_of self.new ≡ past 2 (cursor_of self.old)) }
    {
        let place = self.offset;
        let pair = self.pair()?;
        judged(place, pair)
    }

    // The staircase that comes next, if its bit stands.
    pub(crate) fn staircase(&mut self, there: bool) -> Result<Option<Staircase>, RecordFault>
        ensures value { staircase_of result ≡ stair_read there (cursor_of self.old) }
        ensures moved { OnOk result (cursor_of self.new ≡ past (wide there 3) (cursor_of self.old)) }
    {
        if !there {
            return Ok(None);
        }
        Ok(Some(Staircase {
            burst: self.burst()?,
            step: self.figure()?,
        }))
    }

    // The figure that comes next, if its bit stands.
    pub(crate) fn optional<const MOST: u16>(
        &mut self,
        there: bool,
    ) -> Result<Option<Limited<MOST>>, RecordFault>
        ensures value { field_of result ≡ field_read MOST there (cursor_of self.old) }
        ensures moved { OnOk result (cursor_of self.new ≡ past (wide there 2) (cursor_of self.old)) }
    {
        // tried by bool's `then`, and by one function for both kinds of field that takes the reading as a closure: a closure
        // whose result has a const parameter gets no proof
        if there {
            self.figure().map(Some)
        } else {
            Ok(None)
        }
    }
}
