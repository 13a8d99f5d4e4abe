#![tactic(auto)]

ghost use Rattle.std.specs.Prelude.{◌≡◌, Some};
ghost use Rattle.fault.specs.Text.{letter, text};
ghost use Rattle.fault.specs.Packed.{packed, Apart};

use std::fmt;

// The part of the card that turns an input away.
#[derive(Clone, Copy, PartialEq, Eq)]
pub enum Layer {
    Record,
    Sheet,
}

impl Layer {
    // The letter by which a fault's text names the layer.
    pub fn letter(self) -> &'static str
        ensures { result.now ≡ letter self }
    {
        match self {
            Layer::Record => "R",
            Layer::Sheet => "S",
        }
    }
}

// What a refused input is told: the layer that refuses, the number of the refusal, and the place in the input. Refusals are
// enums of their layers; here they are numbers because the line of text and the answer to callers in C have numbers.
#[derive(Clone, Copy, PartialEq, Eq)]
pub struct Fault {
    pub layer: Layer,
    pub number: u8,
    pub place: u16,
}

impl Fault {
    // Number and place in one number that is never 0 for a number from 1 on.
    pub fn packed(self) -> u32
        ensures value { result ≡ packed self }
        ensures apart { Apart self result }
    {
        u32::from(self.number) * 65_536 + u32::from(self.place)
    }
}

impl fmt::Display for Layer {
    ghost output = { λ l. Some (letter l) };

    fn fmt<W: fmt::Write>(&self, f: &mut fmt::Formatter<W>) -> fmt::Result {
        f.write_str(self.letter())
    }
}

impl fmt::Display for Fault {
    ghost output = { λ f. Some (text f) };

    fn fmt<W: fmt::Write>(&self, f: &mut fmt::Formatter<W>) -> fmt::Result {
        write!(f, "! {} {} {}", self.layer, self.number, self.place)
    }
}

#[cfg(test)]
mod tests {
    use super::*;
    use std::test::Fail;

    #[test]
    fn letters(rt: HostRuntime) -> Result<(), Fail> {
        assert!(rt; Layer::Record.letter() == "R");
        assert!(rt; Layer::Sheet.letter() == "S");
        let text = Layer::Record.to_string(rt.alloc())?;
        assert!(rt; text.as_str() == "R");
        let text = Layer::Sheet.to_string(rt.alloc())?;
        assert!(rt; text.as_str() == "S");
        Ok(())
    }

    #[test]
    fn texts(rt: HostRuntime) -> Result<(), Fail> {
        let short = Fault {
            layer: Layer::Record,
            number: 4,
            place: 8,
        };
        let text = short.to_string(rt.alloc())?;
        assert!(rt; text.as_str() == "! R 4 8");
        let greatest = Fault {
            layer: Layer::Sheet,
            number: 255,
            place: 65_535,
        };
        let text = greatest.to_string(rt.alloc())?;
        assert!(rt; text.as_str() == "! S 255 65535");
        Ok(())
    }

    #[test]
    fn numbers(rt: HostRuntime) {
        let short = Fault {
            layer: Layer::Record,
            number: 4,
            place: 8,
        };
        assert_eq!(rt; short.packed(), 262_152);
        let greatest = Fault {
            layer: Layer::Sheet,
            number: 255,
            place: 65_535,
        };
        assert_eq!(rt; greatest.packed(), 16_777_215);
    }
}
