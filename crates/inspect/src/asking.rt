ghost use Rattle.std.specs.Prelude.{◌≡◌, map, string_bytes};
ghost use Rattle.inspect.specs.Requests.{sheet_asked, requested};
ghost use Rattle.inspect.specs.Numerals.{digit_of, numeral};

use record::Sheet;

// What a call of the program asks for. An optional sheet would be no plainer, since the record would have no name in it.
#[derive(Clone, Copy, Debug, PartialEq, Eq)]
pub(crate) enum Request {
    Record,
    Sheet(Sheet),
}

// What a decimal digit stands for.
fn digit(byte: u8) -> Option<u32>
    ensures { result ≡ digit_of byte }
{
    char::from(byte).to_digit(10)
}

// A number in decimal digits. One of more than 32 bits counts as the greatest of 32.
fn number(text: &str) -> Option<u32>
    ensures { result ≡ numeral text.now }
{
    if text.is_empty() {
        return None;
    }
    text.bytes().try_fold(0_u32, |value, byte| {
        let digit = digit(byte)?;
        Some(value.saturating_mul(10).saturating_add(digit))
    })
}

// The sheet whose figures stand behind the flag.
fn sheet(flag: &str, period: &str, jitter: &str, distance: &str) -> Option<Request>
    ensures { result ≡ sheet_asked flag.now period.now jitter.now distance.now }
{
    match flag {
        "--sheet" => Some(Request::Sheet(Sheet {
            period: number(period)?,
            jitter: number(jitter)?,
            distance: number(distance)?,
        })),
        _ => None,
    }
}

// What the arguments behind the program's name ask for, if it is anything.
#[tactic(auto, using(crate::proofs::Arguments::five_asked))]
pub(crate) fn asked(arguments: &[String]) -> Option<Request>
    ensures { result ≡ requested (map string_bytes arguments.now) }
{
    match arguments {
        [_] => Some(Request::Record),
        [_, flag, period, jitter, distance] => sheet(flag, period, jitter, distance),
        _ => None,
    }
}

#[cfg(test)]
mod tests {
    use super::*;

    #[test]
    fn numbers(rt: HostRuntime) {
        assert_eq!(rt; number("0"), Some(0));
        assert_eq!(rt; number("0042"), Some(42));
        assert_eq!(rt; number("4294967295"), Some(u32::MAX));
        assert_eq!(rt; number("4294967296"), Some(u32::MAX));
        assert_eq!(rt; number("99999999999999999999"), Some(u32::MAX));
        assert_eq!(rt; number(""), None);
        assert_eq!(rt; number("-1"), None);
        assert_eq!(rt; number("+1"), None);
        assert_eq!(rt; number("1 "), None);
        assert_eq!(rt; number("1a"), None);
    }
}
