#![tactic(auto)]

mod bits;
mod check;
mod faults;
mod reader;
mod reading;
mod setup;
mod sheet;

pub use check::napkinridge_record_check;
pub use faults::{RecordFault, SheetFault};
pub use reading::read;
pub use setup::Setup;
pub use sheet::Sheet;

#[cfg(test)]
mod tests {
    use super::*;
    use fault::{Fault, Layer};
    use staircase::{BreakEven, Burst, Capacity, Staircase, Step, Table};
    use std::process::Abort;

    // The check tells this number at this place.
    fn told(rt: &impl Abort, bytes: &[u8], number: u8, place: u16) {
        assert_eq!(rt;
            napkinridge_record_check(bytes),
            u32::from(number) * 65_536 + u32::from(place)
        );
    }

    fn stair(rt: &impl Abort, burst: u16, step: u16) -> Option<Staircase> {
        Some(Staircase {
            burst: Burst::new(burst).expect(rt, "a burst"),
            step: Step::new(step).expect(rt, "a step"),
        })
    }

    fn table(rt: &impl Abort, staircases: [Option<Staircase>; 4]) -> Table {
        Table::new(staircases).expect(rt, "a staircase")
    }

    #[test]
    fn bits_are_known_and_name_a_staircase(rt: HostRuntime) {
        told(&rt, &[], 1, 0);
        told(&rt, &[0x41, 4, 0, 10], 2, 0);
        told(&rt, &[0x80], 2, 0);
        told(&rt, &[0x40], 2, 0);
        told(&rt, &[0x00], 3, 0);
        told(&rt, &[0x10, 0, 4], 3, 0);
        told(&rt, &[0x30, 0, 4, 0, 1], 3, 0);
    }

    #[test]
    fn lengths_come_before_limits(rt: HostRuntime) {
        told(&rt, &[0x11, 0], 4, 2);
        told(&rt, &[0x01], 4, 1);
        told(&rt, &[0x01, 4, 0, 10], 0, 0);
        told(&rt, &[0x01, 0, 0, 10, 0], 5, 4);
        told(&rt, &[0x13, 4, 0, 10, 1, 0, 6, 0], 4, 8);
        told(&rt, &[0x13, 4, 0, 10, 1, 0, 6, 0, 4], 0, 0);
        told(&rt, &[0x13, 4, 0, 10, 1, 0, 6, 0, 4, 0], 5, 9);
        told(
            &rt,
            &[0x3F, 1, 0, 1, 1, 0, 1, 1, 0, 1, 1, 0, 1, 0, 1, 0],
            4,
            16,
        );
        told(
            &rt,
            &[0x3F, 1, 0, 1, 1, 0, 1, 1, 0, 1, 1, 0, 1, 0, 1, 0, 1],
            0,
            0,
        );
        told(
            &rt,
            &[0x3F, 1, 0, 1, 1, 0, 1, 1, 0, 1, 1, 0, 1, 0, 1, 0, 1, 0],
            5,
            17,
        );
    }

    #[test]
    fn fields_keep_their_limits(rt: HostRuntime) {
        told(&rt, &[0x01, 0, 0, 10], 6, 1);
        told(&rt, &[0x01, 1, 0, 1], 0, 0);
        told(&rt, &[0x01, 255, 0x27, 0x10], 0, 0);
        told(&rt, &[0x01, 255, 0x27, 0x11], 6, 2);
        told(&rt, &[0x01, 255, 0, 0], 6, 2);
        told(&rt, &[0x11, 1, 0, 1, 0, 0], 6, 4);
        told(&rt, &[0x11, 1, 0, 1, 0, 1], 0, 0);
        told(&rt, &[0x11, 1, 0, 1, 1, 0], 0, 0);
        told(&rt, &[0x11, 1, 0, 1, 1, 1], 6, 4);
        told(&rt, &[0x21, 1, 0, 1, 0, 0], 6, 4);
        told(&rt, &[0x21, 1, 0, 1, 0, 1], 0, 0);
        told(&rt, &[0x21, 1, 0, 1, 0xEA, 0x60], 0, 0);
        told(&rt, &[0x21, 1, 0, 1, 0xEA, 0x61], 6, 4);
        told(&rt, &[0x0A, 1, 0, 0, 0, 0, 6], 6, 2);
        told(&rt, &[0x0A, 1, 0, 1, 0, 0, 0], 6, 4);
        told(&rt, &[0x0A, 1, 0, 1, 1, 0, 0], 6, 5);
        told(&rt, &[0x31, 1, 0, 1, 0, 1, 0, 0], 6, 6);
    }

    #[test]
    fn a_record_says_what_its_fields_say(rt: HostRuntime) {
        let staircases = [None, stair(&rt, 4, 258), None, stair(&rt, 1, 6)];
        let setup = Setup {
            table: table(&rt, staircases),
            capacity: None,
            break_even: BreakEven::new(772),
        };
        assert_eq!(rt;
            read(&[0x2A, 4, 0x01, 0x02, 1, 0, 6, 0x03, 0x04]),
            Ok(setup)
        );
        assert_eq!(rt; setup.capacity().get(), 256);
        assert_eq!(rt; setup.break_even().get(), 772);
    }

    #[test]
    fn defaults_stand_for_what_is_left_out(rt: HostRuntime) {
        let staircases = [stair(&rt, 4, 10), None, None, None];
        let setup = Setup {
            table: table(&rt, staircases),
            capacity: Capacity::new(256),
            break_even: None,
        };
        assert_eq!(rt; read(&[0x11, 4, 0, 10, 1, 0]), Ok(setup));
        assert_eq!(rt; setup.capacity().get(), 256);
        assert_eq!(rt; setup.break_even().get(), 1);
    }

    #[test]
    fn given_figures_stand(rt: HostRuntime) {
        let staircases = [stair(&rt, 4, 10), None, None, None];
        let setup = Setup {
            table: table(&rt, staircases),
            capacity: Capacity::new(4),
            break_even: BreakEven::new(2),
        };
        assert_eq!(rt; read(&[0x31, 4, 0, 10, 0, 4, 0, 2]), Ok(setup));
        assert_eq!(rt; setup.capacity().get(), 4);
        assert_eq!(rt; setup.break_even().get(), 2);
    }

    // The sheet is refused at this place.
    fn refused(rt: &impl Abort, period: u32, jitter: u32, distance: u32, place: u16) {
        let sheet = Sheet {
            period,
            jitter,
            distance,
        };
        let fault = Fault {
            layer: Layer::Sheet,
            number: 7,
            place,
        };
        assert!(rt; sheet.setup().map_err(|e| Fault::from(e)) == Err(fault));
        assert!(rt; fault.layer.letter() == "S");
    }

    // The sheet gives these staircases the numbers 0 and 1, and the defaults.
    fn gives(rt: &impl Abort, sheet: Sheet, first: Option<Staircase>, second: Option<Staircase>) {
        let setup = Setup {
            table: table(rt, [first, second, None, None]),
            capacity: None,
            break_even: None,
        };
        assert_eq!(rt; sheet.setup(), Ok(setup));
        assert_eq!(rt;
            (setup.capacity().get(), setup.break_even().get()),
            (256, 1)
        );
    }

    #[test]
    fn sheets_are_refused_past_their_limits(rt: HostRuntime) {
        refused(&rt, 0, 0, 0, 0);
        refused(&rt, 10_001, 0, 0, 0);
        refused(&rt, 65_546, 0, 0, 0);
        refused(&rt, 0, u32::MAX, u32::MAX, 0);
        refused(&rt, 1, 255, 0, 1);
        refused(&rt, 1, u32::MAX, 0, 1);
        refused(&rt, 10_000, 2_550_000, 10_001, 1);
        refused(&rt, 1, 0, 10_001, 2);
        refused(&rt, 1, 0, 65_537, 2);
        refused(&rt, 1, 254, u32::MAX, 2);
    }

    #[test]
    fn sheets_give_staircases(rt: HostRuntime) {
        let sheet = Sheet {
            period: 10,
            jitter: 20,
            distance: 3,
        };
        gives(&rt, sheet, stair(&rt, 3, 10), stair(&rt, 1, 3));
        let sheet = Sheet {
            period: 10,
            jitter: 19,
            distance: 0,
        };
        gives(&rt, sheet, stair(&rt, 2, 10), None);
        let sheet = Sheet {
            period: 1,
            jitter: 254,
            distance: 10_000,
        };
        gives(&rt, sheet, stair(&rt, 255, 1), stair(&rt, 1, 10_000));
        let sheet = Sheet {
            period: 10_000,
            jitter: 2_549_999,
            distance: 1,
        };
        gives(&rt, sheet, stair(&rt, 255, 10_000), stair(&rt, 1, 1));
    }
}
