#![tactic(auto)]

mod counter;
mod counters;
mod figures;
mod slots;
mod table;

pub use counters::{Broken, Counters};
pub use figures::{BreakEven, Burst, Capacity, Limited, Step};
pub use table::{Staircase, Table};

#[cfg(test)]
mod tests {
    use super::*;
    use std::process::Abort;

    // What `new` makes of the value.
    fn made<const MOST: u16>(value: u16) -> Option<u16> {
        Limited::<MOST>::new(value).map(Limited::get)
    }

    #[test]
    fn figures_at_their_limits(rt: HostRuntime) {
        assert_eq!(rt; made::<255>(0), None);
        assert_eq!(rt; made::<255>(1), Some(1));
        assert_eq!(rt; made::<255>(255), Some(255));
        assert_eq!(rt; made::<255>(256), None);
        assert_eq!(rt; made::<10_000>(10_000), Some(10_000));
        assert_eq!(rt; made::<10_000>(10_001), None);
        assert_eq!(rt; made::<256>(256), Some(256));
        assert_eq!(rt; made::<256>(257), None);
        assert_eq!(rt; made::<60_000>(60_000), Some(60_000));
        assert_eq!(rt; made::<60_000>(60_001), None);
        assert_eq!(rt; made::<60_000>(65_535), None);
    }

    fn stair(burst: u16, step: u16) -> Option<Staircase> {
        Some(Staircase {
            burst: Burst::new(burst)?,
            step: Step::new(step)?,
        })
    }

    #[test]
    fn tables_keep_their_numbers(rt: HostRuntime) {
        assert_eq!(rt; Table::new([None, None, None, None]), None);
        let staircases = [None, stair(4, 10), None, stair(1, 6)];
        let table = Table::new(staircases).expect(&rt, "two staircases make a table");
        assert_eq!(rt; table.staircases(), staircases);
        assert_eq!(rt; table.staircase(0), None);
        assert_eq!(rt; table.staircase(1), stair(4, 10));
        assert_eq!(rt; table.staircase(2), None);
        assert_eq!(rt; table.staircase(3), stair(1, 6));
        assert_eq!(rt; table.staircase(4), None);
    }

    fn counters(staircases: [Option<Staircase>; 4]) -> Option<Counters> {
        Table::new(staircases).map(Counters::new)
    }

    fn pass(counters: &mut Counters, ticks: u32) {
        for _ in 0..ticks {
            counters.tick();
        }
    }

    fn accepted(rt: &impl Abort, counters: &mut Counters) {
        assert_eq!(rt; counters.arrive(), Ok(()));
    }

    fn refused(rt: &impl Abort, counters: &mut Counters, staircase: u8) {
        assert_eq!(rt; counters.arrive(), Err(Broken { staircase }));
    }

    #[test]
    fn one_sample_in_five_ticks(rt: HostRuntime) {
        let mut counters = counters([stair(1, 5), None, None, None]).expect(&rt, "a table");
        accepted(&rt, &mut counters);
        refused(&rt, &mut counters, 0);
        pass(&mut counters, 4);
        refused(&rt, &mut counters, 0);
        pass(&mut counters, 1);
        accepted(&rt, &mut counters);
    }

    #[test]
    fn a_timer_restarts_at_a_full_counter(rt: HostRuntime) {
        let mut counters = counters([stair(2, 10), None, None, None]).expect(&rt, "a table");
        accepted(&rt, &mut counters);
        pass(&mut counters, 15);
        accepted(&rt, &mut counters);
        accepted(&rt, &mut counters);
        pass(&mut counters, 9);
        refused(&rt, &mut counters, 0);
        pass(&mut counters, 1);
        accepted(&rt, &mut counters);
    }

    #[test]
    fn the_lowest_broken_staircase_is_named(rt: HostRuntime) {
        let staircases = [None, stair(2, 4), stair(1, 2), stair(2, 10_000)];
        let mut counters = counters(staircases).expect(&rt, "a table");
        accepted(&rt, &mut counters);
        refused(&rt, &mut counters, 2);
        pass(&mut counters, 2);
        accepted(&rt, &mut counters);
        refused(&rt, &mut counters, 1);
        pass(&mut counters, 2);
        refused(&rt, &mut counters, 3);
    }

    #[test]
    fn bounds(rt: HostRuntime) {
        let mut counters = counters([stair(4, 10), stair(1, 6), None, None]).expect(&rt, "a table");
        assert_eq!(rt; counters.bound(0), 1);
        assert_eq!(rt; counters.bound(41), 7);
        assert_eq!(rt; counters.bound(42), 8);
        accepted(&rt, &mut counters);
        assert_eq!(rt; counters.bound(0), 0);
        assert_eq!(rt; counters.bound(5), 0);
        assert_eq!(rt; counters.bound(6), 1);
        refused(&rt, &mut counters, 1);
        assert_eq!(rt; counters.bound(6), 1);
    }

    #[test]
    fn bounds_at_the_limits(rt: HostRuntime) {
        let mut counters = counters([None, None, None, stair(255, 1)]).expect(&rt, "a table");
        assert_eq!(rt; counters.bound(0), 255);
        assert_eq!(rt; counters.bound(u32::MAX), 4_294_967_550);
        for _ in 0..255 {
            accepted(&rt, &mut counters);
        }
        refused(&rt, &mut counters, 3);
        assert_eq!(rt; counters.bound(0), 0);
        assert_eq!(rt; counters.bound(60_000), 60_000);
    }
}
