// Examples of windows and plans: the four marked plans, what lies inside, and refusals.
#![tactic(auto)]

use fault::WindowFault;
use grid::settings::Setting;
use plans::plan::Plan;
use plans::planning::plan_window;
use windows::intervals::Interval;
use windows::window::Window;

pub fn interval(low: u16, high: u16) -> Interval {
    Interval { low, high }
}

// The plan of a window with as many places as it has intervals.
pub fn plan_of(theta: i32, intervals: &[Interval]) -> Result<Plan, WindowFault> {
    let setting = Setting::new(intervals.len(), theta)?;
    let mut plan = Plan::new();
    plan_window(setting, intervals, &mut plan)?;
    Ok(plan)
}

// Whether the plan of a window has just these ranges.
pub fn plans(theta: i32, intervals: &[Interval], ends: &[(u32, u32)]) -> bool {
    plan_of(theta, intervals).is_ok_and(|plan| {
        let ranges = plan.ranges().iter().map(|range| (range.low, range.high));
        ranges.eq(ends.iter().copied())
    })
}

// Whether a vector lies inside a window with as many places as it has intervals.
pub fn holds(intervals: &[Interval], vector: &[u16]) -> bool {
    Setting::new(intervals.len(), 0)
        .and_then(|setting| Window::new(setting, intervals))
        .is_ok_and(|window| window.contains(vector))
}

#[cfg(test)]
mod tests {
    use super::*;
    use std::test::Fail;

    const TOP: u16 = 65_535;

    #[test]
    fn marked_plans(rt: HostRuntime) {
        let whole = interval(0, TOP);
        assert!(rt; plans(0, &[whole], &[(0, 65_535)]));
        let ends = [(0, 65_535), (65_536, 98_302), (98_304, 131_071)];
        assert!(rt; plans(0, &[whole, whole], &ends));
        let ends = [(0, 6553), (58_982, 65_535), (72_089, 72_089)];
        assert!(rt; plans(0, &[whole, interval(6553, 6553)], &ends));
        let window = [interval(13_107, 19_661), interval(26_214, 39_321)];
        assert!(rt; plans(32_768, &window, &[(91_750, 104_857)]));
    }

    #[test]
    fn refusals(rt: HostRuntime) -> Result<(), Fail> {
        let setting = Setting::new(2, 0)?;
        let mut plan = plan_of(0, &[interval(5, 5)])?;
        let crossed = interval(8, 7);
        let refused = plan_window(setting, &[crossed], &mut plan);
        assert_eq!(rt; refused, Err(WindowFault::Width));
        assert_eq!(rt; refused.map_err(|fault| fault.number()), Err(3));
        let refused = plan_window(setting, &[interval(0, TOP), crossed], &mut plan);
        assert_eq!(rt; refused, Err(WindowFault::Crossed));
        assert_eq!(rt; refused.map_err(|fault| fault.number()), Err(8));
        assert!(rt; plan.is_planned(5));
        assert!(rt; !plan.is_planned(6));
        Ok(())
    }

    #[test]
    fn insides(rt: HostRuntime) {
        let window = [interval(3, 5), interval(0, TOP)];
        assert!(rt; holds(&window, &[3, 0]));
        assert!(rt; holds(&window, &[5, TOP]));
        assert!(rt; !holds(&window, &[2, 9]));
        assert!(rt; !holds(&window, &[6, 9]));
        assert!(rt; !holds(&window, &[4]));
        assert!(rt; !holds(&window, &[4, 9, 9]));
    }
}
