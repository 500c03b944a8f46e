// The plan of a window.
ghost use Rattle.std.specs.Prelude.{◌≡◌, ℕ, ◌+◌, ◌<◌, ◌≤◌, ◌↔◌, length, IsTrue, OnErr};
ghost use Rattle.fault.specs.Checks.{Answers};
ghost use Rattle.fault.specs.Numbers.{window_number};
ghost use Rattle.grid.specs.Keys.{key_at};
ghost use Rattle.windows.specs.Intervals.{window_checks};
ghost use Rattle.windows.specs.Finding.{Holds, Proper};
ghost use Rattle.windows.specs.Window.{IsWindow};
ghost use Rattle.plans.specs.Ranges.{Planned, Apart, Rule};
ghost use Rattle.plans.specs.Planning.{Merges, Gains, IsPlan};

use crate::plan::{KeyRange, Plan};
use fault::WindowFault;
use grid::keys::key_at;
use grid::settings::Setting;
use windows::intervals::Interval;
use windows::window::Window;

// Whether a run that starts at one value follows one that ends at another with no value between.
fn touches(end: u16, start: u16) -> bool
    ensures { IsTrue result ↔ (start ≤ end + 1) }
{
    u32::from(start) <= u32::from(end) + 1
}

// Two runs of one place, the first below the second, as one where they touch. A run is the pair of its ends, as the
// finders answer it.
fn merged(
    low: Option<(u16, u16)>,
    high: Option<(u16, u16)>,
) -> (Option<(u16, u16)>, Option<(u16, u16)>)
    requires proper { (Proper low) × (Proper high) }
    requires below { (v u : ℕ) → Holds low v → Holds high u → v < u }
    ensures proper { (Proper result.0) × (Proper result.1) }
    ensures merges { Merges low high result.0 result.1 }
{
    match (low, high) {
        (Some((from, end)), Some((start, to))) if touches(end, start) => (Some((from, to)), None),
        runs => runs,
    }
}

// The keys of a run at a place.
fn run_keys(place: u16, low: u16, high: u16) -> KeyRange
    ensures { (result.low ≡ key_at place low) × (result.high ≡ key_at place high) }
{
    KeyRange {
        low: key_at(place, low),
        high: key_at(place, high),
    }
}

// Puts the keys of a run at a place behind those of the plan.
fn add_run(plan: &mut Plan, place: u16, run: Option<(u16, u16)>)
    requires room { length plan.old < 32 }
    requires proper { Proper run }
    requires apart { (k v : ℕ) → Planned plan.old k → Holds run v → Apart k (key_at place v) }
    ensures gains { Gains plan.old place run plan.new }
    ensures rule { Rule plan.old → Rule plan.new }
{
    if let Some((low, high)) = run {
        plan.push(run_keys(place, low, high));
    }
}

impl Plan {
    // The plan of a window: the keys of the vectors inside, and no others.
    pub fn of(window: &Window, setting: Setting) -> Plan
        ensures plan { IsPlan setting.theta window.now result }
        ensures window { IsWindow window.now }
    {
        let mut plan = Plan::new();
        // Over places and not over intervals, since the finders take a place.
        for place in 0..window.places() {
            let low = window.low_run(setting, place);
            let high = window.high_run(setting, place);
            let (first, second) = merged(low, high);
            // a window has at most 16 places, so the casts keep them
            add_run(&mut plan, place as u16, first);
            add_run(&mut plan, place as u16, second);
        }
        plan
    }
}

// Writes the plan of the window that the intervals make, or refuses them and leaves the plan as it was.
pub fn plan_window(
    setting: Setting,
    intervals: &[Interval],
    plan: &mut Plan,
) -> Result<(), WindowFault>
    ensures answers { Answers window_number (window_checks setting.places intervals.now) (λ _. IsPlan setting.theta intervals.now plan.new) result }
    ensures stays { OnErr result (plan.new ≡ plan.old) }
    ensures rule { Rule plan.new }
{
    // asked for its contract alone: a refused plan stays, and what holds of every plan is said of it too
    let _held = plan.ranges();
    let window = Window::new(setting, intervals)?;
    *plan = Plan::of(&window, setting);
    Ok(())
}
