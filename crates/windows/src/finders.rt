// The runs of wanted values at one place of a window, in closed form.
ghost use Rattle.std.specs.Prelude.{◌≡◌, ◌+◌, ◌≤◌, min, pos, ◌+ℤ◌, ◌<ℤ◌, MatchOption};
ghost use Rattle.windows.specs.Finding.{Holds, Proper, Same, UpTo, late, LowSums, HighSums, InLowRun, InHighRun};

use crate::window::Window;
use grid::extremes::Extreme;
use grid::settings::Setting;

// The greatest sum of a vector's extremes and the knob on the low edge, and the least on the high edge.
const MOST_LOW: i32 = 65_534;

const LEAST_HIGH: i32 = 65_535;

// What the knob leaves to the sum of two extremes on the low edge, if anything.
fn low_room(setting: Setting) -> Option<u32>
    ensures { MatchOption result (pos 65534 <ℤ setting.theta) (λ n. pos n +ℤ setting.theta ≡ pos 65534) }
{
    u32::try_from(MOST_LOW - setting.theta()).ok()
}

// What the knob asks of the sum of two extremes on the high edge.
fn high_room(setting: Setting) -> u32
    ensures sum { pos result +ℤ setting.theta ≡ pos 65535 }
    ensures most { result ≤ 131071 }
{
    (LEAST_HIGH - setting.theta()).unsigned_abs()
}

// 1 where there is a place before.
fn step(place: usize) -> u32
    ensures { result ≡ min place 1 }
{
    u32::from(place > 0)
}

// The greatest value at a place that no high end rules out as a least measure: the least high end, or one less where
// an earlier place has it.
fn ceiling(least_high: Extreme, place: usize) -> Option<u16>
    ensures { Same (UpTo result) (λ v. v + late least_high.place place ≤ least_high.measure) }
{
    least_high
        .measure
        .checked_sub(u16::from(least_high.place < place))
}

// The least value at a place that no low end rules out as a greatest measure: the greatest low end, or one more where
// an earlier place has it.
fn floor(greatest_low: Extreme, place: usize) -> u32
    ensures { result ≡ greatest_low.measure + late greatest_low.place place }
{
    u32::from(greatest_low.measure) + u32::from(place > greatest_low.place)
}

// The greatest v up to `cap` with v + `most` and 2 v + `extra` up to `room`.
fn low_top(cap: u16, most: u16, extra: u32, room: u32) -> Option<u16>
    ensures { Same (UpTo result) (LowSums cap most extra room) }
{
    let reach = room.checked_sub(u32::from(most))?;
    let half = room.checked_sub(extra)? / 2;
    // at most `cap`, so the cast keeps it
    Some(u32::from(cap).min(reach).min(half) as u16)
}

// The least v from `base` with v + `fewest` from `room` and 2 v from `room` + `extra`.
fn high_bottom(base: u32, fewest: u16, extra: u32, room: u32) -> u32
    requires { (room ≤ 131071) × (extra ≤ 1) }
    ensures { Same (λ v. result ≤ v) (HighSums base fewest extra room) }
{
    let reach = room.saturating_sub(u32::from(fewest));
    let half = (room + extra).div_ceil(2);
    base.max(reach).max(half)
}

// The run from `bottom` to `top`, if it has a value.
fn between(bottom: u32, top: u16) -> Option<(u16, u16)>
    ensures proper { Proper result }
    ensures exact { Same (Holds result) (λ v. (bottom ≤ v) × (v ≤ top)) }
{
    let bottom = u16::try_from(bottom).ok()?;
    (bottom <= top).then_some((bottom, top))
}

// The finders answer the ends of a run as a pair, and take the setting with the place, since a window may be planned
// under another setting than its own.
impl Window {
    ghost use Rattle.windows.specs.Window.{IsWindow};

    // The ends of the low run of a place: the values of which some vector inside on the low edge makes its key there.
    pub fn low_run(&self, setting: Setting, place: usize) -> Option<(u16, u16)>
        ensures proper { Proper result }
        ensures exact { Same (Holds result) (InLowRun setting.theta self.now place) }
        ensures window { IsWindow self.now }
    {
        let interval = self.interval(place)?;
        let cap = ceiling(self.least_high, place)?;
        let room = low_room(setting)?;
        let top = low_top(cap, self.greatest_low.measure, step(place), room)?;
        between(u32::from(interval.low), top)
    }

    // The ends of the high run of a place: the values of which some vector inside on the high edge makes its key there.
    pub fn high_run(&self, setting: Setting, place: usize) -> Option<(u16, u16)>
        ensures proper { Proper result }
        ensures exact { Same (Holds result) (InHighRun setting.theta self.now place) }
        ensures window { IsWindow self.now }
    {
        let interval = self.interval(place)?;
        let base = floor(self.greatest_low, place);
        let bottom = high_bottom(
            base,
            self.least_high.measure,
            step(place),
            high_room(setting),
        );
        between(bottom, interval.high)
    }
}
