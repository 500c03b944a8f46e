// Examples of settings, keys and refusals: the eight marked keys, and the limits.
#![tactic(auto)]

use fault::WindowFault;
use grid::parts::KeyParts;
use grid::settings::Setting;

// The number of a refusal.
pub fn refusal(setting: Result<Setting, WindowFault>) -> Option<u8> {
    setting.err().map(WindowFault::number)
}

// The parts of the key of a vector with as many places as it has.
pub fn parts(vector: &[u16], theta: i32) -> Result<KeyParts, WindowFault> {
    Setting::new(vector.len(), theta)?.key_parts(vector)
}

// The key of a vector and the name of its edge.
pub fn stands(vector: &[u16], theta: i32, key: u32, edge: &str) -> bool {
    parts(vector, theta).is_ok_and(|found| found.key() == key && found.edge().word() == edge)
}

#[cfg(test)]
mod tests {
    use super::*;
    use fault::{LineFault, TextFault};
    use grid::extremes::{Extreme, first_extreme};
    use grid::keys::{key_at, split_key};
    use grid::parts::Edge;
    use std::test::Fail;

    #[test]
    fn settings(rt: HostRuntime) {
        assert_eq!(rt; refusal(Setting::new(1, -65_536)), None);
        assert_eq!(rt; refusal(Setting::new(16, 65_535)), None);
        assert_eq!(rt; refusal(Setting::new(0, 0)), Some(1));
        assert_eq!(rt; refusal(Setting::new(17, 65_536)), Some(1));
        assert_eq!(rt; refusal(Setting::new(2, 65_536)), Some(2));
        assert_eq!(rt; refusal(Setting::new(2, -65_537)), Some(2));
    }

    #[test]
    fn keys(rt: HostRuntime) {
        assert!(rt; stands(&[6554, 39_321], 0, 6554, "low"));
        assert!(rt; stands(&[39_321, 58_982], 0, 124_518, "high"));
        assert!(rt; stands(&[13_107, 49_151], 3276, 13_107, "low"));
        assert!(rt; stands(&[13_107, 49_151], 3277, 114_687, "high"));
        assert!(rt; stands(&[9, 5, 5], 0, 65_541, "low"));
        assert!(rt; stands(&[65_535, 65_535], -65_535, 65_535, "high"));
        assert!(rt; stands(&[65_535, 65_535], -65_536, 65_535, "low"));
        assert!(rt; stands(&[0, 0], 65_535, 0, "high"));
        assert_eq!(rt; split_key(124_518), (1, 58_982));
        assert_eq!(rt; key_at(1, 58_982), 124_518);
    }

    #[test]
    fn extremes(rt: HostRuntime) {
        let measures = [9, 5, 5, 9];
        let least = Some(Extreme {
            measure: 5,
            place: 1,
        });
        let greatest = Some(Extreme {
            measure: 9,
            place: 0,
        });
        assert_eq!(rt; first_extreme(&measures, Edge::Low), least);
        assert_eq!(rt; first_extreme(&measures, Edge::High), greatest);
        assert_eq!(rt; first_extreme(&measures[4..], Edge::Low), None);
    }

    #[test]
    fn messages(rt: HostRuntime) -> Result<(), Fail> {
        let width = LineFault::from(WindowFault::Width);
        let text = width.to_string(rt.alloc())?;
        assert_eq!(rt;
            text.as_str(),
            "the vector or the window hasn't as many places as the setting"
        );
        let digits = LineFault::Text(TextFault::Digits(3));
        let text = digits.to_string(rt.alloc())?;
        assert_eq!(rt; text.as_str(), "field 3 is no number of the stated form");
        Ok(())
    }

    #[test]
    fn widths(rt: HostRuntime) -> Result<(), Fail> {
        let setting = Setting::new(2, 0)?;
        assert!(rt; setting.key(&[1, 2]).is_ok());
        assert!(rt; setting.key(&[1]).is_err());
        assert!(rt; setting.key(&[1, 2, 3]).is_err());
        Ok(())
    }
}
