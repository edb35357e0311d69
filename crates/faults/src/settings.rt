//! Settings of a chip.

#[derive(Clone, Copy)]
pub(crate) struct Settings {
    pub(crate) rate: u8,
    pub(crate) off: u8,
    pub(crate) two_way: u8,
}

impl Settings {
    // Those of a fresh chip.
    pub(crate) const FRESH: Settings = Settings {
        rate: 0,
        off: 0,
        two_way: 0,
    };

    // Channel 4 off, and channel 3 two-way.
    pub(crate) const QUIET: Settings = Settings {
        rate: 1,
        off: 0b0001,
        two_way: 0b0010,
    };

    // Channels 1 and 4 two-way.
    pub(crate) const SLOW: Settings = Settings {
        rate: 3,
        off: 0,
        two_way: 0b1001,
    };

    // What one step of a sum counts: the length of a cycle in 1024ths of a second, and twice as much two-way.
    pub(crate) fn weight(self, channel: usize) -> i64 {
        let length = match self.rate {
            0 => 1,
            1 => 4,
            2 => 16,
            _ => 128,
        };
        if is_in(self.two_way, channel) {
            2 * length
        } else {
            length
        }
    }
}

// Whether a mask has a channel. Channels count from 0; bit 3 is the first.
pub(crate) fn is_in(mask: u8, channel: usize) -> bool {
    let bit = match channel {
        0 => 0b1000,
        1 => 0b0100,
        2 => 0b0010,
        _ => 0b0001,
    };
    mask & bit != 0
}
