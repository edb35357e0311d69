//! One entry of a book.

/// What an image says of the cycles behind it, under a draw number. The definitions in specs/ speak of this very type.
#[derive(Clone, Copy, Debug, PartialEq, Eq)]
pub struct Entry {
    /// the number of the slip
    pub draw: u32,
    /// 1 if a sum or the count left its range
    pub spoilt: u8,
    /// how many cycles
    pub count: u32,
    /// the rate code, 0 to 3
    pub rate: u8,
    /// the channels that were off: bit 3 is channel 1, bit 0 channel 4
    pub off: u8,
    /// those that were two-way, in the same bits
    pub two_way: u8,
    /// what the sum registers held, with their signs; channel 1 comes first
    pub sums: [i64; 4],
}

impl Entry {
    /// What stands in a place that nothing was written to.
    pub const EMPTY: Entry = Entry {
        draw: 0,
        spoilt: 0,
        count: 0,
        rate: 0,
        off: 0,
        two_way: 0,
        sums: [0; 4],
    };
}
