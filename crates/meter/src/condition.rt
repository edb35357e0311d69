//! Where a meter stands between calls.

/// The condition of a meter. It and the call together settle every answer.
#[derive(Clone, Copy, Debug, PartialEq, Eq)]
pub enum Condition {
    Ready,
    /// the last draw failed where nothing can have been carried out that matters: all is done again
    Unfinished,
    /// a REFRESH broke: nobody knows whether it was carried out
    InDoubt,
    /// the slip with this draw number is out
    SlipOut(u32),
}
