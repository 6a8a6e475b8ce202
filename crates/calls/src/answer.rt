use faults::CallFault;
use forwarding::Way;
use sets::PathSet;

/// What a call answered.
#[derive(Clone, Copy, Debug, PartialEq, Eq)]
pub enum Answer {
    Done,
    Best(Option<u8>),
    Metric(Option<u32>),
    Paths(PathSet),
    Settled(bool),
    Way(Option<Way>),
    /// How many bytes were written.
    Written(usize),
    Refused(CallFault),
}
