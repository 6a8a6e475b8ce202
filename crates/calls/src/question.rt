/// What is asked of a network, running or settled. A router is asked about by its number.
#[derive(Clone, Copy, Debug)]
pub enum Question {
    /// The best path of a router.
    Best(u32),
    /// The metric of a router's best path.
    Metric(u32),
    /// The paths that a router knows.
    Known(u32),
    /// The paths that a router advertises.
    Advertised(u32),
    /// The injected paths.
    Injected,
    /// Whether the network is settled.
    Settled,
}
