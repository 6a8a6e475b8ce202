/// What is done to a running network: it happens to it, or it is refused.
#[derive(Clone, Copy, Debug)]
pub enum Action<'a> {
    /// The table of these bytes comes in the place of the network.
    Load(&'a [u8]),
    /// A path is injected, by its number.
    Inject(u32),
    /// A path is withdrawn, by its number.
    Withdraw(u32),
    /// A router restarts, by its number.
    Restart(u32),
    /// The routers whose bits are 1 make a step.
    Step(u32),
}
