/// What a settled network writes into a buffer.
#[derive(Clone, Copy, Debug)]
pub enum Report {
    /// The routers that a packet from this router meets.
    Trace(u32),
    /// A line for each router.
    List,
}

/// A part of a slice of bytes, where a report goes: the place of its first byte, and how many bytes it has. Past the end of the
/// slice there is nothing of it, so that the buffer is as much shorter.
#[derive(Clone, Copy, Debug)]
pub struct Part {
    pub start: usize,
    pub len: usize,
}
