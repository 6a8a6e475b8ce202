// A way out of the network that is open at one router, its exit point. A path's number is its place among the paths.
#[derive(Clone, Copy, Debug, Default, PartialEq, Eq)]
pub struct ExitPath {
    pub exit_point: u8,
    pub neighbour_as: u32,
    pub local_pref: u32,
    pub as_path_len: u8,
    pub med: u32,
    pub exit_cost: u16,
    pub speaker: u32,
}
