// A record's body by its kind: a part of the bytes that were read.
#[derive(Clone, Copy, Debug, PartialEq, Eq)]
pub enum Record<'a> {
    Router(&'a [u8; 2]),
    Link(&'a [u8; 4]),
    Session(&'a [u8; 2]),
    Path(&'a [u8; 20]),
}

// A record and the offset of its kind byte.
#[derive(Clone, Copy, Debug, PartialEq, Eq)]
pub struct Placed<'a> {
    pub place: usize,
    pub record: Record<'a>,
}
