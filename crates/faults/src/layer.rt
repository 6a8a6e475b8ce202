// The part of the library that refuses.
#[derive(Clone, Copy, Debug, PartialEq, Eq)]
pub enum Layer {
    Record,
    Table,
    Graph,
    Call,
}
