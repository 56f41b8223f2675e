// Three numbers, which a line of a text writes.
#[derive(Clone, Copy, PartialEq, Eq, Debug)]
pub struct Triple {
    pub first: u32,
    pub second: u32,
    pub third: u32,
}
