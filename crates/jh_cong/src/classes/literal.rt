use jh_name::Row;

/// A literal over nodes of a table, by their numbers: that two nodes are equal, or that they differ.
#[derive(Clone, Copy, PartialEq, Eq)]
pub struct Said {
    pub left: usize,
    pub right: usize,
    pub holds: bool,
}

/// Why literals aren't asserted: the numbers of literals that no structure meets, where the new ones are numbered behind those
/// asserted before, or want of memory.
#[derive(Drop)]
pub enum CongError {
    Conflict(Row<usize>),
    Memory,
}
