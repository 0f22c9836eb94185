use jh_name::Row;

/// Linear equations over natural numbers, one number for each column, with needs: of the columns
/// that a need names, at least one is not 0.
#[derive(Drop)]
pub struct System {
    /// How many equations there are.
    pub rows: u32,
    /// How many numbers are asked for.
    pub columns: u32,
    /// The factors, row by row.
    pub entries: Row<i64>,
    /// The right side of each row.
    pub right: Row<i64>,
    /// The needs, each a list of columns.
    pub needs: Row<Row<u32>>,
}

/// A natural number for each column, in binary digits: layer i has the digit of weight 2 to the
/// power i of each column.
#[derive(Drop)]
pub struct Digits {
    pub layers: Row<Row<bool>>,
}

/// What `solve` finds.
#[derive(Drop)]
pub enum Solved {
    /// Numbers that solve the system.
    Solution(Digits),
    /// No natural numbers solve the system.
    NoSolution,
    /// The system has this many nodes, and that is more than `solve` looks through.
    TooLarge(u128),
    /// Memory ran out.
    Memory,
}
