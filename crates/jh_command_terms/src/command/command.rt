use jh_name::{Name, Row};

/// A guarded command. Its formulas and values are nodes of a table, each by its number.
#[derive(Drop)]
pub enum Command {
    /// A run goes on only where the formula is true.
    Assume(usize),
    /// A run fails where the formula is false.
    Assert(usize),
    /// The name gets the value.
    Assign(Name, usize),
    /// The first name gets the value of the second, a fresh one that nothing assigns.
    Havoc(Name, Name),
    /// The method returns.
    Leave,
    /// No run goes on.
    Stop,
    /// One command after another.
    Seq(Row<Command>),
    /// Either of two commands.
    Choice(Box<Command>, Box<Command>),
}
