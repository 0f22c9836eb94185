use jh_form::{Formula, Value};
use jh_name::{Name, Row};

/// A guarded command.
#[derive(Drop)]
pub enum Command {
    /// A run goes on only where the formula is true.
    Assume(Formula),
    /// A run fails where the formula is false.
    Assert(Formula),
    /// The name gets the value.
    Assign(Name, Value),
    /// The first name gets the value of the second, a fresh one that nothing assigns.
    Havoc(Name, Name),
    /// The method returns.
    Leave,
    /// No run goes on.
    Stop,
    /// One command after another.
    Seq(Row<Command>),
    /// Either of two commands.
    Choice(Box<Command>, Box<Command>),
}

/// The command of a method, and the formula that has to be true after it and where the method returns.
#[derive(Drop)]
pub struct MethodCommand {
    pub body: Command,
    pub returned: Formula,
}
