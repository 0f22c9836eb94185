ghost use Rattle.std.specs.Prelude.{◌≡◌, ◌&&◌};
ghost use Rattle.jh_form.specs.Closed.{is_closed_formula, is_closed_term, is_closed_field, is_closed_value};
ghost use Rattle.jh_arena.specs.table.Nodes.{nodes};
ghost use Rattle.jh_derivation_steps.specs.closedness.Standing.{formula_at, term_at, field_at, value_at, IsFormula, IsTerm, IsField, IsValue};

use jh_arena::table::Table;

/// Whether a formula is closed.
pub fn formula(table: &Table, node: usize) -> bool
    requires { IsFormula (nodes table.now) node }
    ensures { result ≡ is_closed_formula (formula_at (nodes table.now) node) 0 }
{
    table.is_closed(node)
}

/// Whether a term is closed.
pub fn term(table: &Table, node: usize) -> bool
    requires { IsTerm (nodes table.now) node }
    ensures { result ≡ is_closed_term (term_at (nodes table.now) node) 0 }
{
    table.is_closed(node)
}

/// Whether a field is closed.
pub fn field(table: &Table, node: usize) -> bool
    requires { IsField (nodes table.now) node }
    ensures { result ≡ is_closed_field (field_at (nodes table.now) node) 0 }
{
    table.is_closed(node)
}

/// Whether a value is closed.
pub fn value(table: &Table, node: usize) -> bool
    requires { IsValue (nodes table.now) node }
    ensures { result ≡ is_closed_value (value_at (nodes table.now) node) 0 }
{
    table.is_closed(node)
}

/// Whether two values are closed.
pub fn values(table: &Table, left: usize, right: usize) -> bool
    requires left { IsValue (nodes table.now) left }
    requires right { IsValue (nodes table.now) right }
    ensures { result ≡ (is_closed_value (value_at (nodes table.now) left) 0 && is_closed_value (value_at (nodes table.now) right) 0) }
{
    value(table, left) && value(table, right)
}

/// Whether three values are closed.
pub fn three(table: &Table, first: usize, second: usize, third: usize) -> bool
    requires first { IsValue (nodes table.now) first }
    requires second { IsValue (nodes table.now) second }
    requires third { IsValue (nodes table.now) third }
    ensures { result ≡ (is_closed_value (value_at (nodes table.now) first) 0 && is_closed_value (value_at (nodes table.now) second) 0 && is_closed_value (value_at (nodes table.now) third) 0) }
{
    values(table, first, second) && value(table, third)
}

/// Whether a formula and a term are closed.
pub fn with_term(table: &Table, node: usize, with: usize) -> bool
    requires node { IsFormula (nodes table.now) node }
    requires with { IsTerm (nodes table.now) with }
    ensures { result ≡ (is_closed_formula (formula_at (nodes table.now) node) 0 && is_closed_term (term_at (nodes table.now) with) 0) }
{
    formula(table, node) && term(table, with)
}

/// Whether a field and a term are closed.
pub fn field_term(table: &Table, node: usize, at: usize) -> bool
    requires node { IsField (nodes table.now) node }
    requires at { IsTerm (nodes table.now) at }
    ensures { result ≡ (is_closed_field (field_at (nodes table.now) node) 0 && is_closed_term (term_at (nodes table.now) at) 0) }
{
    field(table, node) && term(table, at)
}

/// Whether a field and two terms are closed.
pub fn reading(table: &Table, node: usize, left: usize, right: usize) -> bool
    requires node { IsField (nodes table.now) node }
    requires left { IsTerm (nodes table.now) left }
    requires right { IsTerm (nodes table.now) right }
    ensures { result ≡ (is_closed_field (field_at (nodes table.now) node) 0 && is_closed_term (term_at (nodes table.now) left) 0 && is_closed_term (term_at (nodes table.now) right) 0) }
{
    field_term(table, node, left) && term(table, right)
}

/// Whether two formulas are closed.
pub fn formulas(table: &Table, left: usize, right: usize) -> bool
    requires left { IsFormula (nodes table.now) left }
    requires right { IsFormula (nodes table.now) right }
    ensures { result ≡ (is_closed_formula (formula_at (nodes table.now) left) 0 && is_closed_formula (formula_at (nodes table.now) right) 0) }
{
    formula(table, left) && formula(table, right)
}

/// Whether two formulas and a value are closed.
pub fn with_value(table: &Table, left: usize, right: usize, old: usize) -> bool
    requires left { IsFormula (nodes table.now) left }
    requires right { IsFormula (nodes table.now) right }
    requires old { IsValue (nodes table.now) old }
    ensures { result ≡ (is_closed_formula (formula_at (nodes table.now) left) 0 && is_closed_formula (formula_at (nodes table.now) right) 0 && is_closed_value (value_at (nodes table.now) old) 0) }
{
    formulas(table, left, right) && value(table, old)
}

/// Whether two formulas and the values that are exchanged between them are closed.
pub fn replacing(table: &Table, left: usize, right: usize, old: usize, new: usize) -> bool
    requires left { IsFormula (nodes table.now) left }
    requires right { IsFormula (nodes table.now) right }
    requires old { IsValue (nodes table.now) old }
    requires new { IsValue (nodes table.now) new }
    ensures { result ≡ (is_closed_formula (formula_at (nodes table.now) left) 0 && is_closed_formula (formula_at (nodes table.now) right) 0 && is_closed_value (value_at (nodes table.now) old) 0 && is_closed_value (value_at (nodes table.now) new) 0) }
{
    with_value(table, left, right, old) && value(table, new)
}
