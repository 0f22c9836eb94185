ghost use Rattle.std.specs.Prelude.{◌≡◌, ◌<◌, ◌⊎◌, ◌++◌, ◌∷◌, [], ℕ, length, IfOk, OnOk};
ghost use Rattle.jh_containers.specs.transitive_closure.Spreads.{IsIn, passed_to};

use jh_name::{NoMemory, Row};
use std::alloc::Global;
use std::marker::Model;

/// Edges between things, as they are added: for each thing those to which edges lead. Contracts see it as the list
/// of these lists.
#[derive(Drop)]
pub struct Edges {
    rows: Vec<Vec<usize>>,
}

impl Model for Edges {
    ghost use Rattle.std.specs.Prelude.{List, ℕ, map};
    ghost use Rattle.jh_containers.specs.transitive_closure.Spreads.{items_of};

    ghost Value = { List (List ℕ) };

    ghost view = { λ edges. map items_of edges.rows.items };
}

/// Adds a thing at the end of a row.
fn extend(row: &mut Vec<usize>, to: usize) -> Result<(), NoMemory>
    ensures { OnOk result (row.new.items ≡ row.old.items ++ to ∷ []) }
{
    row.push(to)?;
    Ok(())
}

impl Edges {
    /// No edges between so many things.
    pub fn none(alloc: Global, things: usize) -> Result<Edges, NoMemory>
        ensures none { IfOk result (λ made. (n m : ℕ) → IsIn (passed_to made n) m → ⊥) }
        ensures count { IfOk result (λ made. length made ≡ things) }
    {
        let mut rows = Vec::new(alloc);
        for _thing in 0..things {
            rows.push(Vec::new(alloc))?;
        }
        Ok(Edges { rows })
    }

    /// Adds an edge.
    pub fn add(&mut self, from: usize, to: usize) -> Result<(), NoMemory>
        requires { from < length self.old }
        ensures added { OnOk result (IsIn (passed_to self.new from) to) }
        ensures keeps { OnOk result ((n m : ℕ) → IsIn (passed_to self.old n) m → IsIn (passed_to self.new n) m) }
        ensures only { OnOk result ((n m : ℕ) → IsIn (passed_to self.new n) m → ((n ≡ from) × (m ≡ to)) ⊎ IsIn (passed_to self.old n) m) }
        ensures count { OnOk result (length self.new ≡ length self.old) }
    {
        extend(&mut self.rows[from], to)
    }

    /// The edges as rows.
    pub fn into_rows(self, alloc: Global) -> Result<Vec<Row<usize>>, NoMemory>
        ensures { IfOk result (λ made. made.items ≡ self) }
    {
        let mut made = Vec::new(alloc);
        for row in self.rows {
            made.push(Row::of(row))?;
        }
        Ok(made)
    }
}
