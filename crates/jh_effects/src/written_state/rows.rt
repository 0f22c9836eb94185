ghost use Rattle.std.specs.Prelude.{◌≡◌, ◌<◌, ℕ, [], nat_eq, length, IfOk, OnOk};
ghost use Rattle.std.specs.Prelude.{if◌then◌else◌};
ghost use Rattle.jh_containers.specs.transitive_closure.Spreads.{passed_to};
ghost use Rattle.jh_effects.specs.written_state.Chosen as chosen;

use jh_name::{NoMemory, Row};
use std::alloc::Global;
use std::marker::Model;

/// A row of places for each thing. Contracts see it as the list of these rows.
#[derive(Drop)]
pub struct Rows {
    rows: Vec<Vec<usize>>,
}

impl Model for Rows {
    ghost use Rattle.std.specs.Prelude.{List, ℕ, map};
    ghost use Rattle.jh_containers.specs.transitive_closure.Spreads.{items_of};

    ghost Value = { List (List ℕ) };

    ghost view = { λ rows. map items_of rows.rows.items };
}

/// Whether a place stands at the end of a row.
fn ends_with(row: &[usize], place: usize) -> bool
    ensures { result ≡ chosen.ends_with place row.now }
{
    match row.last() {
        None => false,
        Some(last) => *last == place,
    }
}

/// Puts a place at the end of a row, unless it stands there.
fn put_last(row: &mut Vec<usize>, place: usize) -> Result<(), NoMemory>
    ensures { OnOk result (row.new.items ≡ chosen.put_last place row.old.items) }
{
    if ends_with(row.as_slice(), place) {
        return Ok(());
    }
    row.push(place)?;
    Ok(())
}

impl Rows {
    /// Empty rows for so many things.
    pub fn none(alloc: Global, things: usize) -> Result<Rows, NoMemory>
        ensures none { IfOk result (λ made. (thing : ℕ) → passed_to made thing ≡ []) }
        ensures count { IfOk result (λ made. length made ≡ things) }
    {
        let mut rows = Vec::new(alloc);
        for _thing in 0..things {
            rows.push(Vec::new(alloc))?;
        }
        Ok(Rows { rows })
    }

    /// How many rows there are.
    pub fn len(&self) -> usize
        ensures { result ≡ length self.now }
    {
        self.rows.len()
    }

    /// Puts a place at the end of the row of a thing, unless it stands there.
    pub fn put(&mut self, thing: usize, place: usize) -> Result<(), NoMemory>
        requires { thing < length self.old }
        ensures put { OnOk result ((other : ℕ) → passed_to self.new other ≡ (if nat_eq other thing then chosen.put_last place (passed_to self.old other) else passed_to self.old other)) }
        ensures count { OnOk result (length self.new ≡ length self.old) }
    {
        put_last(&mut self.rows[thing], place)
    }

    /// The rows, in the order of the things.
    pub fn into_rows(self, alloc: Global) -> Result<Vec<Row<usize>>, NoMemory>
        ensures { IfOk result (λ made. made.items ≡ self) }
    {
        let mut made = Vec::new(alloc);
        for row in self.rows {
            made.push(Row::of(row))?;
        }
        Ok(made)
    }
}
