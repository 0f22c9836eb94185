use indexmap::IndexSet;
use jh_name::{NoMemory, Row};
use std::alloc::Global;

/// In which rows a number stands. It is an aid to go over few rows, and no contract speaks of what it has.
#[derive(Drop)]
pub(crate) struct Index {
    numbers: IndexSet<usize>,
    /// For each number the places of its rows, at the number's own place.
    rows: Vec<Vec<usize>>,
}

/// Adds a place at the end of a list.
fn extend(places: &mut Vec<usize>, place: usize) -> Result<(), NoMemory> {
    places.push(place)?;
    Ok(())
}

impl Index {
    /// The places of the rows in which a number stands.
    pub(crate) fn rows_with(&self, number: usize) -> &[usize] {
        match self.numbers.get_index_of(&number) {
            None => &[],
            Some(at) => if at < self.rows.len() {
                self.rows[at].as_slice()
            } else {
                &[]
            },
        }
    }

    /// Adds that a number stands in the row at a place.
    fn add(&mut self, alloc: Global, number: usize, place: usize) -> Result<(), NoMemory> {
        let (at, is_new) = self.numbers.insert_full(number)?;
        if is_new {
            self.rows.push(Vec::new(alloc))?;
        }
        if at < self.rows.len() {
            extend(&mut self.rows[at], place)?;
        }
        Ok(())
    }

    /// Adds the numbers of the row at a place.
    fn add_row(&mut self, alloc: Global, row: &[usize], place: usize) -> Result<(), NoMemory> {
        for number in row {
            self.add(alloc, *number, place)?;
        }
        Ok(())
    }
}

/// The index of some rows.
pub(crate) fn index_of(alloc: Global, rows: &[Row<usize>]) -> Result<Index, NoMemory> {
    let mut made = Index {
        numbers: IndexSet::new(alloc),
        rows: Vec::new(alloc),
    };
    for place in 0..rows.len() {
        made.add_row(alloc, rows[place].items(), place)?;
    }
    Ok(made)
}
