ghost use Rattle.std.specs.Prelude.{◌≡◌, ◌<◌, ℕ, true, not, IfOk, IfSome, Some, None, length, slice_get};
ghost use Rattle.jh_form.specs.Passing.{value_passes, name_equal};
ghost use Rattle.jh_arena.specs.table.Entries.{the_value};
ghost use Rattle.jh_arena.specs.table.Growth.{Extends};
ghost use Rattle.jh_arena.specs.table.Nodes.{nodes};

use crate::table::Arena;
use jh_boxed::copy_mark;
use jh_boxed::jh_name::{Name, NoMemory, Row};
use jh_form::Mark;

impl Arena {
    /// As `Table::name`.
    pub fn name(&mut self, name: &Name) -> Result<usize, NoMemory>
        ensures number { IfOk result (λ number. slice_get self.new.pools.names number ≡ Some name.now) }
        ensures grows { Extends self.old self.new }
        ensures nodes { nodes self.new ≡ nodes self.old }
    {
        match self.names.get_index_of(name) {
            Some(number) => Ok(number),
            None => {
                let copied = name.copy(self.alloc)?;
                let (number, _) = self.names.insert_full(copied)?;
                Ok(number)
            }
        }
    }

    /// As `Table::number_of`.
    pub fn number_of(&self, name: &Name) -> Option<usize>
        ensures number { IfSome result (λ number. slice_get self.now.pools.names number ≡ Some name.now) }
        ensures nowhere { result ≡ None → (node : ℕ) → node < length (nodes self.now) → value_passes (the_value (slice_get (nodes self.now) node)) (λ y s. not (name_equal y name.now)) ≡ true }
    {
        self.names.get_index_of(name)
    }

    /// As `Table::name_count`.
    pub fn name_count(&self) -> usize
        ensures { result ≡ length self.now.pools.names }
    {
        self.names.len()
    }

    /// As `Table::mark`.
    pub fn mark(&mut self, mark: &Mark) -> Result<usize, NoMemory>
        ensures number { IfOk result (λ number. slice_get self.new.pools.marks number ≡ Some mark.now) }
        ensures grows { Extends self.old self.new }
        ensures nodes { nodes self.new ≡ nodes self.old }
    {
        match self.marks.get_index_of(mark) {
            Some(number) => Ok(number),
            None => {
                let copied = copy_mark(self.alloc, mark)?;
                let (number, _) = self.marks.insert_full(copied)?;
                Ok(number)
            }
        }
    }

    /// As `Table::list`.
    pub fn list(&mut self, items: &[usize]) -> Result<usize, NoMemory>
        ensures number { IfOk result (λ number. slice_get self.new.pools.lists number ≡ Some items.now) }
        ensures grows { Extends self.old self.new }
        ensures nodes { nodes self.new ≡ nodes self.old }
    {
        let mut copied = Vec::new(self.alloc);
        copied.extend_from_slice(items)?;
        let (number, _) = self.lists.insert_full(Row::of(copied))?;
        Ok(number)
    }

    /// As `Table::name_at`.
    pub fn name_at(&self, number: usize) -> &Name
        requires { number < length self.now.pools.names }
        ensures { slice_get self.now.pools.names number ≡ Some result.now }
    {
        &self.names[number]
    }

    /// As `Table::mark_at`.
    pub fn mark_at(&self, number: usize) -> &Mark
        requires { number < length self.now.pools.marks }
        ensures { slice_get self.now.pools.marks number ≡ Some result.now }
    {
        &self.marks[number]
    }

    /// As `Table::list_at`.
    pub fn list_at(&self, number: usize) -> &[usize]
        requires { number < length self.now.pools.lists }
        ensures { slice_get self.now.pools.lists number ≡ Some result.now }
    {
        self.lists[number].items()
    }
}
