ghost use Rattle.std.specs.Prelude.{◌≡◌, ◌<◌, true, IfOk, Some, length, slice_get};
ghost use Rattle.jh_arena.specs.table.Growth.{Extends};
ghost use Rattle.jh_arena.specs.table.Nodes.{nodes, fits_in};
ghost use Rattle.jh_arena.specs.table.Parts.{parts, list_parts, has_list, IsPut};

use crate::table::{Arena, Shape};
use jh_boxed::jh_name::NoMemory;

impl Arena {
    /// As `Table::count`.
    pub fn count(&self, shape: Shape) -> usize
        requires { fits_in self.now shape ≡ true }
        ensures { result ≡ length (parts self.now.pools.lists shape) }
    {
        self.fields(shape).len() + shape.own().count()
    }

    /// As `Table::part`.
    pub fn part(&self, shape: Shape, index: usize) -> usize
        requires fits { fits_in self.now shape ≡ true }
        requires within { index < length (parts self.now.pools.lists shape) }
        ensures { slice_get (parts self.now.pools.lists shape) index ≡ Some result }
    {
        let fields = self.fields(shape);
        if index < fields.len() {
            fields[index]
        } else {
            shape.own().at(index - fields.len())
        }
    }

    /// As `Table::with_parts`.
    pub fn with_parts(&mut self, shape: Shape, given: &[usize]) -> Result<Shape, NoMemory>
        requires fits { fits_in self.old shape ≡ true }
        requires counted { length given.now ≡ length (parts self.old.pools.lists shape) }
        ensures put { IfOk result (λ made. IsPut self.new.pools.lists given.now shape made) }
        ensures grows { Extends self.old self.new }
        ensures nodes { nodes self.new ≡ nodes self.old }
    {
        let fields = given.len() - shape.own().count();
        let list = self.new_list(shape, &given[..fields])?;
        Ok(shape.put(list, &given[fields..]))
    }
}

impl Arena {
    fn fields(&self, shape: Shape) -> &[usize]
        requires { fits_in self.now shape ≡ true }
        ensures { result.now ≡ list_parts self.now.pools.lists shape }
    {
        match shape.list() {
            Some(list) => self.list_at(list),
            None => &[],
        }
    }

    fn new_list(&mut self, shape: Shape, fields: &[usize]) -> Result<usize, NoMemory>
        ensures listed { IfOk result (λ number. has_list shape ≡ true → slice_get self.new.pools.lists number ≡ Some fields.now) }
        ensures grows { Extends self.old self.new }
        ensures nodes { nodes self.new ≡ nodes self.old }
    {
        match shape.list() {
            Some(_) => self.list(fields),
            None => Ok(0),
        }
    }
}
