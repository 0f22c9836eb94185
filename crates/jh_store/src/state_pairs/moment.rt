ghost use Rattle.std.specs.Prelude.{◌≡◌, ◌<◌, true, slice_get, length, is_some, if◌then◌else◌};
ghost use Rattle.jh_arena.specs.table.Entries.{the_name};
ghost use Rattle.jh_semantics.specs.State.{shown};
ghost use Rattle.jh_store.specs.memory.Held.{state_of};
ghost use Rattle.jh_store.specs.state_pairs.Homes.{IsHome, AreHomes};

use crate::memory::Memory;
use jh_arena::table::Table;
use jh_sem::World;

/// Where a name of a formula has its value: under the number, in a memory, of the name of its text at turn 0; in the
/// state at entry where it stands under `old`.
#[derive(Clone, Copy)]
pub struct Home {
    pub number: usize,
    pub is_old: bool,
}

/// What the formulas of a table see in a run: the memory now, and that at the method's entry.
#[derive(Clone, Copy)]
pub struct Moment<'a> {
    pub table: &'a Table,
    pub homes: &'a [Home],
    pub current: &'a Memory<'a>,
    pub entry: &'a Memory<'a>,
    ghost homes_known: { AreHomes table.now.pools.names current.now.names homes.now },
    ghost same_names: { entry.now.names ≡ current.now.names },
    ghost same_last: { entry.now.last ≡ current.now.last },
}

impl<'a> Moment<'a> {
    /// Where a name has its value.
    fn home(&self, name: usize) -> Home
        requires { is_some (slice_get self.now.table.now.pools.names name) ≡ true }
        ensures home { IsHome self.now.current.now.names (the_name (slice_get self.now.table.now.pools.names name)) result }
        ensures inside { result.number < length self.now.current.now.names }
    {
        self.homes[name]
    }

    /// The memory of a name.
    fn side(&self, home: Home) -> &Memory<'a>
        requires { home.number < length self.now.current.now.names }
        ensures memory { result.now ≡ (if home.is_old then self.now.entry.now else self.now.current.now) }
        ensures names { result.now.names ≡ self.now.current.now.names }
        ensures inside { home.number < length result.now.names }
        ensures last { result.now.last ≡ self.now.current.now.last }
    {
        if home.is_old {
            self.entry
        } else {
            self.current
        }
    }
}

impl<'a> World for Moment<'a> {
    ghost listing = { λ w. w.table.now };

    ghost meaning = { λ w. shown (state_of w.current.now) (state_of w.entry.now) };

    fn table(&self) -> &Table {
        self.table
    }

    fn last(&self) -> u32 {
        self.current.last()
    }

    fn object(&self, name: usize) -> u32 {
        let home = self.home(name);
        self.side(home).object(home.number)
    }

    fn number(&self, name: usize) -> i128 {
        let home = self.home(name);
        i128::from(self.side(home).number(home.number))
    }

    fn truth(&self, name: usize) -> bool {
        let home = self.home(name);
        self.side(home).truth(home.number)
    }

    fn has(&self, name: usize, object: u32) -> bool {
        let home = self.home(name);
        self.side(home).has(home.number, object)
    }

    fn object_at(&self, name: usize, at: u32) -> u32 {
        let home = self.home(name);
        self.side(home).object_at(home.number, at)
    }

    fn number_at(&self, name: usize, at: u32) -> i128 {
        let home = self.home(name);
        i128::from(self.side(home).number_at(home.number, at))
    }

    fn truth_at(&self, name: usize, at: u32) -> bool {
        let home = self.home(name);
        self.side(home).truth_at(home.number, at)
    }

    fn has_at(&self, name: usize, at: u32, object: u32) -> bool {
        let home = self.home(name);
        self.side(home).has_at(home.number, at, object)
    }
}
