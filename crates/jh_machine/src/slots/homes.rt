ghost use Rattle.std.specs.Prelude.{◌<◌, IfOk, length, slice_get};
ghost use Rattle.jh_arena.specs.table.Entries.{the_name};
ghost use Rattle.jh_arena.specs.table.Growth.{Grows};
ghost use Rattle.jh_store.specs.state_pairs.Homes.{IsHome, AreHomes};

use jh_arena::table::Table;
use jh_machine_code::numbering::name_number;
use jh_name::NoMemory;
use jh_store::memory::Names;
use jh_store::state_pairs::Home;
use std::alloc::Global;

/// Where a name of a table has its value.
fn home_of(alloc: Global, table: &Table, names: &mut Names, number: usize) -> Result<Home, NoMemory>
    requires { number < length table.now.pools.names }
    ensures home { IfOk result (IsHome names.new (the_name (slice_get table.now.pools.names number))) }
    ensures grows { Grows names.old names.new }
{
    let name = table.name_at(number);
    let is_old = name.turn() != 0;
    let number = name_number(alloc, names, name)?;
    Ok(Home { number, is_old })
}

/// Where each name of a table has its value, by the name's number; texts that have no number among the names get one.
pub fn homes_of(alloc: Global, table: &Table, names: &mut Names) -> Result<Vec<Home>, NoMemory>
    ensures homes { IfOk result (λ made. AreHomes table.now.pools.names names.new made.items) }
    ensures grows { Grows names.old names.new }
{
    let mut made = Vec::new(alloc);
    for number in 0..table.name_count() {
        let home = home_of(alloc, table, names, number)?;
        made.push(home)?;
    }
    Ok(made)
}
