ghost use Rattle.std.specs.Prelude.{◌≡◌, ◌<◌, OnOk, length, nat_eq};
ghost use Rattle.indexmap.specs.IndexSet.{insert_all};
ghost use Rattle.jh_name.specs.declared.place.Sort.TheVariants as sort;
ghost use Rattle.jh_arena.specs.table.Nodes.{nodes};
ghost use Rattle.jh_form.specs.Sorts.{same_sort};
ghost use Rattle.jh_query_names.specs.query_names.Finding.{AreBelow};
ghost use Rattle.jh_query_names.specs.name_lists.Sorting.{has_sort, of_sort};

use crate::name_lists::listed::Listed;
use indexmap::IndexSet;
use jh_arena::table::Table;
use jh_name::{NoMemory, Sort};

/// Whether two sorts are one.
fn are_one(left: Sort, right: Sort) -> bool
    ensures { result ≡ same_sort left right }
{
    left == right
}

/// Whether a node has this sort.
fn has_sort(table: &Table, node: usize, sort: Sort) -> bool
    requires { node < length (nodes table.now) }
    ensures { result ≡ has_sort (nodes table.now) sort node }
{
    are_one(table.sort(node), sort)
}

/// Adds the nodes that have this sort to a list.
fn add_of_sort(
    table: &Table,
    names: &[usize],
    sort: Sort,
    list: &mut IndexSet<usize>,
) -> Result<(), NoMemory>
    requires { AreBelow (length (nodes table.now)) names.now }
    ensures { OnOk result (list.new.keys ≡ insert_all nat_eq list.old.keys (of_sort (nodes table.now) sort names.now)) }
{
    for node in names {
        let wanted = has_sort(table, *node, sort);
        if wanted {
            list.insert(*node)?;
        }
    }
    Ok(())
}

/// Adds each node to the list of its sort. Fields have none.
pub(crate) fn add_all(table: &Table, names: &[usize], listed: &mut Listed) -> Result<(), NoMemory>
    requires { AreBelow (length (nodes table.now)) names.now }
    ensures sets { OnOk result (listed.new.sets.keys ≡ insert_all nat_eq listed.old.sets.keys (of_sort (nodes table.now) sort.Set names.now)) }
    ensures elements { OnOk result (listed.new.elements.keys ≡ insert_all nat_eq listed.old.elements.keys (of_sort (nodes table.now) sort.Obj names.now)) }
    ensures numbers { OnOk result (listed.new.numbers.keys ≡ insert_all nat_eq listed.old.numbers.keys (of_sort (nodes table.now) sort.Int names.now)) }
    ensures flags { OnOk result (listed.new.flags.keys ≡ insert_all nat_eq listed.old.flags.keys (of_sort (nodes table.now) sort.Bool names.now)) }
{
    add_of_sort(table, names, Sort::Set, &mut listed.sets)?;
    add_of_sort(table, names, Sort::Obj, &mut listed.elements)?;
    add_of_sort(table, names, Sort::Int, &mut listed.numbers)?;
    add_of_sort(table, names, Sort::Bool, &mut listed.flags)
}
