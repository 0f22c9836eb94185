ghost use Rattle.std.specs.Prelude.{◌≡◌, ℕ, List, None, map, OnOk};
ghost use Rattle.indexmap.specs.IndexMap.{get_by_text};
ghost use Rattle.jh_ast.specs.Bare.{class_part};
ghost use Rattle.jh_rules.specs.Names.{class_from};

use crate::declarations::putting::{from_end, put};
use indexmap::IndexMap;
use jh_ast::Class;
use jh_name::NoMemory;
use std::alloc::Global;

/// Numbers the classes by their names. Of several classes of a name it is the first that the name names.
pub fn put_numbers(
    alloc: Global,
    table: &mut IndexMap<String, usize>,
    classes: &[Class],
) -> Result<(), NoMemory>
    requires { (x : List ℕ) → get_by_text table.old x ≡ None }
    ensures { OnOk result ((x : List ℕ) → get_by_text table.new x ≡ class_from 0 x (map class_part classes.now)) }
{
    for back in 0..classes.len() {
        let index = from_end(classes.len(), back);
        put(alloc, table, classes[index].name.text.text(), index)?;
    }
    Ok(())
}
