ghost use Rattle.std.specs.Prelude.{◌≡◌, IfOk, length, []};
ghost use Rattle.jh_arena.specs.table.Nodes.{nodes};

use crate::table::{Facts, Shape};
use indexmap::{IndexMap, IndexSet};
use jh_boxed::jh_name::{Name, NoMemory, Row};
use jh_form::Mark;
use std::alloc::Global;
use std::marker::Model;

/// What a table holds, by which its calls are answered. Contracts see it as they see the table.
#[derive(Drop)]
pub(crate) struct Arena {
    pub(crate) alloc: Global,
    pub(crate) names: IndexSet<Name>,
    pub(crate) marks: IndexSet<Mark>,
    pub(crate) lists: IndexSet<Row<usize>>,
    pub(crate) nodes: IndexMap<Shape, Facts>,
}

impl Model for Arena {
    ghost use Rattle.jh_arena.specs.table.Entries.{Listing};
    ghost use Rattle.jh_arena.specs.table.Measures.{IsTable};
    ghost use Rattle.indexmap.specs.IndexMap.{keys, values};

    ghost Value = { Listing };

    ghost view = { λ t. record { pools = record { names = t.names.keys; marks = t.marks.keys; lists = t.lists.keys }; shapes = keys t.nodes } };

    ghost invariant = { λ t. IsTable (record { names = t.names.keys; marks = t.marks.keys; lists = t.lists.keys }) (keys t.nodes) (values t.nodes) };
}

impl Arena {
    /// As `Table::new`.
    pub fn new(alloc: Global) -> Result<Arena, NoMemory>
        ensures { IfOk result (λ made. nodes made ≡ []) }
    {
        Ok(Arena {
            alloc,
            names: IndexSet::new(alloc),
            marks: IndexSet::new(alloc),
            lists: IndexSet::new(alloc),
            nodes: IndexMap::new(alloc),
        })
    }

    /// As `Table::len`.
    pub fn len(&self) -> usize
        ensures { result ≡ length (nodes self.now) }
    {
        self.nodes.len()
    }

    /// As `Table::alloc`.
    pub fn alloc(&self) -> Global {
        self.alloc
    }
}
