#![tactic(auto, using(crate::proofs::MapSteps::map_steps, crate::proofs::SizeSteps::size_steps, jh_form::proofs::PassSteps::pass_steps))]

ghost use Rattle.jh_form.specs.Bare.{term_tree, int_tree, set_tree, field_tree, value_tree, formula_tree};
ghost use Rattle.jh_form.specs.Tree as tree;

use crate::walk::{Leaves, NameTest, Walk};
use crate::{extent, mapping, passing};
use jh_form::{FieldTerm, Formula, IntTerm, SetTerm, Term, Value};
use jh_name::NoMemory;
use std::alloc::Global;

impl Walk for Term {
    ghost tree = { λ a. tree.of_object (term_tree a) };

    fn size(&self) -> u64 {
        extent::extent_term(self).nodes
    }

    fn depth(&self) -> u64 {
        extent::extent_term(self).depth
    }

    fn map<L: Leaves>(&self, alloc: Global, depth: u32, leaves: &L) -> Result<Term, NoMemory> {
        mapping::map_term(alloc, self, depth, leaves)
    }

    fn names<T: NameTest>(&self, test: &T) -> bool {
        passing::names_term(self, test)
    }
}

impl Walk for IntTerm {
    ghost tree = { λ a. tree.of_number (int_tree a) };

    fn size(&self) -> u64 {
        extent::extent_int(self).nodes
    }

    fn depth(&self) -> u64 {
        extent::extent_int(self).depth
    }

    fn map<L: Leaves>(&self, alloc: Global, depth: u32, leaves: &L) -> Result<IntTerm, NoMemory> {
        mapping::map_int(alloc, self, depth, leaves)
    }

    fn names<T: NameTest>(&self, test: &T) -> bool {
        passing::names_int(self, test)
    }
}

impl Walk for SetTerm {
    ghost tree = { λ a. tree.of_set (set_tree a) };

    fn size(&self) -> u64 {
        extent::extent_set(self).nodes
    }

    fn depth(&self) -> u64 {
        extent::extent_set(self).depth
    }

    fn map<L: Leaves>(&self, alloc: Global, depth: u32, leaves: &L) -> Result<SetTerm, NoMemory> {
        mapping::map_set(alloc, self, depth, leaves)
    }

    fn names<T: NameTest>(&self, test: &T) -> bool {
        passing::names_set(self, test)
    }
}

impl Walk for FieldTerm {
    ghost tree = { λ a. tree.of_field (field_tree a) };

    fn size(&self) -> u64 {
        extent::extent_field(self).nodes
    }

    fn depth(&self) -> u64 {
        extent::extent_field(self).depth
    }

    fn map<L: Leaves>(&self, alloc: Global, depth: u32, leaves: &L) -> Result<FieldTerm, NoMemory> {
        mapping::map_field(alloc, self, depth, leaves)
    }

    fn names<T: NameTest>(&self, test: &T) -> bool {
        passing::names_field(self, test)
    }
}

impl Walk for Value {
    ghost tree = { λ a. value_tree a };

    fn size(&self) -> u64 {
        extent::extent_value(self).nodes
    }

    fn depth(&self) -> u64 {
        extent::extent_value(self).depth
    }

    fn map<L: Leaves>(&self, alloc: Global, depth: u32, leaves: &L) -> Result<Value, NoMemory> {
        mapping::map_value(alloc, self, depth, leaves)
    }

    fn names<T: NameTest>(&self, test: &T) -> bool {
        passing::names_value(self, test)
    }
}

impl Walk for Formula {
    ghost tree = { λ a. tree.of_truth (formula_tree a) };

    fn size(&self) -> u64 {
        extent::extent_formula(self).nodes
    }

    fn depth(&self) -> u64 {
        extent::extent_formula(self).depth
    }

    fn map<L: Leaves>(&self, alloc: Global, depth: u32, leaves: &L) -> Result<Formula, NoMemory> {
        mapping::map_formula(alloc, self, depth, leaves)
    }

    fn names<T: NameTest>(&self, test: &T) -> bool {
        passing::names_formula(self, test)
    }
}
