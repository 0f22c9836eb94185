#![tactic(auto, using(jh_form::proofs::Steps::tree_steps, crate::proofs::Identity::identity_steps))]

ghost use Rattle.std.specs.Prelude.{◌≡◌, IfOk};
ghost use Rattle.jh_boxed.specs.Mapped.{unchanged};

use crate::walk::{Leaves, Walk};
use jh_form::{FieldTerm, Formula, IntTerm, SetTerm, Term};
use jh_name::{Name, NoMemory};
use std::alloc::Global;

/// The leaves that change nothing.
#[derive(Clone, Copy)]
pub struct Unchanged;

// Out of line, so that the levels above a leaf don't keep its room on the stack.
impl Leaves for Unchanged {
    ghost leaves = { λ _. unchanged };

    #[inline(never)]
    fn object(&self, alloc: Global, name: &Name, _depth: u32) -> Result<Term, NoMemory> {
        let name = name.copy(alloc)?;
        Ok(Term::Free(name))
    }

    #[inline(never)]
    fn integer(&self, alloc: Global, name: &Name, _depth: u32) -> Result<IntTerm, NoMemory> {
        let name = name.copy(alloc)?;
        Ok(IntTerm::Free(name))
    }

    #[inline(never)]
    fn truth(&self, alloc: Global, name: &Name, _depth: u32) -> Result<Formula, NoMemory> {
        let name = name.copy(alloc)?;
        Ok(Formula::Free(name))
    }

    #[inline(never)]
    fn set(&self, alloc: Global, name: &Name, _depth: u32) -> Result<SetTerm, NoMemory> {
        let name = name.copy(alloc)?;
        Ok(SetTerm::Free(name))
    }

    #[inline(never)]
    fn field(&self, alloc: Global, name: &Name, _depth: u32) -> Result<FieldTerm, NoMemory> {
        let name = name.copy(alloc)?;
        Ok(FieldTerm::Free(name))
    }

    #[inline(never)]
    fn bound(&self, _alloc: Global, number: u32, _depth: u32) -> Result<Term, NoMemory> {
        Ok(Term::Bound(number))
    }
}

/// The same tree, labels included.
pub fn copy<W: Walk>(alloc: Global, from: &W) -> Result<W, NoMemory>
    ensures { IfOk result (λ made. W.tree made ≡ W.tree from.now) }
{
    from.map(alloc, 0, &Unchanged)
}
