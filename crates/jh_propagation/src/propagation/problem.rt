ghost use Rattle.std.specs.Prelude.{◌≡◌, ◌<◌, ℕ, IfOk, List, Some, length, slice_get, slice_set};
ghost use Rattle.jh_form.specs.Tree.{ValueTree};
ghost use Rattle.jh_closure.specs.congruence_closure.Nodes.{Has};
ghost use Rattle.jh_arena.specs.table.Growth.{Extends};
ghost use Rattle.jh_arena.specs.table.Nodes.{nodes};
ghost use Rattle.jh_propagation.specs.trail.Occurring.{AreOccurrences};
ghost use Rattle.jh_propagation.specs.trail.Saying.{AreTruths};
ghost use Rattle.jh_propagation.specs.propagation.Problems.{AreNames, AreUnlabelled, IsNamed, IsProblem};

use crate::trail::Ground;
use jh_arena::makers::{falsehood, truth};
use jh_arena::table::Table;
use jh_models::jh_import::carrying::carry_all;
use jh_name::NoMemory;

/// The instances of a search, which are nodes of a table, with their ground atoms. Each atom has a name: its node in a second table, which
/// has the atoms and their parts alone, and in which True and False are these nodes. So what is equal is asked of few nodes.
#[derive(Drop)]
pub struct Problem {
    pub table: Table,
    pub instances: Vec<usize>,
    pub ground: Ground,
    pub names: Vec<usize>,
    pub yes: usize,
    pub no: usize,
}

impl Problem {
    /// The name of an atom.
    pub fn name(&self, atom: usize) -> usize
        requires { atom < length self.now.names.items }
        ensures { slice_get self.now.names.items atom ≡ Some result }
    {
        self.names[atom]
    }
}

/// A number of a list.
fn atom_at(atoms: &[usize], index: usize) -> usize
    requires { index < length atoms.now }
    ensures { slice_get atoms.now index ≡ Some result }
{
    atoms[index]
}

/// Gives an atom its name.
fn give_name(names: &mut Vec<usize>, atom: usize, name: usize)
    requires { atom < length names.old.items }
    ensures named { names.new.items ≡ slice_set names.old.items atom name }
    ensures long { length names.new.items ≡ length names.old.items }
{
    names[atom] = name;
}

/// Gives each atom of a list the name at its place in another list.
fn give_all(names: &mut Vec<usize>, atoms: &[usize], given: &[usize])
    requires inside { (k : ℕ) → Has atoms.now k → k < length names.old.items }
    requires long { length given.now ≡ length atoms.now }
    ensures { (us ts : List ValueTree) → ((place k name : ℕ) → slice_get atoms.now place ≡ Some k → slice_get given.now place ≡ Some name → slice_get us name ≡ slice_get ts k) → (k : ℕ) → Has atoms.now k → IsNamed us ts names.new.items k }
{
    for index in 0..atoms.len() {
        let atom = atom_at(atoms, index);
        let name = atom_at(given, index);
        give_name(names, atom, name);
    }
}

/// The names of the atoms of instances: their nodes in another table, which are made there.
fn names_of(table: &Table, ground: &Ground, into: &mut Table) -> Result<Vec<usize>, NoMemory>
    requires atoms { (k : ℕ) → Has ground.now.atoms k → k < length (nodes table.now) }
    ensures names { IfOk result (λ names. (k : ℕ) → Has ground.now.atoms k → IsNamed (nodes into.new) (nodes table.now) names.items k) }
    ensures grows { Extends into.old into.new }
{
    let mut names = vec![in into.alloc(); 0; table.len()]?;
    let atoms = ground.atoms();
    let made = carry_all(table, into, atoms)?;
    give_all(&mut names, atoms, made.as_slice());
    Ok(names)
}

/// The names of atoms, and the nodes of True and False in their table.
#[derive(Drop)]
struct Names {
    list: Vec<usize>,
    yes: usize,
    no: usize,
}

/// Makes True, False and the atoms of instances in another table.
fn fill(table: &Table, ground: &Ground, into: &mut Table) -> Result<Names, NoMemory>
    requires atoms { (k : ℕ) → Has ground.now.atoms k → k < length (nodes table.now) }
    ensures { IfOk result (λ made. AreNames (nodes into.new) (nodes table.now) ground.now.atoms made.list.items made.yes made.no) }
{
    let yes = truth(into)?;
    let no = falsehood(into)?;
    let list = names_of(table, ground, into)?;
    Ok(Names { list, yes, no })
}

/// The atoms of instances in a table of their own, with True and False.
fn atoms_of(table: &Table, ground: &Ground) -> Result<(Table, Names), NoMemory>
    requires atoms { (k : ℕ) → Has ground.now.atoms k → k < length (nodes table.now) }
    ensures { IfOk result (λ made. AreNames (nodes made.0) (nodes table.now) ground.now.atoms made.1.list.items made.1.yes made.1.no) }
{
    let mut atoms = Table::new(table.alloc())?;
    let names = fill(table, ground, &mut atoms)?;
    Ok((atoms, names))
}

/// The parts of a problem beside its instances.
#[derive(Drop)]
struct Parts {
    ground: Ground,
    atoms: Table,
    names: Names,
}

/// The parts of the problem of instances.
fn parts_of(table: &Table, instances: &[usize]) -> Result<Parts, NoMemory>
    requires instances { AreTruths (nodes table.now) instances.now }
    ensures occurrences { IfOk result (λ made. AreOccurrences (nodes table.now) instances.now made.ground) }
    ensures names { IfOk result (λ made. AreNames (nodes made.atoms) (nodes table.now) made.ground.atoms made.names.list.items made.names.yes made.names.no) }
{
    let ground = Ground::new(table, instances)?;
    let (atoms, names) = atoms_of(table, &ground)?;
    Ok(Parts {
        ground,
        atoms,
        names,
    })
}

/// A problem of these parts, and the table of its names.
fn assembled(table: Table, instances: Vec<usize>, parts: Parts) -> (Problem, Table)
    requires instances { AreTruths (nodes table) instances.items }
    requires unlabelled { AreUnlabelled (nodes table) instances.items }
    requires occurrences { AreOccurrences (nodes table) instances.items parts.ground }
    requires names { AreNames (nodes parts.atoms) (nodes table) parts.ground.atoms parts.names.list.items parts.names.yes parts.names.no }
    ensures problem { IsProblem (nodes result.1) result.0 }
    ensures instances { result.0.instances.items ≡ instances.items }
    ensures table { result.0.table ≡ table }
{
    let Parts {
        ground,
        atoms,
        names,
    } = parts;
    let Names { list, yes, no } = names;
    let problem = Problem {
        table,
        instances,
        ground,
        names: list,
        yes,
        no,
    };
    (problem, atoms)
}

/// Poses the problem of instances that are nodes of a table. Beside it comes the table of the names.
pub fn pose(table: Table, instances: Vec<usize>) -> Result<(Problem, Table), NoMemory>
    requires instances { AreTruths (nodes table) instances.items }
    requires unlabelled { AreUnlabelled (nodes table) instances.items }
    ensures problem { IfOk result (λ made. IsProblem (nodes made.1) made.0) }
    ensures instances { IfOk result (λ made. made.0.instances.items ≡ instances.items) }
    ensures table { IfOk result (λ made. made.0.table ≡ table) }
{
    let parts = parts_of(&table, instances.as_slice())?;
    Ok(assembled(table, instances, parts))
}
