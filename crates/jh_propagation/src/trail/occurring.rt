ghost use Rattle.std.specs.Prelude.{◌≡◌, ◌<◌, ◌⊎◌, ◌++◌, [], ◌∷◌, ℕ, IfOk, IsTrue, OnOk, length, if◌then◌else◌, ◌==◌};
ghost use Rattle.jh_closure.specs.congruence_closure.Nodes.{Has};
ghost use Rattle.jh_closure.specs.congruence_closure.Uses.{row};
ghost use Rattle.jh_arena.specs.table.Nodes.{nodes};
ghost use Rattle.jh_models.specs.ground_models.Atoms.{atoms_of};
ghost use Rattle.jh_propagation.specs.trail.Forms.{AreTwoParts};
ghost use Rattle.jh_propagation.specs.trail.Occurring.{AreAdded, AreBegun, AreGathered, AreOccurrences, IsNoted, lists_in, places_in};
ghost use Rattle.jh_propagation.specs.trail.Saying.{AreTruths, IsTruth, truth_at};

use crate::trail::forms::{Form, form_at};
use jh_arena::table::Table;
use jh_name::NoMemory;
use std::alloc::Global;
use std::marker::Model;

/// The ground atoms of instances, and for each the instances in which it stands.
#[derive(Drop)]
pub struct Ground {
    atoms: Vec<usize>,
    rows: Vec<Vec<usize>>,
}

impl Model for Ground {
    ghost use Rattle.jh_propagation.specs.trail.Occurring.{Occurrences, lists_in};

    ghost Value = { Occurrences };

    ghost view = { λ g. record { atoms = g.atoms.items; rows = lists_in g.rows.items } };
}

/// Atoms while they are gathered, and for each node the places of the instances in which it stands.
#[derive(Drop)]
struct Gathered {
    atoms: Vec<usize>,
    rows: Vec<Vec<usize>>,
}

/// No atoms, among so many nodes.
fn no_atoms(alloc: Global, count: usize) -> Result<Gathered, NoMemory>
    ensures empty { IfOk result (λ made. (r : ℕ) → row made.rows.items r ≡ []) }
    ensures atoms { IfOk result (λ made. made.atoms.items ≡ []) }
    ensures count { IfOk result (λ made. length made.rows.items ≡ count) }
{
    let rows = no_places(alloc, count)?;
    Ok(Gathered {
        atoms: Vec::new(alloc),
        rows,
    })
}

/// An empty list for each of so many nodes.
fn no_places(alloc: Global, count: usize) -> Result<Vec<Vec<usize>>, NoMemory>
    ensures empty { IfOk result (λ made. (r : ℕ) → row made.items r ≡ []) }
    ensures count { IfOk result (λ made. length made.items ≡ count) }
{
    let mut rows = Vec::new(alloc);
    for _node in 0..count {
        rows.push(Vec::new(alloc))?;
    }
    Ok(rows)
}

/// The places that are listed for a node.
fn places_of(rows: &Vec<Vec<usize>>, node: usize) -> &[usize]
    ensures { result.now ≡ row rows.now.items node }
{
    match rows.get(node) {
        Some(list) => list.as_slice(),
        None => &[],
    }
}

/// Whether a place is the last of a list.
fn is_last(list: &[usize], place: usize) -> bool
    ensures { IsTrue result → Has list.now place }
{
    match list.last() {
        Some(last) => *last == place,
        None => false,
    }
}

/// Adds a number to a list.
fn add(list: &mut Vec<usize>, item: usize) -> Result<(), NoMemory>
    ensures { OnOk result (list.new.items ≡ list.old.items ++ item ∷ []) }
{
    list.push(item)?;
    Ok(())
}

/// Lists a place for a node.
fn add_place(rows: &mut Vec<Vec<usize>>, node: usize, place: usize) -> Result<(), NoMemory>
    requires { node < length rows.old.items }
    ensures added { OnOk result ((r : ℕ) → row rows.new.items r ≡ (if r == node then row rows.old.items node ++ place ∷ [] else row rows.old.items r)) }
    ensures count { length rows.new.items ≡ length rows.old.items }
{
    add(&mut rows[node], place)
}

/// Adds an atom for which no place is listed yet.
fn add_atom(found: &mut Gathered, atom: usize) -> Result<(), NoMemory>
    ensures rows { found.new.rows.items ≡ found.old.rows.items }
    ensures atoms { OnOk result ((found.new.atoms.items ≡ found.old.atoms.items) ⊎ ((row found.old.rows.items atom ≡ []) × (found.new.atoms.items ≡ found.old.atoms.items ++ atom ∷ []))) }
    ensures there { OnOk result (row found.old.rows.items atom ≡ [] → found.new.atoms.items ≡ found.old.atoms.items ++ atom ∷ []) }
{
    if places_of(&found.rows, atom).is_empty() {
        found.atoms.push(atom)?;
    }
    Ok(())
}

/// Lists the place of an instance for an atom of it.
fn note(found: &mut Gathered, atom: usize, place: usize) -> Result<(), NoMemory>
    requires inside { atom < length found.old.rows.items }
    requires gathered { AreGathered found.old.atoms.items found.old.rows.items }
    ensures gathered { OnOk result (AreGathered found.new.atoms.items found.new.rows.items) }
    ensures noted { OnOk result (IsNoted atom place found.old.rows.items found.new.rows.items) }
{
    if is_last(places_of(&found.rows, atom), place) {
        return Ok(());
    }
    add_atom(found, atom)?;
    add_place(&mut found.rows, atom, place)
}

/// Lists the place of an instance for each atom of a node, which stands in it.
#[cycle(gather)]
fn gather(table: &Table, found: &mut Gathered, place: usize, node: usize) -> Result<(), NoMemory>
    requires formula { IsTruth (nodes table.now) node }
    requires long { length found.old.rows.items ≡ length (nodes table.now) }
    requires gathered { AreGathered found.old.atoms.items found.old.rows.items }
    ensures gathered { OnOk result (AreGathered found.new.atoms.items found.new.rows.items) }
    ensures added { OnOk result (AreAdded (nodes table.now) place (atoms_of (truth_at (nodes table.now) node)) found.old.rows.items found.new.rows.items) }
{
    match form_at(table, node) {
        Form::Known(_) => Ok(()),
        Form::Literal(literal) => note(found, literal.atom, place),
        Form::And(a, b) => gather_both(table, found, place, node, a, b),
        Form::Or(a, b) => gather_both(table, found, place, node, a, b),
    }
}

/// The same for two nodes.
#[cycle(gather)]
fn gather_both(
    table: &Table,
    found: &mut Gathered,
    place: usize,
    node: usize,
    a: usize,
    b: usize,
) -> Result<(), NoMemory>
    requires parts { AreTwoParts (nodes table.now) node a b }
    requires long { length found.old.rows.items ≡ length (nodes table.now) }
    requires gathered { AreGathered found.old.atoms.items found.old.rows.items }
    ensures gathered { OnOk result (AreGathered found.new.atoms.items found.new.rows.items) }
    ensures added { OnOk result (AreAdded (nodes table.now) place (atoms_of (truth_at (nodes table.now) a) ++ atoms_of (truth_at (nodes table.now) b)) found.old.rows.items found.new.rows.items) }
{
    gather(table, found, place, a)?;
    gather(table, found, place, b)
}

/// The same for an instance, unless it nests too deep.
fn gather_instance(
    table: &Table,
    found: &mut Gathered,
    place: usize,
    instance: usize,
) -> Result<(), NoMemory>
    requires formula { IsTruth (nodes table.now) instance }
    requires long { length found.old.rows.items ≡ length (nodes table.now) }
    requires gathered { AreGathered found.old.atoms.items found.old.rows.items }
    ensures gathered { OnOk result (AreGathered found.new.atoms.items found.new.rows.items) }
    ensures added { OnOk result (AreAdded (nodes table.now) place (atoms_of (truth_at (nodes table.now) instance)) found.old.rows.items found.new.rows.items) }
{
    if !table.is_shallow(instance) {
        return Err(NoMemory);
    }
    gather(table, found, place, instance)
}

/// The atoms of instances.
fn gather_all(table: &Table, instances: &[usize]) -> Result<Gathered, NoMemory>
    requires { AreTruths (nodes table.now) instances.now }
    ensures gathered { IfOk result (λ made. AreGathered made.atoms.items made.rows.items) }
    ensures begun { IfOk result (λ made. AreBegun (nodes table.now) instances.now (length instances.now) made.rows.items) }
{
    let mut found = no_atoms(table.alloc(), table.len())?;
    for place in 0..instances.len() {
        gather_instance(table, &mut found, place, instances[place])?;
    }
    Ok(found)
}

/// The atoms that were gathered.
fn ground_of(found: Gathered) -> Ground
    ensures { result ≡ record { atoms = found.atoms.items; rows = lists_in found.rows.items } }
{
    let Gathered { atoms, rows } = found;
    Ground { atoms, rows }
}

impl Ground {
    /// The ground atoms of instances that are nodes. The time is in proportion to the nodes of the table and the parts of the
    /// instances, each counted where it stands. The answer is want of memory where an instance nests deeper than MOST_LEVELS.
    pub fn new(table: &Table, instances: &[usize]) -> Result<Ground, NoMemory>
        requires { AreTruths (nodes table.now) instances.now }
        ensures { IfOk result (λ made. AreOccurrences (nodes table.now) instances.now made) }
    {
        table.nodes_differ();
        let found = gather_all(table, instances)?;
        Ok(ground_of(found))
    }

    /// The nodes of the ground atoms, each once, in the order in which they first stand.
    pub fn atoms(&self) -> &[usize]
        ensures { result.now ≡ self.now.atoms }
    {
        self.atoms.as_slice()
    }

    /// The places of the instances in which an atom stands, by the number of its node. It takes no time.
    pub fn places(&self, atom: usize) -> &[usize]
        ensures { result.now ≡ places_in self.now atom }
    {
        places_of(&self.rows, atom)
    }
}
