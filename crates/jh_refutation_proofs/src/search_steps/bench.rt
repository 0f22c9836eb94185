use indexmap::IndexSet;
use jh_cong::classes::Classes;
use jh_name::NoMemory;
use jh_search::jh_propagation::propagation::Problem;
use jh_search::jh_propagation::trail::Trail;

/// What branches are closed with: the problem; classes and a trail, which are told the literals of a branch anew; and the places of the
/// instances that were used so far.
#[derive(Drop)]
pub struct Bench {
    pub problem: Problem,
    pub classes: Classes,
    pub trail: Trail,
    pub used: IndexSet<usize>,
}

impl Bench {
    /// A bench for a problem, on which nothing is told. The classes are over the table of the problem's names.
    pub fn new(problem: Problem, classes: Classes) -> Bench {
        let alloc = problem.table.alloc();
        Bench {
            problem,
            classes,
            trail: Trail::new(alloc),
            used: IndexSet::new(alloc),
        }
    }

    /// Forgets all literals.
    pub(crate) fn clear(&mut self) {
        self.classes.undo(0);
        self.trail.clear();
    }

    /// Notes that the instance at a place is used, and answers its node.
    pub(crate) fn take(&mut self, place: usize) -> Result<usize, NoMemory> {
        self.used.insert(place)?;
        match self.problem.instances.get(place) {
            Some(instance) => Ok(*instance),
            None => Err(NoMemory),
        }
    }
}
