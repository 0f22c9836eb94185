ghost use Rattle.std.specs.Prelude.{◌≡◌, ◌↔◌, ◌<◌, ◌++◌, [], ◌∷◌, ℕ, Bool, OnErr, OnOk, Some, length, slice_get, take};
ghost use Rattle.jh_closure.specs.congruence_closure.Nodes.{Has};
ghost use Rattle.jh_propagation.specs.trail.Listing.{AreNoted, DecideOnce, IsUndecided, StandsAt, decided};
ghost use Rattle.jh_propagation.specs.declared.trail.decided.Decided.{Decided};

use crate::trail::Decided;
use jh_name::NoMemory;
use std::alloc::Global;
use std::marker::Model;

/// The decided literals, in their order. No atom is decided twice. Contracts see a trail as their list. What it says of an atom
/// is found at once: beside the list an array has the place of its literal by the number of the atom. A number of that array
/// counts only where the literal at that place is on the atom, so the array is left as it is when the trail is cleared.
#[derive(Drop)]
pub struct Trail {
    literals: Vec<Decided>,
    places: Vec<usize>,
}

impl Model for Trail {
    ghost use Rattle.std.specs.Prelude.{List};
    ghost use Rattle.jh_propagation.specs.trail.Listing.{AreNoted};
    ghost use Rattle.jh_propagation.specs.declared.trail.decided.Decided.{Decided};

    ghost Value = { List Decided };

    ghost view = { λ t. t.literals.items };

    ghost invariant = { λ t. AreNoted t.literals.items t.places.items };
}

/// Makes an array long enough for a number. What stands in it stays there, after any answer.
fn reach(places: &mut Vec<usize>, number: usize) -> Result<(), NoMemory>
    ensures kept { (k p : ℕ) → slice_get places.old.items k ≡ Some p → slice_get places.new.items k ≡ Some p }
    ensures long { OnOk result (number < length places.new.items) }
{
    while places.as_slice().len() <= number {
        places.push(0)?;
    }
    Ok(())
}

/// The number at a place of an array.
fn number_at(numbers: &[usize], place: usize) -> Option<usize>
    ensures { result ≡ slice_get numbers.now place }
{
    numbers.get(place).copied()
}

/// The literal at a place.
fn literal_at(literals: &[Decided], place: usize) -> Option<Decided>
    ensures { result ≡ slice_get literals.now place }
{
    literals.get(place).copied()
}

/// The place that an array has for an atom, where the literal at that place is on it.
fn place_in(literals: &[Decided], places: &[usize], atom: usize) -> Option<usize>
    requires { AreNoted literals.now places.now }
    ensures { (p : ℕ) → (result ≡ Some p) ↔ StandsAt literals.now atom p }
{
    match number_at(places, atom) {
        Some(place) => match literal_at(literals, place) {
            Some(literal) => if literal.atom == atom {
                Some(place)
            } else {
                None
            },
            None => None,
        },
        None => None,
    }
}

impl Trail {
    /// No literals. The trail takes its memory from this allocator.
    pub fn new(alloc: Global) -> Trail
        ensures { result ≡ [] }
    {
        Trail {
            literals: Vec::new(alloc),
            places: Vec::new(alloc),
        }
    }

    /// How many literals are decided.
    pub fn len(&self) -> usize
        ensures { result ≡ length self.now }
    {
        self.literals.as_slice().len()
    }

    /// The literal at a place.
    pub fn literal(&self, place: usize) -> Decided
        requires { place < length self.now }
        ensures { slice_get self.now place ≡ Some result }
    {
        self.literals[place]
    }

    /// The place of the literal on an atom, where there is one.
    pub fn place(&self, atom: usize) -> Option<usize>
        ensures { (p : ℕ) → (result ≡ Some p) ↔ StandsAt self.now atom p }
    {
        place_in(self.literals.as_slice(), self.places.as_slice(), atom)
    }

    /// Whether an atom is said to hold, where it is decided.
    pub fn said(&self, atom: usize) -> Option<bool>
        ensures { (b : Bool) → (result ≡ Some b) ↔ Has self.now (decided atom b) }
    {
        self.decides_once();
        match self.place(atom) {
            Some(place) => Some(self.literal(place).holds),
            None => None,
        }
    }

    /// Puts a literal on an atom that isn't decided to the end. After want of memory the list is as it was.
    pub fn push(&mut self, literal: Decided) -> Result<(), NoMemory>
        requires { IsUndecided self.old literal.atom }
        ensures ok { OnOk result (self.new ≡ self.old ++ literal ∷ []) }
        ensures err { OnErr result (self.new ≡ self.old) }
    {
        let place = self.literals.as_slice().len();
        reach(&mut self.places, literal.atom)?;
        self.literals.push(literal)?;
        self.places[literal.atom] = place;
        Ok(())
    }

    /// Takes all literals back. It takes no time.
    pub fn clear(&mut self)
        ensures { self.new ≡ [] }
    {
        self.literals.clear();
    }

    /// Takes all literals back but the first ones.
    pub fn truncate(&mut self, count: usize)
        ensures { self.new ≡ take count self.old }
    {
        self.literals.truncate(count);
    }

    /// No atom is decided twice. It is a law, and changes nothing.
    pub fn decides_once(&self)
        ensures { DecideOnce self.now }
    {
        let _places = &self.places;
    }
}
