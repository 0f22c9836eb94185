#![tactic(auto, using(crate::proofs::interpretations::Insides::inside_steps))]

ghost use Rattle.std.specs.Prelude.{◌≡◌, ℕ, pos, true, false, [], nat_le};
ghost use Rattle.std.specs.List.{list_all};
ghost use Rattle.jh_form.specs.Meaning.{InUniverse};
ghost use Rattle.jh_boxed_calls.specs.interpretations.Interps.{first_of, objects_of, numbers_of, truths_of, sets_of, is_listed, are_inside, field_inside, is_inside, interp_of};
ghost use Rattle.jh_sem.specs.Wide.{AreInside};

use jh_name::{Name, Row};

/// The values of a field at the objects from 0 on, at one kind.
#[derive(Drop)]
pub enum FieldValue {
    Obj(Row<u32>),
    Int(Row<i128>),
    Bool(Row<bool>),
    /// The members of each set.
    Set(Row<Row<u32>>),
}

/// An interpretation as lists.
#[derive(Drop)]
pub struct Interp {
    /// The greatest object.
    pub greatest: u32,
    pub objects: Row<(Name, u32)>,
    pub ints: Row<(Name, i128)>,
    pub truths: Row<(Name, bool)>,
    /// The members of each set.
    pub sets: Row<(Name, Row<u32>)>,
    pub fields: Row<(Name, FieldValue)>,
}

/// What the first entry for a name says, or a default.
pub(crate) fn first_of<T: Copy>(entries: &[(Name, T)], name: &Name, default: T) -> T
    ensures { result ≡ first_of default entries.now name.now }
{
    for entry in entries {
        if entry.0.same(name) {
            return entry.1;
        }
    }
    default
}

/// The members of the set of a name.
pub(crate) fn first_members<'a>(entries: &'a [(Name, Row<u32>)], name: &Name) -> &'a [u32]
    ensures { result.now ≡ first_of [] entries.now name.now }
{
    for entry in entries {
        if entry.0.same(name) {
            return entry.1.items();
        }
    }
    &[]
}

/// The objects of the field of a name, from that at null on.
pub(crate) fn first_objects<'a>(entries: &'a [(Name, FieldValue)], name: &Name) -> &'a [u32]
    ensures { result.now ≡ first_of [] (objects_of entries.now) name.now }
{
    for entry in entries {
        if let FieldValue::Obj(values) = &entry.1 {
            if entry.0.same(name) {
                return values.items();
            }
        }
    }
    &[]
}

/// The numbers of the field of a name, from that at null on.
pub(crate) fn first_numbers<'a>(entries: &'a [(Name, FieldValue)], name: &Name) -> &'a [i128]
    ensures { result.now ≡ first_of [] (numbers_of entries.now) name.now }
{
    for entry in entries {
        if let FieldValue::Int(values) = &entry.1 {
            if entry.0.same(name) {
                return values.items();
            }
        }
    }
    &[]
}

/// The truths of the field of a name, from that at null on.
pub(crate) fn first_truths<'a>(entries: &'a [(Name, FieldValue)], name: &Name) -> &'a [bool]
    ensures { result.now ≡ first_of [] (truths_of entries.now) name.now }
{
    for entry in entries {
        if let FieldValue::Bool(values) = &entry.1 {
            if entry.0.same(name) {
                return values.items();
            }
        }
    }
    &[]
}

/// The sets of the field of a name, from that at null on.
pub(crate) fn first_sets<'a>(entries: &'a [(Name, FieldValue)], name: &Name) -> &'a [Row<u32>]
    ensures { result.now ≡ first_of [] (sets_of entries.now) name.now }
{
    for entry in entries {
        if let FieldValue::Set(values) = &entry.1 {
            if entry.0.same(name) {
                return values.items();
            }
        }
    }
    &[]
}

/// Whether an object is among the members of a set.
pub(crate) fn is_listed(members: &[u32], object: u32) -> bool
    ensures { result ≡ is_listed members.now object }
{
    members.contains(&object)
}

/// Whether each object of a list is one of 0 to `last`.
fn are_inside(objects: &[u32], last: u32) -> bool
    ensures { result ≡ are_inside last objects.now }
{
    objects.iter().all(|object| *object <= last)
}

/// Whether the object of each name is one of 0 to `last`.
fn objects_inside(entries: &[(Name, u32)], last: u32) -> bool
    ensures { result ≡ list_all (λ (e : Name × ℕ). nat_le e.1 last) entries.now }
{
    entries.iter().all(|entry| entry.1 <= last)
}

/// Whether each object that a field has is one of 0 to `last`.
fn field_inside(field: &FieldValue, last: u32) -> bool
    ensures { result ≡ field_inside last field.now }
{
    match field {
        FieldValue::Obj(values) => are_inside(values.items(), last),
        FieldValue::Int(_) => true,
        FieldValue::Bool(_) => true,
        FieldValue::Set(_) => true,
    }
}

/// Whether each object of each field is one of 0 to `last`.
fn fields_inside(entries: &[(Name, FieldValue)], last: u32) -> bool
    ensures { result ≡ list_all (λ (e : Name × FieldValue). field_inside last e.1) entries.now }
{
    entries.iter().all(|entry| field_inside(&entry.1, last))
}

/// Whether all objects of names and of fields are of the universe.
fn all_inside(interp: &Interp) -> bool
    ensures { result ≡ is_inside interp.now }
{
    objects_inside(interp.objects.items(), interp.greatest)
        && fields_inside(interp.fields.items(), interp.greatest)
}

impl Interp {
    /// Whether all objects of names and of fields are of the universe of 0 to the greatest.
    pub fn is_inside(&self) -> bool
        ensures exact { result ≡ is_inside self.now }
        ensures universe { result ≡ true → InUniverse (interp_of self.now) }
    {
        all_inside(self)
    }

    /// Whether objects are of the universe of 0 to the greatest.
    pub fn has_all(&self, objects: &[u32]) -> bool
        ensures exact { result ≡ are_inside self.now.greatest objects.now }
        ensures inside { result ≡ true → AreInside self.now.greatest objects.now }
    {
        are_inside(objects, self.greatest)
    }
}
