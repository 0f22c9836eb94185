//! Formulas of a specification while what stands around them is read. They are wide, so they are handed on in boxes, and
//! stand in their places only where nothing fails any more.
ghost use Rattle.std.specs.Prelude.{◌≡◌, option_map};
ghost use Rattle.jh_spec.specs.parser.PartReads.{numbered_part, said_part};
ghost use Rattle.jh_ast.specs.Bare.{labelled_part, spec_part};

use jh_ast::{Labelled, Spec, SpecTree, Word};
use jh_name::{Place, Row};

/// A formula of the file, with its place and its number.
#[derive(Drop)]
pub(crate) struct Numbered {
    pub place: Place,
    pub number: u32,
    pub form: Box<SpecTree>,
}

impl Numbered {
    pub(crate) fn spec(self) -> Spec
        ensures { spec_part result ≡ numbered_part self }
    {
        Spec {
            place: self.place,
            number: self.number,
            body: Box::into_inner(self.form),
        }
    }
}

/// The formula of a clause, where there is one.
pub(crate) fn spec_of(found: Option<Numbered>) -> Option<Spec>
    ensures { option_map spec_part result ≡ option_map numbered_part found }
{
    match found {
        Some(form) => Some(form.spec()),
        None => None,
    }
}

/// A formula with its label and the names of its facts.
#[derive(Drop)]
pub(crate) struct Said {
    pub name: Option<Word>,
    pub form: Numbered,
    pub from: Row<Word>,
}

impl Said {
    pub(crate) fn labelled(self) -> Labelled
        ensures { labelled_part result ≡ said_part self }
    {
        Labelled {
            name: self.name,
            body: self.form.spec(),
            from: self.from,
        }
    }
}
