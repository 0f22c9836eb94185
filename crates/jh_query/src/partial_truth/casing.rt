ghost use Rattle.std.specs.Prelude.{◌≡◌};
ghost use Rattle.jh_query.specs.partial_truth.Judged.{case_truth};

use crate::queries::Cond;

/// The case of an atom.
#[derive(Clone, Copy)]
pub enum Case {
    /// Not chosen yet.
    Open,
    True,
    /// False; of an equality of numbers, the left one is less.
    False,
    /// An equality of numbers is false, since the left one is greater.
    Greater,
    /// A divided number leaves this remainder.
    Remainder(u64),
}

/// An atom that isn't on elements alone, with its case.
#[derive(Clone, Copy)]
pub struct Atom<'a> {
    pub cond: &'a Cond,
    pub case: Case,
}

/// The truth of an atom in its case, where it is chosen.
pub fn case_truth(case: Case) -> Option<bool>
    ensures { result ≡ case_truth case }
{
    match case {
        Case::Open => None,
        Case::True => Some(true),
        Case::False | Case::Greater => Some(false),
        Case::Remainder(remainder) => Some(remainder == 0),
    }
}
