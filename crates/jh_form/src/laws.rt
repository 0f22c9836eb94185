ghost use Rattle.jh_form.specs.Agreement.{NamesDecideMeaning, ClosedMeansTheSame};
ghost use Rattle.jh_form.specs.Laws.{DividesSays, TermsStayInside};

use crate::{Mark, Value};

/// The meaning of a tree hangs on the values of its free names alone. It is a law, and does nothing.
pub fn names_decide_meaning()
    ensures { NamesDecideMeaning }
{}

/// The meaning of a tree without loose bound variables hangs on no objects for them. It is a law, and
/// does nothing.
pub fn closed_means_the_same()
    ensures { ClosedMeansTheSame }
{}

/// A number divides another exactly where some whole number times it is the other. It is a law, and
/// does nothing.
pub fn divides_says()
    ensures { DividesSays }
{}

/// Terms are objects of the universe, where bound variables and the values of names are. It is a law,
/// and does nothing.
pub fn terms_stay_inside()
    ensures { TermsStayInside }
{}

fn can_be_shared<T: Send + Sync>(_value: &T) {}

/// Terms, formulas and labels can be moved to threads and shared by them. It does nothing.
pub fn terms_can_be_shared(value: &Value, mark: &Mark) {
    can_be_shared(value);
    can_be_shared(mark);
}
