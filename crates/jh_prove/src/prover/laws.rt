ghost use Rattle.jh_prove.specs.prover.Laws.{OneVerdictIsRight, ProvableIsProved, ProvedIsValid};

use crate::trivial::trivial_is_valid;
use jh_approx::definition::true_query_is_valid;
use jh_local::jh_fca::local_form::{local_has_shape, local_is_valid};
use jh_local::local_proof_is_valid;

/// Where all answers are right and are proofs, all sequents are valid. It is a law, and does nothing.
pub fn proved_is_valid()
    ensures { ProvedIsValid }
{
    trivial_is_valid();
    true_query_is_valid();
    local_proof_is_valid();
    local_has_shape();
    local_is_valid();
}

/// Where all sequents are trivial, or have a query that is within the limits and true, or instances without a ground model, all
/// answers that are right are proofs, but where the search spent its budget. It is a law, and does nothing.
pub fn provable_is_proved()
    ensures { ProvableIsProved }
{}

/// Right answers for one sequent have one verdict, but where the search spent its budget. It is a law, and does nothing.
pub fn one_verdict_is_right()
    ensures { OneVerdictIsRight }
{}
