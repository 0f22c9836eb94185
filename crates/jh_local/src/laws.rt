ghost use Rattle.jh_local.specs.Laws.{LocalProofIsValid};

use jh_inst::instances::{clashing_instances_give_valid, made_is_local};
use jh_inst::plain_formulas::{instances_are_literals, normal_is_plain};
use jh_models::interpretations::no_model_gives_clash;

/// A sequent of local shape is valid where its instances have no ground model. It is a law, and does nothing.
pub fn local_proof_is_valid()
    ensures { LocalProofIsValid }
{
    made_is_local();
    normal_is_plain();
    instances_are_literals();
    no_model_gives_clash();
    clashing_instances_give_valid();
}
