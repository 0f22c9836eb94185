ghost use Rattle.jh_models.specs.ground_models.Laws.{PropagationIsSound, ClashIsSound, ModelsHoldPropagated, ExplainedIsClosed, PropagationGrows, SpentIsBelow, SpentIsOpen, FixpointIsOpen, WholeFixpointIsModel};

/// A structure that meets the literals of a list and makes the instances true meets what propagation adds. It is a law, and
/// does nothing.
pub fn propagation_is_sound()
    ensures { PropagationIsSound }
{}

/// Where literals clash, no structure meets them and makes the instances true. It is a law, and does nothing.
pub fn clash_is_sound()
    ensures { ClashIsSound }
{}

/// A ground model that holds the literals of a list holds what propagation adds. It is a law, and does nothing.
pub fn models_hold_propagated()
    ensures { ModelsHoldPropagated }
{}

/// No ground model holds the decisions of a branch that an explanation closes. It is a law, and does nothing.
pub fn explained_is_closed()
    ensures { ExplainedIsClosed }
{}

/// A budget that is spent is below 2 to the power of the number of ground atoms. It is a law, and does nothing.
pub fn spent_is_below()
    ensures { SpentIsBelow }
{}

/// A budget is spent only where propagation alone doesn't close the instances. It is a law, and does nothing.
pub fn spent_is_open()
    ensures { SpentIsOpen }
{}

/// Propagation of more literals adds more, and what it added adds nothing more. It is a law, and does nothing.
pub fn propagation_grows()
    ensures { PropagationGrows }
{}

/// Propagation of a list adds what its fixpoint has and nothing else, and the list is open. It is a law, and does nothing.
pub fn fixpoint_is_open()
    ensures { FixpointIsOpen }
{}

/// A fixpoint that decides each ground atom is a ground model. It is a law, and does nothing.
pub fn whole_fixpoint_is_model()
    ensures { WholeFixpointIsModel }
{}
