ghost use Rattle.jh_models.specs.interpretations.Laws.{TruthGivesModel, NoModelGivesClash};

/// Instances that are true together in an interpretation have a ground model. It is a law, and does nothing.
pub fn truth_gives_model()
    ensures { TruthGivesModel }
{}

/// Where instances have no ground model, they are never true together. It is a law, and does nothing.
pub fn no_model_gives_clash()
    ensures { NoModelGivesClash }
{}
