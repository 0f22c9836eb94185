ghost use Rattle.jh_inst.specs.instances.Laws.{MadeFollows, ClashingInstancesGiveValid, MadeAtMostCounted, MadeIsLocal};

/// Where the facts of a sequent are true, all that is made of them is, with suitable objects for the constants. It is a law,
/// and does nothing.
pub fn made_follows()
    ensures { MadeFollows }
{}

/// A sequent is valid where its instances are never true together. It is a law, and does nothing.
pub fn clashing_instances_give_valid()
    ensures { ClashingInstancesGiveValid }
{}

/// Beside the facts no more is made of a sequent of local shape than is counted. It is a law, and does nothing.
pub fn made_at_most_counted()
    ensures { MadeAtMostCounted }
{}

/// What is made of a sequent of local shape has local shape. It is a law, and does nothing.
pub fn made_is_local()
    ensures { MadeIsLocal }
{}
