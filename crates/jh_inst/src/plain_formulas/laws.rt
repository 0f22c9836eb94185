ghost use Rattle.jh_inst.specs.plain_formulas.Laws.{NormalIsPlain, EntriesArePlain, InstancesAreLiterals};

/// The negation normal form of a formula without labels is plain. It is a law, and does nothing.
pub fn normal_is_plain()
    ensures { NormalIsPlain }
{}

/// What is made of plain facts is plain. It is a law, and does nothing.
pub fn entries_are_plain()
    ensures { EntriesArePlain }
{}

/// Instances of plain facts are And and Or over literals. It is a law, and does nothing.
pub fn instances_are_literals()
    ensures { InstancesAreLiterals }
{}
