ghost use Rattle.jh_substitution.specs.rewriting.Fixing.{MapChangesNothing};

/// Mapping with leaves that change nothing gives the same tree, at any depth. It is a law, and does nothing.
pub fn map_changes_nothing()
    ensures { MapChangesNothing }
{}
