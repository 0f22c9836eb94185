ghost use Rattle.std.specs.Prelude.{◌<◌};
ghost use Rattle.jh_form.specs.Tree.{ValueTree};
ghost use Rattle.jh_boxed.specs.Parts.{IsPart};
ghost use Rattle.jh_boxed.specs.Sizes.{value_size};
ghost use Rattle.jh_boxed.specs.Kept.{MapKeepsMeaning};

/// A part of a tree has fewer nodes than the whole. It is a law, and does nothing.
pub fn part_is_smaller()
    ensures { (a b : ValueTree) → IsPart a b → value_size a < value_size b }
{}

/// Where each leaf is exchanged for what has its meaning, the mapped tree has the meaning of the tree.
/// It is a law, and does nothing.
pub fn map_keeps_meaning()
    ensures { MapKeepsMeaning }
{}
