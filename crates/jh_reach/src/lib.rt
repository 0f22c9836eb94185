//! The axioms of reachability along lists of fields.
#![tactic(auto)]

pub use jh_import;

mod backbones;
mod choices;
mod fields;
mod groups;
mod laws;
mod lists;
mod nine;
mod parts;
mod reaching;
mod terms;
mod updates;

pub use backbones::{Base, backbone_axioms};
pub use laws::axioms_are_true;
pub use reaching::{Backbone, NameBase, axioms};
