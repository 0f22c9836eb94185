use crate::sequent::NodeHyp;
use jh_containers::shared_lists::Chains;
use std::alloc::Global;

/// The lists of hypotheses, and the lists of the turns of the constants for the binders that were passed.
#[derive(Drop)]
pub(crate) struct Lists {
    pub(crate) hyps: Chains<NodeHyp>,
    pub(crate) binders: Chains<u32>,
}

impl Lists {
    /// No lists but the empty ones.
    pub(crate) fn new(alloc: Global) -> Lists {
        Lists {
            hyps: Chains::new(alloc),
            binders: Chains::new(alloc),
        }
    }
}
