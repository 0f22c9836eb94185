/// A hypothesis whose fact is a node of a table. It is known under the name of its label, by the label's number.
#[derive(Clone, Copy)]
pub struct NodeHyp {
    pub mark: Option<usize>,
    pub fact: usize,
}

/// A sequent whose goal is a node of a table. Its label is known by number, and its hypotheses are the list of a
/// number.
#[derive(Clone, Copy)]
pub struct NodeSequent {
    pub mark: Option<usize>,
    pub hyps: Option<usize>,
    pub goal: usize,
}
