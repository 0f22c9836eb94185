/// How many puts there are so far, and how many terms.
#[derive(Clone, Copy)]
pub(crate) struct Tally {
    pub(crate) puts: u128,
    pub(crate) terms: u128,
}
