//! How far the search for a proof of a sequent goes.

/// How far the search for a proof of a sequent goes.
#[derive(Clone, Copy)]
pub struct Options {
    /// How often the universal facts are put at the objects that are at hand, at least 1.
    pub rounds: u32,
    /// How many branches may be closed before the search ends without an answer, at least 1.
    pub leaves: u32,
}

fn can_be_shared<T: Send + Sync>(_value: &T) {}

/// Options can be moved to threads and shared by them. It does nothing.
pub fn options_can_be_shared(options: &Options) {
    can_be_shared(options);
}
