use jh_name::options::Options;

/// The report on a file.
#[derive(Clone, Copy)]
pub struct Verify<'a> {
    /// The file of the source.
    pub file: &'a str,
    /// How far the search for a proof of a sequent goes.
    pub options: Options,
    /// How many sequents are proved at a time, from 1 to 16.
    pub workers: usize,
}

/// A run of a method.
#[derive(Clone, Copy)]
pub struct Run<'a> {
    /// The file of the source.
    pub file: &'a str,
    /// The class of the method.
    pub class: &'a str,
    /// The own name of the method.
    pub method: &'a str,
    /// The file of the heap.
    pub heap: &'a str,
    /// The most steps that it may take, at most 1,000,000.
    pub steps: u64,
}

/// The summary of what is proved of a source that is made from a number.
#[derive(Clone, Copy)]
pub struct Gen {
    /// The number that it is made from.
    pub seed: u64,
    /// How many methods it has, from 1 to 200.
    pub methods: u32,
}

/// What the words of a command line ask for: the report on a file, a run, or the summary of a source that is made. The texts are those of the words.
#[derive(Clone, Copy)]
pub enum Job<'a> {
    Verify(Verify<'a>),
    Run(Run<'a>),
    Gen(Gen),
}
