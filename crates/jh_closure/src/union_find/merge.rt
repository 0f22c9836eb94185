/// Why two numbers are one: by the equation of that number, or since they have one operation and their parts are one.
#[derive(Clone, Copy)]
pub enum Why {
    Given(usize),
    Alike,
}

/// Two numbers that are one, and why.
#[derive(Clone, Copy)]
pub struct Cause {
    pub left: usize,
    pub right: usize,
    pub why: Why,
}

/// A merge of the classes of two numbers that are one: the class of `small`, of which `left` is, went into that of
/// `large`, of which `right` is.
#[derive(Clone, Copy)]
pub struct Merge {
    pub left: usize,
    pub right: usize,
    pub small: usize,
    pub large: usize,
    pub why: Why,
}

/// Where two numbers came together: the place of the merge, and which of the two was of the class that went.
#[derive(Clone, Copy)]
pub struct Joint {
    pub time: usize,
    pub goes: usize,
    pub stays: usize,
}
