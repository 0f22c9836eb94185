use jh_name::Sort;

/// A name at turn 0, by its text, with the sort at which it stands.
#[derive(Clone, Copy)]
pub struct SortedName<'a> {
    pub text: &'a str,
    pub sort: Sort,
}
