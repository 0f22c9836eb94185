/// The values of a field at the objects from 0 on, at each kind: sets as lists that say of the objects from 0 on which are in
/// them. Behind the end of a list stands null, 0, false or the empty set.
#[derive(Drop)]
pub struct FieldValues {
    pub objects: Vec<u32>,
    pub numbers: Vec<i64>,
    pub truths: Vec<bool>,
    pub sets: Vec<Vec<bool>>,
}
