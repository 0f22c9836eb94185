use jh_name::Row;

/// A value: an object by its number, a whole number, a truth, or a set of objects, ascending.
#[derive(Drop)]
pub enum Cell {
    Obj(u32),
    Int(i64),
    Bool(bool),
    Set(Row<u32>),
}

/// A heap of the objects 0, which is null, to `greatest`: the objects of each class in the order of the source, ascending, with
/// those of no class last; the values of the statics, and those of each field at each object, both in the order of the source.
#[derive(Drop)]
pub struct Heap {
    pub greatest: u32,
    pub classes: Row<Row<u32>>,
    pub statics: Row<Cell>,
    pub fields: Row<Row<Cell>>,
}

/// `this`, where the method has it, and a value for each parameter.
#[derive(Drop)]
pub struct Args {
    pub this: Option<u32>,
    pub values: Row<Cell>,
}
