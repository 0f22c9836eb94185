/// A slot of a schema, in which a name stands.
#[derive(Clone, Copy)]
pub enum Slot {
    First,
    Second,
    Third,
}

/// A name by its text and its turn.
#[derive(Clone, Copy)]
pub struct Named<'a> {
    pub text: &'a str,
    pub turn: u32,
}

/// The names in the slots. A schema that has fewer takes any name for the others.
#[derive(Clone, Copy)]
pub struct Slots<'a> {
    pub first: Named<'a>,
    pub second: Named<'a>,
    pub third: Named<'a>,
}

/// A term for an object: the variable of the binder, null, a name, or the field of a name at the variable.
#[derive(Clone, Copy)]
pub enum ObjectSchema {
    Variable,
    Null,
    Name(Slot),
    Read(Slot),
}

/// A term for a number: 0, a name, or the field of a name at the variable.
#[derive(Clone, Copy)]
pub enum NumberSchema {
    Zero,
    Name(Slot),
    Read(Slot),
}

/// A term for a set: the empty one, that of a name, the field of a name at the variable, or what two names have in
/// common.
#[derive(Clone, Copy)]
pub enum SetSchema {
    Empty,
    Name(Slot),
    Read(Slot),
    Both(Slot, Slot),
}

/// A formula over names in slots. `All` binds the variable; one stands in no other.
#[derive(Clone, Copy)]
pub enum Schema<'a> {
    Name(Slot),
    Read(Slot),
    Not(&'a Schema<'a>),
    And(&'a Schema<'a>, &'a Schema<'a>),
    Or(&'a Schema<'a>, &'a Schema<'a>),
    Implies(&'a Schema<'a>, &'a Schema<'a>),
    Iff(&'a Schema<'a>, &'a Schema<'a>),
    All(&'a Schema<'a>),
    SameObject(ObjectSchema, ObjectSchema),
    SameNumber(NumberSchema, NumberSchema),
    SameSet(SetSchema, SetSchema),
    Member(ObjectSchema, SetSchema),
    Subset(SetSchema, SetSchema),
}
