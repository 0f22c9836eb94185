use jh_name::{Name, Place};

/// A word of the source: its text, as a name of turn 0, and the place where it begins. A qualified
/// word keeps its dot in its text.
#[derive(PartialEq, Eq, Drop)]
pub struct Word {
    pub text: Name,
    pub place: Place,
}

/// A type as it is written.
#[derive(PartialEq, Eq, Drop)]
pub enum JType {
    /// `int`
    Int,
    /// `boolean`
    Boolean,
    /// `void`, which stands as a method's result alone
    Void,
    /// The name of a class, or `Object`.
    Class(Word),
}

/// A parameter, or a local where it is declared.
#[derive(PartialEq, Eq, Drop)]
pub struct Param {
    pub name: Word,
    pub jtype: JType,
}
