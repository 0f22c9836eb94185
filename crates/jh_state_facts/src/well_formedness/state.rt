use jh_name::{Kind, Text};
use jh_rules::Ty;

/// A static, field or ghost variable: the text of its name, the number of its class, the kind of its values, whether it
/// is a static, and its type, which a ghost variable has not.
#[derive(Drop)]
pub struct Member {
    pub text: Text,
    pub class: usize,
    pub kind: Kind,
    pub is_static: bool,
    pub ty: Option<Ty>,
}

/// A parameter or a local that is in scope, with its type.
#[derive(Clone, Copy)]
pub struct Known<'a> {
    pub text: &'a str,
    pub ty: Ty,
}
