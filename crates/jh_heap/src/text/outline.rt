ghost use Rattle.std.specs.Prelude.{◌≡◌, map};
ghost use Rattle.jh_heap.specs.text.Drafts as drafts;
ghost use Rattle.jh_heap.specs.text.Held.{texts_in, holders_in};

use jh_name::Kind;
use jh_rules::Ty;

/// What can have a value: a static, a field or a parameter, with its kind and, where it has one, its type. Statics and fields have
/// the text that formulas have, with their class and a dot, and the text of their class.
#[derive(Clone, Copy)]
pub struct Holder<'a> {
    pub text: &'a str,
    pub kind: Kind,
    pub ty: Option<Ty>,
    pub class: &'a str,
}

/// What a heap text is read by: the texts of all classes in the order of the source, with `Object` for the objects of none as the
/// last; the statics and the fields, ghost variables among them; the class of `this` by its number; and the parameters.
#[derive(Drop)]
pub struct Outline<'a> {
    pub classes: Vec<&'a str>,
    pub statics: Vec<Holder<'a>>,
    pub fields: Vec<Holder<'a>>,
    pub this: Option<usize>,
    pub params: Vec<Holder<'a>>,
}

/// The place of a class; how many there are, where there is none of the text.
pub(crate) fn class_place(classes: &[&str], text: &[u8]) -> usize
    ensures { result ≡ drafts.place_of (texts_in classes.now) text.now }
{
    for place in 0..classes.len() {
        if classes[place].as_bytes() == text {
            return place;
        }
    }
    classes.len()
}

/// The place of what can have a value; how many there are, where there is none of the text.
pub(crate) fn holder_place(holders: &[Holder<'_>], text: &[u8]) -> usize
    ensures { result ≡ drafts.place_of (drafts.texts_of (holders_in holders.now)) text.now }
{
    for place in 0..holders.len() {
        if holders[place].text.as_bytes() == text {
            return place;
        }
    }
    holders.len()
}
