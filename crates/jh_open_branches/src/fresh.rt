ghost use Rattle.std.specs.Prelude.{not};
ghost use Rattle.jh_form.specs.Passing.{name_equal};

use jh_boxed::NameTest;
use jh_boxed_operations::substitution::names_are_one;
use jh_name::{Name, Sort};

/// The test of a name that says that it is another.
#[derive(Drop)]
pub struct Other<'a> {
    pub name: &'a Name,
}

impl NameTest for Other<'_> {
    ghost test = { λ other y u. not (name_equal y other.name.now) };

    fn passes(&self, name: &Name, _sort: Sort) -> bool {
        !names_are_one(name, self.name)
    }
}
