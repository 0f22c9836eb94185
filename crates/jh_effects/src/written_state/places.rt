ghost use Rattle.std.specs.Prelude.{◌≡◌};
ghost use Rattle.jh_effects.specs.written_state.Methods.{callee, places_in};

use crate::written_state::choosing::row_of;
use jh_name::Row;
use jh_symbols::member_numbers::Numbers;

/// For each method of a program places in the list of the state names, in order.
#[derive(Drop)]
pub struct MethodPlaces {
    pub numbers: Numbers,
    pub rows: Vec<Row<usize>>,
}

impl MethodPlaces {
    /// The places of a method, by its class and its name.
    pub fn places(&self, class: usize, name: &str) -> &[usize]
        ensures { result.now ≡ places_in self.now (callee class name.now) }
    {
        match self.numbers.number(class, name) {
            None => &[],
            Some(number) => row_of(self.rows.as_slice(), number),
        }
    }
}
