ghost use Rattle.std.specs.Prelude.{◌≡◌, None, Some, IfSome};
ghost use Rattle.jh_containers.specs.transitive_closure.Spreads.{passed_to};
ghost use Rattle.jh_method_commands.specs.environment.Outlines.{number_of, method_of, callee_of, IsCallable};

use crate::environment::outline::{Callable, Outline};
use jh_name::Row;

/// The row of a number, or none.
fn row_of(rows: &[Row<usize>], number: usize) -> &[usize]
    ensures { result.now ≡ passed_to rows.now number }
{
    match rows.get(number) {
        None => &[],
        Some(row) => row.items(),
    }
}

impl<'a> Outline<'a> {
    /// The method of a number, where there is one.
    fn at_number(&self, class: usize, name: &'a str, number: usize) -> Option<Callable<'a>>
        requires { number_of self.now (record { class = class; name = name.now }) ≡ Some number }
        ensures none { result ≡ None → method_of self.now (record { class = class; name = name.now }) ≡ None }
        ensures some { IfSome result (λ x. (callee_of x ≡ record { class = class; name = name.now }) × IsCallable self.now x) }
    {
        match self.methods.get(number) {
            None => None,
            Some(code) => Some(Callable {
                class,
                name,
                code,
                written: row_of(self.written, number),
                framed: row_of(self.framed, number),
            }),
        }
    }

    /// The method of a class and a name, where there is one.
    pub fn callable(&self, class: usize, name: &'a str) -> Option<Callable<'a>>
        ensures none { result ≡ None → method_of self.now (record { class = class; name = name.now }) ≡ None }
        ensures some { IfSome result (λ x. (callee_of x ≡ record { class = class; name = name.now }) × IsCallable self.now x) }
    {
        match self.numbers.number(class, name) {
            None => None,
            Some(number) => self.at_number(class, name, number),
        }
    }
}
