ghost use Rattle.std.specs.Prelude.{◌≡◌, slice_index, reverse};
ghost use Rattle.jh_sem.specs.Bounds.{bound_list};

/// The objects for bound variables: some that were given, the last of which is the innermost binder's, and then one for each binder that
/// was passed. It stands on the stack.
#[derive(Clone, Copy)]
pub(crate) enum Bound<'a> {
    Given(&'a [u32]),
    /// The object of the innermost binder, and those of the others.
    Under(u32, &'a Bound<'a>),
}

/// The object of the last but `number`, or null where there are not so many.
fn given_at(objects: &[u32], number: u32) -> u32
    ensures { result ≡ slice_index (reverse objects.now) number }
{
    let number = number as usize;
    if number < objects.len() {
        objects[objects.len() - 1 - number]
    } else {
        0
    }
}

/// The object for a bound variable, or null where it has none.
pub(crate) fn object_for(bound: &Bound<'_>, number: u32) -> u32
    ensures { result ≡ slice_index (bound_list bound.now) number }
{
    match bound {
        Bound::Given(objects) => given_at(objects, number),
        Bound::Under(object, rest) => if number == 0 {
            *object
        } else {
            object_for(rest, number - 1)
        },
    }
}
