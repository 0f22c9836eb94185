ghost use Rattle.std.specs.Prelude.{◌≡◌, IfOk};

use jh_form::Mark;
use jh_name::{Name, NoMemory, Row};
use std::alloc::Global;

/// A list of the same names.
pub fn copy_names(alloc: Global, names: &[Name]) -> Result<Vec<Name>, NoMemory>
    ensures { IfOk result (λ made. made.items ≡ names.now) }
{
    let mut made = Vec::new(alloc);
    for name in names {
        let copied = name.copy(alloc)?;
        made.push(copied)?;
    }
    Ok(made)
}

fn copy_optional_name(alloc: Global, name: &Option<Name>) -> Result<Option<Name>, NoMemory>
    ensures { IfOk result (λ made. made ≡ name.now) }
{
    match name {
        Some(name) => {
            let copied = name.copy(alloc)?;
            Ok(Some(copied))
        }
        None => Ok(None),
    }
}

/// The same mark.
pub fn copy_mark(alloc: Global, mark: &Mark) -> Result<Mark, NoMemory>
    ensures { IfOk result (λ made. made ≡ mark.now) }
{
    let name = copy_optional_name(alloc, &mark.name)?;
    let from = copy_names(alloc, mark.from.items())?;
    Ok(Mark {
        kind: mark.kind,
        place: mark.place,
        name,
        from: Row::of(from),
    })
}
