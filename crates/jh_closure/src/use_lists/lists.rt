ghost use Rattle.std.specs.Prelude.{◌≡◌, ◌≢◌, ◌<◌, ◌++◌, ◌-◌, [], ◌∷◌, ℕ, IfOk, OnErr, OnOk, length, take, if◌then◌else◌, ◌==◌};
ghost use Rattle.jh_closure.specs.use_lists.Lists.{row};

use jh_name::NoMemory;
use std::alloc::Global;

/// Empty lists for so many nodes.
pub fn no_uses(alloc: Global, count: usize) -> Result<Vec<Vec<usize>>, NoMemory>
    ensures empty { IfOk result (λ made. (r : ℕ) → row made.items r ≡ []) }
    ensures count { IfOk result (λ made. length made.items ≡ count) }
{
    let mut uses = Vec::new(alloc);
    for _node in 0..count {
        uses.push(Vec::new(alloc))?;
    }
    Ok(uses)
}

/// The nodes with a part in a class.
pub fn uses_of(uses: &Vec<Vec<usize>>, class: usize) -> &[usize]
    requires { class < length uses.now.items }
    ensures { result.now ≡ row uses.now.items class }
{
    uses[class].as_slice()
}

/// Adds a number to a list.
fn add(list: &mut Vec<usize>, item: usize) -> Result<(), NoMemory>
    ensures ok { OnOk result (list.new.items ≡ list.old.items ++ item ∷ []) }
    ensures err { OnErr result (list.new.items ≡ list.old.items) }
{
    list.push(item)?;
    Ok(())
}

/// Adds a list to another one.
fn add_all(list: &mut Vec<usize>, items: &[usize]) -> Result<(), NoMemory>
    ensures ok { OnOk result (list.new.items ≡ list.old.items ++ items.now) }
    ensures err { OnErr result (list.new.items ≡ list.old.items) }
{
    list.extend_from_slice(items)?;
    Ok(())
}

/// Leaves so many items out at the end of a list.
fn shorten(list: &mut Vec<usize>, by: usize)
    ensures { list.new.items ≡ take (length list.old.items - by) list.old.items }
{
    let count = list.as_slice().len();
    list.truncate(count.saturating_sub(by));
}

/// Adds a node with a part in a class.
pub fn add_use(uses: &mut Vec<Vec<usize>>, class: usize, node: usize) -> Result<(), NoMemory>
    requires { class < length uses.old.items }
    ensures added { OnOk result ((r : ℕ) → row uses.new.items r ≡ (if r == class then row uses.old.items class ++ node ∷ [] else row uses.old.items r)) }
    ensures count { length uses.new.items ≡ length uses.old.items }
{
    add(&mut uses[class], node)
}

/// Adds the list of the class that goes to that of the class that stays. Where memory is wanting nothing changes.
pub fn pass_uses(
    alloc: Global,
    uses: &mut Vec<Vec<usize>>,
    small: usize,
    large: usize,
) -> Result<(), NoMemory>
    requires small { small < length uses.old.items }
    requires large { large < length uses.old.items }
    ensures passed { OnOk result ((r : ℕ) → row uses.new.items r ≡ (if r == large then row uses.old.items large ++ row uses.old.items small else row uses.old.items r)) }
    ensures count { length uses.new.items ≡ length uses.old.items }
    ensures err { OnErr result ((r : ℕ) → row uses.new.items r ≡ row uses.old.items r) }
{
    let moved = Vec::from_slice(alloc, uses_of(uses, small))?;
    add_all(&mut uses[large], moved.as_slice())
}

/// Takes the list of the class that went off that of the class that stayed.
pub fn take_uses(uses: &mut Vec<Vec<usize>>, small: usize, large: usize)
    requires small { small < length uses.old.items }
    requires large { large < length uses.old.items }
    ensures taken { (r : ℕ) → row uses.new.items r ≡ (if r == large then take (length (row uses.old.items large) - length (row uses.old.items small)) (row uses.old.items large) else row uses.old.items r) }
    ensures count { length uses.new.items ≡ length uses.old.items }
{
    let by = uses_of(uses, small).len();
    shorten(&mut uses[large], by);
}
