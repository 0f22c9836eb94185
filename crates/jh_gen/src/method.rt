ghost use Rattle.std.specs.Prelude.{◌≡◌, ◌+◌, ◌%◌, ◌^◌, ◌≤◌, ◌++◌, OnOk, string_bytes};
ghost use Rattle.jh_gen.specs.Generated as spec;

use jh_name::NoMemory;

/// The number that a method writes.
fn number_of(seed: u64, method: u64) -> u64
    requires { method ≤ 2 ^ 32 }
    ensures { result ≡ spec.number_of seed method }
{
    1 + (seed % 9 + 7 * method) % 9
}

/// The kind of a method: 0, 1 or 2.
fn kind_of(seed: u64, method: u64) -> u64
    requires { method ≤ 2 ^ 32 }
    ensures { result ≡ (seed + method) % 3 }
{
    (seed % 3 + method) % 3
}

/// Adds a method that exchanges two statics.
#[tactic(auto, unfolding(crate::specs::Generated::swap_line))]
fn add_swap(text: &mut String, method: u64) -> Result<(), NoMemory>
    ensures { OnOk result (string_bytes text.new ≡ string_bytes text.old ++ spec.swap_line method) }
{
    write!(
        text,
        "public static void m{method}() /*: modifies a, b ensures \"a = old b & b = old a\" */ {{ Object t = a; a = b; b = t; }}"
    )?;
    Ok(())
}

/// Adds a method that adds to a static.
#[tactic(auto, unfolding(crate::specs::Generated::sum_line))]
fn add_sum(text: &mut String, method: u64, number: u64) -> Result<(), NoMemory>
    ensures { OnOk result (string_bytes text.new ≡ string_bytes text.old ++ spec.sum_line method number) }
{
    write!(
        text,
        "public static void m{method}() /*: requires \"0 <= n\" modifies n ensures \"{number} <= n\" */ {{ n = n + {number}; }}"
    )?;
    Ok(())
}

/// Adds a method that writes into two cells.
#[tactic(auto, unfolding(crate::specs::Generated::cells_line))]
fn add_cells(text: &mut String, method: u64, number: u64) -> Result<(), NoMemory>
    ensures { OnOk result (string_bytes text.new ≡ string_bytes text.old ++ spec.cells_line method number) }
{
    write!(
        text,
        "public static void m{method}(Cell p, Cell q) /*: requires \"p ~= null & q ~= null & p ~= q\" modifies Cell.f ensures \"p..Cell.f = {number} & q..Cell.f = 2\" */ {{ p.f = {number}; q.f = 2; }}"
    )?;
    Ok(())
}

/// Adds a method of a kind.
fn add_kind(text: &mut String, kind: u64, method: u64, number: u64) -> Result<(), NoMemory>
    ensures { OnOk result (string_bytes text.new ≡ string_bytes text.old ++ spec.line_of_kind kind method number) }
{
    if kind == 0 {
        add_swap(text, method)
    } else if kind == 1 {
        add_sum(text, method, number)
    } else {
        add_cells(text, method, number)
    }
}

/// Adds the line of the method of a number, counted from 1.
pub(crate) fn add_method(text: &mut String, seed: u64, method: u64) -> Result<(), NoMemory>
    requires { method ≤ 2 ^ 32 }
    ensures { OnOk result (string_bytes text.new ≡ string_bytes text.old ++ spec.ended (spec.method_line seed method)) }
{
    let kind = kind_of(seed, method);
    let number = number_of(seed, method);
    add_kind(text, kind, method, number)?;
    text.push('\n')?;
    Ok(())
}
