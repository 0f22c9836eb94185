ghost use Rattle.std.specs.Prelude.{◌≡◌, ◌++◌, IfOk, OnOk, string_bytes};
ghost use Rattle.jh_gen.specs.Generated as spec;

use jh_name::NoMemory;
use std::alloc::Global;

/// How many methods and sequents a source has, how many of the sequents were proved in each way, and how many weren't.
#[derive(Clone, Copy, PartialEq, Eq)]
pub struct Counts {
    pub methods: usize,
    pub sequents: usize,
    pub trivial: usize,
    pub bapa: usize,
    pub local: usize,
    pub unproved: usize,
}

/// Adds of which source it is, with how many methods and sequents.
#[tactic(auto, unfolding(crate::specs::Generated::totals_text))]
fn add_totals(text: &mut String, seed: u64, methods: u32, counts: Counts) -> Result<(), NoMemory>
    ensures { OnOk result (string_bytes text.new ≡ string_bytes text.old ++ spec.totals_text seed methods counts) }
{
    let all = counts.methods;
    let sequents = counts.sequents;
    write!(
        text,
        "gen {seed} {methods}: methods {all}, sequents {sequents}"
    )?;
    Ok(())
}

/// Adds what became of the sequents.
#[tactic(auto, unfolding(crate::specs::Generated::verdicts_text))]
fn add_verdicts(text: &mut String, counts: Counts) -> Result<(), NoMemory>
    ensures { OnOk result (string_bytes text.new ≡ string_bytes text.old ++ spec.verdicts_text counts) }
{
    let trivial = counts.trivial;
    let bapa = counts.bapa;
    let local = counts.local;
    let unproved = counts.unproved;
    writeln!(
        text,
        ", trivial {trivial}, bapa {bapa}, local {local}, unproved {unproved}"
    )?;
    Ok(())
}

/// The line that sums up what was proved of the source of a seed.
pub fn summary(alloc: Global, seed: u64, methods: u32, counts: Counts) -> Result<Vec<u8>, NoMemory>
    ensures summary { IfOk result (λ text. text.items ≡ spec.summary seed methods counts) }
{
    let mut text = String::new(alloc);
    add_totals(&mut text, seed, methods, counts)?;
    add_verdicts(&mut text, counts)?;
    Ok(text.into_bytes())
}
