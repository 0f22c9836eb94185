#![tactic(auto, unfolding(jh_query::specs::queries::Bare::set_tree, jh_query::specs::queries::Bare::num_tree, jh_query::specs::queries::Bare::cond_tree))]

ghost use Rattle.std.specs.Prelude.{◌≡◌, ◌+◌, ◌-◌, ◌*◌, ◌^◌, ◌<◌, ◌≤◌, ◌&&◌, ◌||◌, ℕ, Bool, MatchOption, length, map, not, true};
ghost use Rattle.std.specs.Int.{bit_at};
ghost use Rattle.std.specs.List.{list_all};
ghost use Rattle.jh_form.specs.Meaning.{agree};
ghost use Rattle.jh_query.specs.queries.Bare.{cond_tree, query_tree};
ghost use Rattle.jh_query.specs.queries.Tree as t;
ghost use Rattle.jh_query.specs.queries.Sizing.{Sizing};
ghost use Rattle.jh_query.specs.queries.Truth.{holds};
ghost use Rattle.jh_query.specs.partial_truth.Judged.{Agrees};
ghost use Rattle.jh_bapa.specs.decision.Choices.{Allows, AllowsAll, IsChoice, IsVain};
ghost use Rattle.jh_bapa.specs.decision.Searching.{NoneLeft};

use jh_query::partial_truth::{Atom, Case, judge};
use jh_query::queries::{Cond, Query, Spot};

/// What a condition may be under 64 choices of the flags: bit i of `yes` is 1 where it may be true under the i-th, and of
/// `no` where it may be false.
#[derive(Clone, Copy)]
pub(crate) struct May {
    pub(crate) yes: u64,
    pub(crate) no: u64,
}

/// The truth of a flag from the sixth on under all choices of a block.
fn high_flag(flag: u32, block: u64) -> u64
    requires low { 6 ≤ flag }
    requires high { flag < 32 }
    ensures { (i : ℕ) → i < 64 → bit_at result i ≡ bit_at (block * 64 + i) flag }
{
    if (block >> (flag - 6)) & 1 == 1 {
        u64::MAX
    } else {
        0
    }
}

/// The truths of a flag under the choices of a block.
fn flag_word(flag: u32, block: u64) -> u64
    requires { flag < 32 }
    ensures { (i : ℕ) → i < 64 → bit_at result i ≡ bit_at (block * 64 + i) flag }
{
    match flag {
        0 => 0xAAAA_AAAA_AAAA_AAAA,
        1 => 0xCCCC_CCCC_CCCC_CCCC,
        2 => 0xF0F0_F0F0_F0F0_F0F0,
        3 => 0xFF00_FF00_FF00_FF00,
        4 => 0xFFFF_0000_FFFF_0000,
        5 => 0xFFFF_FFFF_0000_0000,
        _ => high_flag(flag, block),
    }
}

/// What a flag may be.
fn flag_may(flag: u32, block: u64) -> May
    ensures { (z : Sizing) (i : ℕ) → i < 64 → IsChoice z (block * 64 + i) → Allows result i (holds z (t.flag flag)) }
{
    if flag < 32 {
        let yes = flag_word(flag, block);
        May { yes, no: !yes }
    } else {
        May {
            yes: u64::MAX,
            no: u64::MAX,
        }
    }
}

/// What a truth may be, as far as it is known.
fn known(truth: Option<bool>) -> May
    ensures { (i : ℕ) → i < 64 → MatchOption truth ((p : Bool) → Allows result i p) (λ p. Allows result i p) }
{
    match truth {
        Some(true) => May {
            yes: u64::MAX,
            no: 0,
        },
        Some(false) => May {
            yes: 0,
            no: u64::MAX,
        },
        None => May {
            yes: u64::MAX,
            no: u64::MAX,
        },
    }
}

/// What the negation may be.
fn turned(may: May) -> May
    ensures { (i : ℕ) (p : Bool) → Allows may i p → Allows result i (not p) }
{
    May {
        yes: may.no,
        no: may.yes,
    }
}

/// What both together may be.
fn both(left: May, right: May) -> May
    ensures { (i : ℕ) (p q : Bool) → Allows left i p → Allows right i q → Allows result i (p && q) }
{
    May {
        yes: left.yes & right.yes,
        no: left.no | right.no,
    }
}

/// What one of both may be.
fn one(left: May, right: May) -> May
    ensures { (i : ℕ) (p q : Bool) → Allows left i p → Allows right i q → Allows result i (p || q) }
{
    May {
        yes: left.yes | right.yes,
        no: left.no & right.no,
    }
}

/// What it may be that both are the same.
fn alike(left: May, right: May) -> May
    ensures { (i : ℕ) (p q : Bool) → Allows left i p → Allows right i q → Allows result i (agree p q) }
{
    let true_both = both(left, right);
    let false_both = both(turned(left), turned(right));
    one(true_both, false_both)
}

/// What a condition may be under the choices of a block.
fn truths(cond: &Cond, spots: &[Spot], atoms: &[Atom<'_>], block: u64) -> May
    ensures { AllowsAll result block spots.now atoms.now (cond_tree cond.now) }
{
    match cond {
        Cond::Flag(flag) => flag_may(*flag, block),
        Cond::Not(inner) => turned(truths(inner, spots, atoms, block)),
        Cond::And(left, right) => both(
            truths(left, spots, atoms, block),
            truths(right, spots, atoms, block),
        ),
        Cond::Or(left, right) => one(
            truths(left, spots, atoms, block),
            truths(right, spots, atoms, block),
        ),
        Cond::Implies(left, right) => one(
            turned(truths(left, spots, atoms, block)),
            truths(right, spots, atoms, block),
        ),
        Cond::Iff(left, right) => {
            alike(
                truths(left, spots, atoms, block),
                truths(right, spots, atoms, block),
            )
        }
        Cond::True
        | Cond::False
        | Cond::SameElement(_, _)
        | Cond::In(_, _)
        | Cond::EqualSet(_, _)
        | Cond::Within(_, _)
        | Cond::EqualNum(_, _)
        | Cond::LessNum(_, _)
        | Cond::Divides(_, _) => known(judge(cond, spots, atoms)),
    }
}

/// Under which choices of a block all of several conditions may be true.
fn may_all(conds: &[Cond], spots: &[Spot], atoms: &[Atom<'_>], block: u64) -> u64
    ensures { (z : Sizing) (i : ℕ) → i < 64 → Agrees z spots.now atoms.now → IsChoice z (block * 64 + i) → list_all (holds z) (map cond_tree conds.now) ≡ true → bit_at result i ≡ 1 }
{
    let mut yes = u64::MAX;
    for cond in conds {
        yes &= truths(cond, spots, atoms, block).yes;
    }
    yes
}

/// Whether the query is true under all choices of a block.
fn is_vain(query: &Query, spots: &[Spot], atoms: &[Atom<'_>], block: u64) -> bool
    ensures { result ≡ true → IsVain block spots.now atoms.now (query_tree query.now) }
{
    may_all(query.hyps.items(), spots, atoms, block) & truths(&query.goal, spots, atoms, block).no
        == 0
}

/// How many blocks of 64 choices so many flags have.
fn block_count(flags: u32) -> u64
    requires { flags ≤ 32 }
    ensures { result ≡ 2 ^ (flags - 6) }
{
    let high = flags.saturating_sub(6);
    1 << high
}

/// Whether the query is true under all choices of the flags, 64 at a time.
pub(crate) fn are_flags_vain(query: &Query, spots: &[Spot], atoms: &[Atom<'_>]) -> bool
    requires { query.now.flags ≤ 32 }
    ensures { result ≡ true → NoneLeft (query_tree query.now) spots.now atoms.now }
{
    for block in 0..block_count(query.flags) {
        if !is_vain(query, spots, atoms, block) {
            return false;
        }
    }
    true
}

/// Whether an atom is a flag.
fn is_flag(cond: &Cond) -> bool {
    matches!(cond, Cond::Flag(_))
}

/// How many flags are open, where no other atom is open and no flag is chosen; else 0.
pub(crate) fn open_flags(atoms: &[Atom<'_>]) -> usize {
    let mut count = 0usize;
    for atom in atoms {
        if is_flag(atom.cond) != matches!(atom.case, Case::Open) {
            return 0;
        }
        if is_flag(atom.cond) {
            count = count.saturating_add(1);
        }
    }
    count
}
