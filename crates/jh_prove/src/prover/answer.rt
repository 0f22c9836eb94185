ghost use Rattle.std.specs.Prelude.{◌≡◌, if◌then◌else◌};
ghost use Rattle.jh_prove.specs.prover.Answers as spec;

use jh_bapa::answers::BapaCause;
use jh_derivation_rules::Derivation;
use jh_local::LocalCause;
use jh_query::queries::Query;

/// What is said of a sequent.
#[derive(Drop)]
pub enum Answer {
    /// It is valid at sight.
    Trivial,
    /// This is its query, which is true.
    Bapa(Query),
    /// The instances of its local form have no ground model, and this derivation closes that form.
    Local(Derivation),
    /// No proof was found: why not by regions, and why not by the search for a ground model.
    Unproved { bapa: BapaCause, local: LocalCause },
}

fn can_be_shared<T: Send + Sync>(_value: &T) {}

/// Answers can be moved to threads and shared by them. It does nothing.
pub fn answers_can_be_shared(answer: &Answer) {
    can_be_shared(answer);
}

/// What is said of a sequent, in one word.
#[derive(Clone, Copy, PartialEq, Eq)]
pub enum Verdict {
    Trivial,
    Bapa,
    Local,
    Unproved,
}

/// The verdict of an answer.
pub fn verdict_of(answer: &Answer) -> Verdict
    ensures { result ≡ spec.verdict_of answer.now }
{
    match answer {
        Answer::Trivial => Verdict::Trivial,
        Answer::Bapa(_) => Verdict::Bapa,
        Answer::Local(_) => Verdict::Local,
        Answer::Unproved { .. } => Verdict::Unproved,
    }
}

/// Whether a sequent was left without a proof.
pub fn is_unproved(answer: &Answer) -> bool
    ensures { result ≡ spec.is_unproved answer.now }
{
    match answer {
        Answer::Unproved { .. } => true,
        _ => false,
    }
}

/// Whether no answer is Unproved.
fn all_proved(answers: &[Answer]) -> bool
    ensures { result ≡ spec.all_proved answers.now }
{
    answers.iter().all(|answer| !is_unproved(answer))
}

/// The exit status for answers: 0 where none is Unproved, else 1.
pub fn status_of(answers: &[Answer]) -> u8
    ensures { result ≡ (if spec.all_proved answers.now then 0 else 1) }
{
    if all_proved(answers) { 0 } else { 1 }
}
