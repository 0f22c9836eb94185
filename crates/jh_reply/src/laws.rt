//! What the refusals of a source have to do with one another.
ghost use Rattle.std.specs.Prelude.{◌≡◌, ◌≢◌, ℕ, List};
ghost use Rattle.jh_name.specs.declared.place.Place.{Place};
ghost use Rattle.jh_reply.specs.Refusals.{IsCircular, IsCrowded, IsMistyped, RefusedAt};

use jh_gen_laws::jh_obligations::program_sequents::too_many_is_exact;

/// At most one refusal applies to given bytes: they are refused with one number, at one place unless it is that of syntax; or they
/// break a type rule; or they have a cyclic variable, of which one is the first; or a method has too
/// many sequents, of which one is the first.
pub fn at_most_one_refusal()
    ensures number { (bytes : List ℕ) (m n : ℕ) (p q : Place) → RefusedAt bytes m p → RefusedAt bytes n q → m ≡ n }
    ensures place { (bytes : List ℕ) (n : ℕ) (p q : Place) → n ≢ 6 → RefusedAt bytes n p → RefusedAt bytes n q → p ≡ q }
    ensures typed { (bytes : List ℕ) (n rule : ℕ) (p q : Place) → RefusedAt bytes n p → IsMistyped bytes rule q → ⊥ }
    ensures spelled { (bytes class name : List ℕ) (n count : ℕ) (p : Place) → RefusedAt bytes n p → IsCrowded bytes class name count → ⊥ }
    ensures circular { (bytes : List ℕ) (n : ℕ) (p : Place) (name : List ℕ) → RefusedAt bytes n p → IsCircular bytes name → ⊥ }
    ensures ordered { (bytes : List ℕ) (rule : ℕ) (p : Place) (name : List ℕ) → IsMistyped bytes rule p → IsCircular bytes name → ⊥ }
    ensures acyclic { (bytes x class name : List ℕ) (count : ℕ) → IsCircular bytes x → IsCrowded bytes class name count → ⊥ }
    ensures name { (bytes x y : List ℕ) → IsCircular bytes x → IsCircular bytes y → x ≡ y }
    ensures apart { (bytes class name : List ℕ) (rule count : ℕ) (p : Place) → IsMistyped bytes rule p → IsCrowded bytes class name count → ⊥ }
    ensures method { (bytes c x d y : List ℕ) (m n : ℕ) → IsCrowded bytes c x m → IsCrowded bytes d y n → (c ≡ d) × (x ≡ y) × (m ≡ n) }
{
    too_many_is_exact();
}
