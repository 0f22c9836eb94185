ghost use Rattle.std.specs.Prelude.{◌≡◌, Bool, false};
ghost use Rattle.jh_form.specs.Tree.{ValueTree};
ghost use Rattle.jh_form.specs.Tree as tree;
ghost use Rattle.jh_form.specs.Bare.{term_tree, int_tree, set_tree, field_tree, formula_tree};

use jh_form::{FieldTerm, Formula, IntTerm, SetTerm, Term};

/// How two trees are compared: which parts may be exchanged for which, and whether labels are compared or passed.
pub trait Exchange {
    ghost labels: { Self → Bool };

    ghost pairs: { Self → ValueTree → ValueTree → Bool };

    fn labels(&self) -> bool
        ensures { result ≡ labels self.now };

    fn terms(&self, left: &Term, right: &Term) -> bool
        ensures { result ≡ (pairs self.now) (tree.of_object (term_tree left.now)) (tree.of_object (term_tree right.now)) };

    fn ints(&self, left: &IntTerm, right: &IntTerm) -> bool
        ensures { result ≡ (pairs self.now) (tree.of_number (int_tree left.now)) (tree.of_number (int_tree right.now)) };

    fn sets(&self, left: &SetTerm, right: &SetTerm) -> bool
        ensures { result ≡ (pairs self.now) (tree.of_set (set_tree left.now)) (tree.of_set (set_tree right.now)) };

    fn fields(&self, left: &FieldTerm, right: &FieldTerm) -> bool
        ensures { result ≡ (pairs self.now) (tree.of_field (field_tree left.now)) (tree.of_field (field_tree right.now)) };

    fn formulas(&self, left: &Formula, right: &Formula) -> bool
        ensures { result ≡ (pairs self.now) (tree.of_truth (formula_tree left.now)) (tree.of_truth (formula_tree right.now)) };
}

/// Nothing may be exchanged.
#[derive(Clone, Copy)]
pub struct Nothing {
    /// Whether labels are compared.
    pub labels: bool,
}

impl Exchange for Nothing {
    ghost labels = { λ s. s.labels };

    ghost pairs = { λ _ u v. false };

    fn labels(&self) -> bool {
        self.labels
    }

    fn terms(&self, _left: &Term, _right: &Term) -> bool {
        false
    }

    fn ints(&self, _left: &IntTerm, _right: &IntTerm) -> bool {
        false
    }

    fn sets(&self, _left: &SetTerm, _right: &SetTerm) -> bool {
        false
    }

    fn fields(&self, _left: &FieldTerm, _right: &FieldTerm) -> bool {
        false
    }

    fn formulas(&self, _left: &Formula, _right: &Formula) -> bool {
        false
    }
}
