//! A rule of an automaton.

use smallvec::SmallVec;
use std::alloc::{AllocError, Global};
use std::cmp::Ordering;
use std::hash::{Hash, Hasher};
use std::marker::Model;

/// Places of children, from the left. Up to four stand inline.
pub type Kids = SmallVec<u32, 4, Global>;

/// A rule by places: of its symbol, of its children and of its parent. It is seen without the
/// capacity of its children. Rules are ordered by parent, then symbol, then children.
// The two numbers stand side by side, since fields lie in their order and the children begin at a
// multiple of 8 bytes.
#[derive(Debug, Drop)]
pub struct Rule {
    pub symbol: u32,
    pub parent: u32,
    pub kids: Kids,
}

/// How many bytes a rule takes. There may be millions of them.
const RULE_LEN: usize = 40;

const _: () = prove!(size_of::<Rule>() == RULE_LEN);

impl Model for Rule {
    ghost use Rattle.tree_definitions.specs.Automaton.{Rule as RuleSpec};

    ghost Value = { RuleSpec };

    ghost view = { λ r. record { symbol = r.symbol; kids = r.kids.items; parent = r.parent } };
}

impl PartialEq for Rule {
    ghost use Rattle.std.specs.Ordering.{eq_by_cmp};
    ghost use Rattle.std.specs.Cmp.{partial_equiv_from_equiv};
    ghost use Rattle.tree_definitions.specs.Canonical.{rule_cmp};
    ghost use Rattle.tree_definitions.proofs.CanonicalForms.{same_rule_equiv};

    ghost eq = { eq_by_cmp rule_cmp };

    ghost laws = { partial_equiv_from_equiv same_rule_equiv };

    fn eq(&self, other: &Rule) -> bool {
        self.cmp(other) == Ordering::Equal
    }
}

impl Eq for Rule {
    ghost use Rattle.tree_definitions.proofs.CanonicalForms.{same_rule_equiv};

    ghost laws = { same_rule_equiv };
}

impl PartialOrd for Rule {
    ghost use Rattle.std.specs.Prelude.{Some};
    ghost use Rattle.tree_definitions.specs.Canonical.{rule_cmp};
    ghost use Rattle.tree_definitions.proofs.CanonicalForms.{rules_po};

    ghost partial_cmp = { λ a b. Some (rule_cmp a b) };

    ghost laws = { rules_po };

    fn partial_cmp(&self, other: &Rule) -> Option<Ordering> {
        Some(self.cmp(other))
    }
}

impl Ord for Rule {
    ghost use Rattle.std.specs.Prelude.{refl};
    ghost use Rattle.tree_definitions.specs.Canonical.{rule_cmp};
    ghost use Rattle.tree_definitions.proofs.CanonicalForms.{rules_total, rules_tie};

    ghost cmp = { rule_cmp };

    ghost total = { rules_total };

    ghost matches_partial_cmp = { λ a b. refl };

    ghost matches_eq = { rules_tie };

    fn cmp(&self, other: &Rule) -> Ordering {
        self.parent
            .cmp(&other.parent)
            .then(self.symbol.cmp(&other.symbol))
            .then(self.kids.as_slice().cmp(other.kids.as_slice()))
    }
}

impl Hash for Rule {
    ghost use Rattle.std.specs.Hash as fed;
    ghost use Rattle.std.specs.Prelude.{◌++◌};
    ghost use Rattle.tree_definitions.proofs.CanonicalForms.{rules_total, rules_exact, ties_decide};

    ghost hash_input = { λ r. fed.u32 r.symbol ++ fed.slice fed.u32 r.kids ++ fed.u32 r.parent };

    ghost respects_eq = { (fed.same_Alike (λ r. fed.u32 r.symbol ++ fed.slice fed.u32 r.kids ++ fed.u32 r.parent) (ties_decide rules_total rules_exact)).fed };

    fn hash<H: Hasher>(&self, state: &mut H) {
        self.symbol.hash(state);
        self.kids.as_slice().hash(state);
        self.parent.hash(state);
    }
}

impl Clone for Rule {
    ghost use Rattle.std.specs.Prelude.{◌≡◌};

    ghost is_clone = { λ a b. b ≡ a };

    fn clone(&self) -> Result<Rule, AllocError> {
        Ok(Rule {
            symbol: self.symbol,
            kids: SmallVec::from_slice(*self.kids.allocator(), self.kids.as_slice())?,
            parent: self.parent,
        })
    }
}
