//! The trees that the canonical form, the trimmed automaton, the union, the product and the quotient
//! accept.

ghost use Rattle.std.specs.Prelude.{ℕ, ◌≡◌, ◌↔◌, ◌⊎◌, Contains};
ghost use Rattle.std.specs.List.Sorted.{IsStrictlySortedBy};
ghost use Rattle.std.specs.Ordering.{nat_cmp};
ghost use Rattle.tree_definitions.specs.Tree.{Tree};
ghost use Rattle.tree_definitions.specs.Automaton.{Automaton, IsAutomaton, IsFinal, Rule};
ghost use Rattle.tree_definitions.specs.Canonical.{canon, rule_cmp};
ghost use Rattle.tree_definitions.specs.Language.{Accepts, SameLanguage};
ghost use Rattle.tree_definitions.specs.Trim.{IsTrim};
ghost use Rattle.tree_definitions.specs.Union.{IsUnion};
ghost use Rattle.tree_definitions.specs.Product.{IsProduct};
ghost use Rattle.tree_definitions.specs.Quotient.{IsQuotient};

/// An automaton without its useless states accepts the same trees.
pub fn trim_keeps_the_language()
    ensures { (A T : Automaton) → IsTrim A T → SameLanguage A T }
{}

/// The union of two automata accepts the trees that one of them accepts.
pub fn union_accepts_either()
    ensures { (A B U : Automaton) → IsAutomaton A → IsUnion A B U
        → (t : Tree) → Accepts U t ↔ (Accepts A t ⊎ Accepts B t) }
{}

/// The product of two automata accepts the trees that both accept.
pub fn product_accepts_both()
    ensures { (A B P : Automaton) → IsProduct A B P
        → (t : Tree) → Accepts P t ↔ (Accepts A t × Accepts B t) }
{}

/// An automaton whose useful states were merged where each is below the other in the greatest
/// downward simulation accepts the same trees.
pub fn quotient_keeps_the_language()
    ensures { (A C : Automaton) → IsQuotient A C → SameLanguage A C }
{}

/// The canonical form of an automaton has the same final states and the same rules, each once and
/// in rising order, and accepts the same trees.
pub fn canonical_form_is_in_order()
    ensures finals { (A : Automaton) (q : ℕ) → IsFinal (canon A) q ↔ IsFinal A q }
    ensures rules { (A : Automaton) (r : Rule) → Contains (canon A).rules r ↔ Contains A.rules r }
    ensures rising_finals { (A : Automaton) → IsStrictlySortedBy nat_cmp (canon A).finals }
    ensures rising_rules { (A : Automaton) → IsStrictlySortedBy rule_cmp (canon A).rules }
    ensures language { (A : Automaton) → SameLanguage A (canon A) }
{}

/// Two trims of one automaton have the same canonical form, and so two unions, two products and two
/// quotients. Trims of automata with the same canonical form have it too. So nothing of a canonical
/// result is free.
pub fn results_have_one_canonical_form()
    ensures trim_of_form { (A B T U : Automaton) → canon A ≡ canon B → IsTrim A T → IsTrim B U → canon T ≡ canon U }
    ensures trim { (A T U : Automaton) → IsTrim A T → IsTrim A U → canon T ≡ canon U }
    ensures union { (A B U V : Automaton) → IsUnion A B U → IsUnion A B V → canon U ≡ canon V }
    ensures product { (A B P Q : Automaton) → IsProduct A B P → IsProduct A B Q → canon P ≡ canon Q }
    ensures quotient { (A C D : Automaton) → IsQuotient A C → IsQuotient A D → canon C ≡ canon D }
{}
