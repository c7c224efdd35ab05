//! What the definitions of this crate say.

ghost use Rattle.std.specs.Prelude.{◌≡◌};
ghost use Rattle.tree_definitions.specs.Automaton.{Automaton};
ghost use Rattle.tree_definitions.specs.Canonical.{canon};
ghost use Rattle.tree_definitions.specs.Relation.{Row};
ghost use Rattle.ta_model.specs.Restriction.{IsRestriction};

/// Two restrictions of one automaton to the same states have the same canonical form.
pub fn restrictions_have_one_canonical_form()
    ensures { (A T U : Automaton) (row : Row) → IsRestriction A row T → IsRestriction A row U → canon T ≡ canon U }
{}
