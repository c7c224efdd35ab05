//! The greatest simulations: each is a simulation, reflexive and transitive.

ghost use Rattle.std.specs.Prelude.{ℕ, ◌+◌, ◌<◌, length};
ghost use Rattle.tree_definitions.specs.Automaton.{Automaton, HasRule, IsAutomaton, IsState};
ghost use Rattle.tree_definitions.specs.Joint.{JointRule};
ghost use Rattle.tree_definitions.specs.Simulation.{IsDown, IsUp, GreatestDown, GreatestUp};

/// The union of all downward simulations of an automaton is one itself, and it is reflexive and
/// transitive.
pub fn greatest_downward_simulation()
    ensures simulation { (A : Automaton) → IsDown (HasRule A) (GreatestDown (length A.states) (HasRule A)) }
    ensures reflexive { (A : Automaton) → IsAutomaton A
        → (q : ℕ) → IsState A q → GreatestDown (length A.states) (HasRule A) q q }
    ensures transitive { (A : Automaton) (q r s : ℕ)
        → GreatestDown (length A.states) (HasRule A) q r
        → GreatestDown (length A.states) (HasRule A) r s
        → GreatestDown (length A.states) (HasRule A) q s }
{}

/// The same of the states of two automata together, those of the first and then those of the
/// second.
pub fn greatest_joint_simulation()
    ensures simulation { (A B : Automaton) → IsDown (JointRule A B)
        (GreatestDown (length A.states + length B.states) (JointRule A B)) }
    ensures reflexive { (A B : Automaton) → IsAutomaton A → IsAutomaton B
        → (q : ℕ) → q < length A.states + length B.states
        → GreatestDown (length A.states + length B.states) (JointRule A B) q q }
    ensures transitive { (A B : Automaton) (q r s : ℕ)
        → GreatestDown (length A.states + length B.states) (JointRule A B) q r
        → GreatestDown (length A.states + length B.states) (JointRule A B) r s
        → GreatestDown (length A.states + length B.states) (JointRule A B) q s }
{}

/// The union of all upward simulations of an automaton is one itself, and it is reflexive and
/// transitive.
pub fn greatest_upward_simulation()
    ensures simulation { (A : Automaton) → IsUp A (GreatestUp A) }
    ensures reflexive { (A : Automaton) → IsAutomaton A → (q : ℕ) → IsState A q → GreatestUp A q q }
    ensures transitive { (A : Automaton) → IsAutomaton A
        → (q r s : ℕ) → GreatestUp A q r → GreatestUp A r s → GreatestUp A q s }
{}
