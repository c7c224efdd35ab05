// What a text of an automaton is, which automaton it spells, and where it fails.
#![tactic(auto)]

ghost use Rattle.std.specs.Prelude.{List, ℕ, [], ◌∷◌, ◌++◌, ◌≡◌, ◌↔◌, ◌⊎◌, AllPairs, ◌≢◌, Contains, Some};
ghost use Rattle.std.specs.Str.{bytes_eq};
ghost use Rattle.tree_definitions.specs.Automaton.{Automaton, IsAutomaton, IsNarrow};
ghost use Rattle.tree_definitions.specs.Canonical.{canon};
ghost use Rattle.timbuk_definitions.specs.Token.{Token, Tokens, IsToken};
ghost use Rattle.timbuk_definitions.specs.Grammar.{Item, IsFile, BeginsFile, BeginFileTokens, item_tokens};
ghost use Rattle.timbuk_definitions.specs.Reading.{Spells, first};
ghost use Rattle.timbuk_definitions.specs.Place.{IsBadPlace, Limit, PassesLimit, PassesNoLimit, IsSmall};
ghost use Rattle.timbuk_definitions.specs.Printed.{plain_text, print, HasNames};
ghost use Rattle.timbuk_definitions.specs.Machine.{Spot, Start, Move, kind_of, step, Runs, IsEnd};

/// Each text has one list of tokens.
pub fn each_text_has_one_list_of_tokens()
    ensures some { (text : List ℕ) → (ts : List Token) × Tokens text ts }
    ensures one { (text : List ℕ) (ts us : List Token) → Tokens text ts → Tokens text us → ts ≡ us }
{}

/// The machine goes over exactly the items of the files to an end.
pub fn machine_accepts_the_files()
    ensures { (items : List Item) → IsFile items ↔ ((t : Spot) × Runs Start items t × IsEnd t) }
{}

/// From each spot the machine can go on to an end. So it goes over exactly the items with which a file begins.
pub fn machine_goes_over_the_beginnings()
    ensures live { (s : Spot) → (items : List Item) × (t : Spot) × Runs s items t × IsEnd t }
    ensures begins { (items : List Item) → BeginsFile items ↔ ((s : Spot) × Runs Start items s) }
{}

/// The machine takes a token exactly where a file goes on with it.
pub fn machine_stops_where_no_file_goes_on()
    ensures { (items : List Item) (s : Spot) (t : Token) → Runs Start items s → IsToken t → BeginFileTokens (item_tokens items ++ t ∷ []) ↔ ((mv : Move) × (step s (kind_of t) ≡ Some mv)) }
{}

/// Files with the same tokens say the same.
pub fn tokens_have_one_reading()
    ensures { (xs ys : List Item) → IsFile xs → IsFile ys → item_tokens xs ≡ item_tokens ys → xs ≡ ys }
{}

/// Each text spells one automaton or has one bad place, and never both.
pub fn each_text_spells_one_automaton_or_has_one_bad_place()
    ensures either { (text : List ℕ) → ((A : Automaton) × Spells text A) ⊎ ((at : ℕ) × IsBadPlace text at) }
    ensures one_automaton { (text : List ℕ) (A B : Automaton) → Spells text A → Spells text B → A ≡ B }
    ensures one_place { (text : List ℕ) (a b : ℕ) → IsBadPlace text a → IsBadPlace text b → a ≡ b }
    ensures not_both { (text : List ℕ) (A : Automaton) (at : ℕ) → IsBadPlace text at → ¬ Spells text A }
{}

/// Each text passes one limit at one place, or none.
pub fn each_text_passes_one_limit_or_none()
    ensures either { (text : List ℕ) → ((what : Limit) × (at : ℕ) × PassesLimit text what at) ⊎ PassesNoLimit text }
    ensures one { (text : List ℕ) (a b : Limit) (i j : ℕ) → PassesLimit text a i → PassesLimit text b j → (a ≡ b) × (i ≡ j) }
{}

/// The list of first places has the values of the list, each once.
pub fn first_places_have_each_value_once()
    ensures distinct { (xs : List (List ℕ)) → AllPairs ◌≢◌ (first bytes_eq xs) }
    ensures same { (xs : List (List ℕ)) (x : List ℕ) → Contains (first bytes_eq xs) x ↔ Contains xs x }
{}

/// What a text spells is an automaton: no list has a repeat, and each place is in range.
pub fn what_a_text_spells_is_an_automaton()
    ensures { (text : List ℕ) (A : Automaton) → Spells text A → IsAutomaton A }
{}

/// A text that passes no limit spells an automaton with names, small ranks and short lists.
pub fn what_passes_no_limit_is_small()
    ensures names { (text : List ℕ) (A : Automaton) → Spells text A → PassesNoLimit text → HasNames A }
    ensures lists { (text : List ℕ) (A : Automaton) → Spells text A → PassesNoLimit text → IsSmall A }
{}

/// The text of a narrow automaton spells it, and the printed text spells its canonical form.
pub fn printed_text_spells_the_automaton()
    ensures text { (A : Automaton) → IsAutomaton A → IsNarrow A → HasNames A → Spells (plain_text A) A }
    ensures printed { (A : Automaton) → IsAutomaton A → IsNarrow A → HasNames A → Spells (print A) (canon A) }
{}
