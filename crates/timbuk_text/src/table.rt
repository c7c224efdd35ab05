//! The reader's table: where it stands, what it sees, and what it has to do.

ghost use Rattle.std.specs.Prelude.{◌≡◌, ◌↔◌, Some, IsTrue};
ghost use Rattle.timbuk_text.specs.Table.{next_at, IsEnding};

/// A list of states, or the rules.
#[derive(Clone, Copy, Debug)]
pub enum Part {
    States,
    Finals,
    Kids,
    Rules,
}

/// Where a reader stands, by what it has passed last.
#[derive(Clone, Copy, Debug)]
pub enum Stand {
    /// Before the first token.
    Start,
    /// In the list of symbols, with nothing open.
    Ops,
    OpName,
    OpColon,
    Automaton,
    Title,
    Final,
    /// The name that begins a rule.
    Head,
    Open,
    Comma,
    Close,
    Pointer,
    /// In a list of states, with nothing open.
    In(Part),
    /// A state's name.
    Named(Part),
    /// The colon after a state's name.
    Colon(Part),
}

/// A token, as the table sees it. A name of digits alone is `Digits`.
#[derive(Clone, Copy, Debug)]
pub enum Sight {
    Open,
    Close,
    Comma,
    Colon,
    Pointer,
    Ops,
    Automaton,
    States,
    Final,
    Transitions,
    Name,
    Digits,
    Stray,
}

/// What a token says.
#[derive(Clone, Copy, Debug)]
pub enum Action {
    /// Nothing.
    Plain,
    /// The automaton's name.
    Title,
    /// The name of a symbol, and the rank that ends it.
    OpName,
    OpRank,
    State,
    Final,
    /// The name that begins a rule, a child, the arrow and the parent.
    Head,
    Kid,
    Arrow,
    Parent,
}

/// What to do at a token, and where the reader stands after it.
#[derive(Clone, Copy, Debug)]
pub struct Step {
    pub action: Action,
    pub stand: Stand,
}

fn go(action: Action, stand: Stand) -> Option<Step>
    ensures { result ≡ Some (record { action = action; stand = stand }) }
{
    Some(Step { action, stand })
}

fn next_in(part: Part, sight: Sight) -> Option<Step>
    ensures { result ≡ next_at (Stand.In part) sight }
{
    match (part, sight) {
        (Part::States, Sight::Name | Sight::Digits) => {
            go(Action::State, Stand::Named(Part::States))
        }
        (Part::States, Sight::Final) => go(Action::Plain, Stand::Final),
        (Part::Finals, Sight::Name | Sight::Digits) => {
            go(Action::Final, Stand::Named(Part::Finals))
        }
        (Part::Finals, Sight::Transitions) => go(Action::Plain, Stand::In(Part::Rules)),
        (Part::Kids, Sight::Comma) => go(Action::Plain, Stand::Comma),
        (Part::Kids, Sight::Close) => go(Action::Plain, Stand::Close),
        (Part::Rules, Sight::Name | Sight::Digits) => go(Action::Head, Stand::Head),
        _ => None,
    }
}

/// The step at what the reader sees, if some file goes on so.
pub fn next(stand: Stand, sight: Sight) -> Option<Step>
    ensures { result ≡ next_at stand sight }
{
    match (stand, sight) {
        (Stand::Start, Sight::Ops) => go(Action::Plain, Stand::Ops),
        (Stand::Ops, Sight::Name | Sight::Digits) => go(Action::OpName, Stand::OpName),
        (Stand::Ops, Sight::Automaton) => go(Action::Plain, Stand::Automaton),
        (Stand::OpName, Sight::Colon) => go(Action::Plain, Stand::OpColon),
        (Stand::OpColon, Sight::Digits) => go(Action::OpRank, Stand::Ops),
        (Stand::Automaton, Sight::Name | Sight::Digits) => go(Action::Title, Stand::Title),
        (Stand::Automaton | Stand::Title, Sight::States) => {
            go(Action::Plain, Stand::In(Part::States))
        }
        (Stand::Final, Sight::States) => go(Action::Plain, Stand::In(Part::Finals)),
        (Stand::Head, Sight::Open) => go(Action::Plain, Stand::Open),
        (Stand::Head | Stand::Close, Sight::Pointer) => go(Action::Arrow, Stand::Pointer),
        (Stand::Open | Stand::Comma, Sight::Name | Sight::Digits) => {
            go(Action::Kid, Stand::Named(Part::Kids))
        }
        (Stand::Open, Sight::Close) => go(Action::Plain, Stand::Close),
        (Stand::Pointer, Sight::Name | Sight::Digits) => {
            go(Action::Parent, Stand::Named(Part::Rules))
        }
        (Stand::Named(part), Sight::Colon) => go(Action::Plain, Stand::Colon(part)),
        (Stand::Colon(part), Sight::Digits) => go(Action::Plain, Stand::In(part)),
        (Stand::In(part) | Stand::Named(part), sight) => next_in(part, sight),
        _ => None,
    }
}

/// Whether a file may end here.
pub fn may_end(stand: Stand) -> bool
    ensures { IsTrue result ↔ IsEnding stand }
{
    matches!(stand, Stand::In(Part::Rules) | Stand::Named(Part::Rules))
}
