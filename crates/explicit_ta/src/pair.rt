//! Two automata over joint places, with the rules of both by parent.

ghost use Rattle.std.specs.Prelude.{◌≡◌, ◌≢◌, ◌<◌, ◌≤◌, ◌+◌, ℕ, All, AllPairs, IfOk, IsErrOf, length, map, slice_index, ◌++◌};
ghost use Rattle.tree_definitions.specs.Canonical.{canon};
ghost use Rattle.tree_definitions.specs.Joint.{joint_symbols};
ghost use Rattle.std.specs.List.{AllZip};
ghost use Rattle.tree_definitions.specs.Relation.{IsAt};
ghost use Rattle.ranked_alphabet.specs.Alphabets.{IsAlphabet};
ghost use Rattle.ta_model.specs.Pairing.{ArePaired, FitTogether};
ghost use Rattle.explicit_ta.specs.Index.{AreRulesOf};
ghost use Rattle.explicit_ta.specs.Pair.{AreParts, IsUpEncoding, joint_rules};

use crate::by_kids::ByKids;
use crate::down_groups::down_groups_at;
use crate::downward::{classes_at, clusters_of};
use crate::explicit::{Explicit, row_of};
use crate::steps::Steps;
use crate::union::union_of;
use crate::up_groups::groups_at;
use crate::upward::{leads, tuples_from, uses_of};
use bit_rows::Row;
use ranked_alphabet::{Alphabet, AlphabetError};
use shared_clusters::Clusters;
use smallvec::SmallVec;
use std::alloc::{AllocError, Global};
use std::marker::Model;
use ta_model::{
    Class, DownGroup, Joint, Kids, Listed, MacroStore, PairError, Rule, Symbol, UpGroup,
};

/// Two automata as their lists, with the rules of both by joint parent, the left rules by child and
/// by children, and the right rules by joint symbol and first child.
#[derive(Drop)]
pub struct ExplicitPair {
    left: Listed,
    right: Listed,
    symbols: Alphabet,
    places: Vec<u32>,
    clusters: Clusters,
    left_finals: Row,
    right_finals: Row,
    uses: Clusters,
    by_kids: ByKids,
    steps: Steps,
}

impl Model for ExplicitPair {
    ghost use Rattle.explicit_ta.specs.Pair.{Two, IsPairEncoding};

    ghost Value = { Two };

    ghost view = { λ p. record { left = p.left; right = p.right } };

    ghost invariant = { λ p. IsPairEncoding p.left p.right p.symbols p.places.items p.clusters p.left_finals p.right_finals p.uses p.by_kids p.steps };
}

/// The rule over joint places.
fn moved_rule(alloc: Global, rule: &Rule, states: u32, places: &[u32]) -> Result<Rule, AllocError>
    requires symbol { rule.now.symbol < length places.now }
    requires kids { All (λ s. states + s < 4294967296) rule.now.kids }
    requires parent { states + rule.now.parent < 4294967296 }
    ensures { IfOk result (λ r. r ≡ record { symbol = slice_index places.now rule.now.symbol; kids = map (λ s. states + s) rule.now.kids; parent = states + rule.now.parent }) }
{
    let mut kids = SmallVec::new(alloc);
    for s in rule.kids.as_slice() {
        kids.push(states + *s)?;
    }
    Ok(Rule {
        symbol: places[rule.symbol as usize],
        kids,
        parent: states + rule.parent,
    })
}

/// The rules of both over joint places.
pub fn rules_of_both(
    alloc: Global,
    left: &Listed,
    right: &Listed,
    places: &[u32],
) -> Result<Vec<Rule>, AllocError>
    requires together { FitTogether left.now right.now }
    requires places { length places.now ≡ length right.now.symbols }
    ensures { IfOk result (λ v. v.items ≡ joint_rules left.now right.now places.now) }
{
    let states = left.states().len() as u32;
    let mut rules = Vec::from_clones(alloc, left.rules())?;
    let _listed = right.states();
    for rule in right.rules() {
        rules.push(moved_rule(alloc, rule, states, places)?)?;
    }
    Ok(rules)
}

/// The joint symbols, and the joint place of each right one.
fn merged(
    alloc: Global,
    left: &[Symbol],
    right: &[Symbol],
) -> Result<(Alphabet, Vec<u32>), AlphabetError>
    requires left { IsAlphabet left.now }
    requires right { IsAlphabet right.now }
    ensures symbols { IfOk result (λ r. r.0 ≡ joint_symbols left.now right.now) }
    ensures places { IfOk result (λ r. AllZip (IsAt r.0) r.1.items right.now) }
    ensures few { IfOk result (λ r. length (joint_symbols left.now right.now) ≤ 65535) }
    ensures full { IsErrOf result AlphabetError.Full → 65535 < length (joint_symbols left.now right.now) }
{
    let mine = Alphabet::of(alloc, left)?;
    let theirs = Alphabet::of(alloc, right)?;
    mine.merge(&theirs)
}

/// What the steps upward are answered from: the left rules by child and by children, and the right
/// rules by joint symbol and first child.
#[derive(Drop)]
struct Upward {
    uses: Clusters,
    by_kids: ByKids,
    steps: Steps,
}

/// What the steps upward of the two are answered from.
fn upward_of(left: &Listed, right: &Listed, places: &[u32]) -> Result<Upward, AllocError>
    requires paired { ArePaired left.now right.now }
    requires symbols { All (λ r. r.symbol < length places.now) right.now.rules }
    ensures { IfOk result (λ u. IsUpEncoding left.now right.now places.now u.uses u.by_kids u.steps) }
{
    let alloc = left.allocator();
    let states = left.states().len() as u32;
    let uses = uses_of(alloc, states, left.rules())?;
    let by_kids = ByKids::new(alloc, left.rules())?;
    let steps = Steps::of(alloc, right.rules(), places)?;
    Ok(Upward {
        uses,
        by_kids,
        steps,
    })
}

/// The rules of both by joint parent.
fn clusters_of_both(left: &Listed, right: &Listed, places: &[u32]) -> Result<Clusters, AllocError>
    requires paired { ArePaired left.now right.now }
    requires places { length places.now ≡ length right.now.symbols }
    requires parents { All (λ r. r.parent < length left.now.states + length right.now.states) (joint_rules left.now right.now places.now) }
    ensures { IfOk result (λ t. AreRulesOf t (length left.now.states + length right.now.states) (joint_rules left.now right.now places.now)) }
{
    let alloc = left.allocator();
    let states = left.states().len() as u32 + right.states().len() as u32;
    let rules = rules_of_both(alloc, left, right, places)?;
    clusters_of(alloc, states, &rules)
}

/// What a pair keeps beside its lists.
#[derive(Drop)]
struct Parts {
    clusters: Clusters,
    left_finals: Row,
    right_finals: Row,
    upward: Upward,
}

/// What a pair of the two keeps beside its lists.
fn parts_of(left: &Listed, right: &Listed, places: &[u32]) -> Result<Parts, AllocError>
    requires paired { ArePaired left.now right.now }
    requires places { length places.now ≡ length right.now.symbols }
    requires parents { All (λ r. r.parent < length left.now.states + length right.now.states) (joint_rules left.now right.now places.now) }
    requires symbols { All (λ r. r.symbol < length places.now) right.now.rules }
    ensures { IfOk result (λ p. AreParts left.now right.now places.now p.clusters p.left_finals p.right_finals p.upward.uses p.upward.by_kids p.upward.steps) }
{
    let alloc = left.allocator();
    let clusters = clusters_of_both(left, right, places)?;
    let left_finals = row_of(alloc, left.states().len() as u32, left.finals())?;
    let right_finals = row_of(alloc, right.states().len() as u32, right.finals())?;
    let upward = upward_of(left, right, places)?;
    Ok(Parts {
        clusters,
        left_finals,
        right_finals,
        upward,
    })
}

impl ExplicitPair {
    /// The two automata of these lists, over these joint symbols and with these places of the
    /// right ones.
    fn of_lists(
        left: Listed,
        right: Listed,
        symbols: Alphabet,
        places: Vec<u32>,
    ) -> Result<ExplicitPair, AllocError>
        requires paired { ArePaired left right }
        requires symbols { symbols ≡ joint_symbols left.symbols right.symbols }
        requires places { AllZip (IsAt symbols) places.items right.symbols }
        ensures { IfOk result (λ p. p ≡ record { left = left; right = right }) }
    {
        let _distinct = symbols.symbols();
        let parts = parts_of(&left, &right, &places)?;
        Ok(ExplicitPair {
            left,
            right,
            symbols,
            places,
            clusters: parts.clusters,
            left_finals: parts.left_finals,
            right_finals: parts.right_finals,
            uses: parts.upward.uses,
            by_kids: parts.upward.by_kids,
            steps: parts.upward.steps,
        })
    }

    /// The canonical forms of the two in this encoding. `Symbols` where together they have more
    /// than 65,535 symbols.
    pub fn from_listed(a: &Listed, b: &Listed) -> Result<ExplicitPair, PairError>
        requires { FitTogether a.now b.now }
        ensures ok { IfOk result (λ p. p ≡ record { left = canon a.now; right = canon b.now }) }
        ensures few { IfOk result (λ p. length (joint_symbols a.now.symbols b.now.symbols) ≤ 65535) }
        ensures symbols { IsErrOf result PairError.Symbols → 65535 < length (joint_symbols a.now.symbols b.now.symbols) }
    {
        let Ok(left) = a.canon() else {
            return Err(PairError::Memory);
        };
        let Ok(right) = b.canon() else {
            return Err(PairError::Memory);
        };
        let alloc = left.allocator();
        let (symbols, places) = match merged(alloc, left.symbols(), right.symbols()) {
            Ok(both) => both,
            Err(AlphabetError::Full) => return Err(PairError::Symbols),
            Err(AlphabetError::Memory) => return Err(PairError::Memory),
        };
        match ExplicitPair::of_lists(left, right, symbols, places) {
            Ok(pair) => Ok(pair),
            Err(_) => Err(PairError::Memory),
        }
    }
}

impl Joint for ExplicitPair {
    type One = Explicit;

    ghost left = { λ p. p.left };

    ghost right = { λ p. p.right };

    ghost nodes = { λ _. 0 };

    fn nodes(&self) -> usize {
        0
    }

    fn bits(&self) -> u8 {
        let _left = self.left.rules();
        let _right = self.right.rules();
        0
    }

    fn sizes(&self) -> (u32, u32) {
        (
            self.left.states().len() as u32,
            self.right.states().len() as u32,
        )
    }

    fn symbols(&self) -> &[Symbol] {
        self.symbols.symbols()
    }

    fn left_final(&self, q: u32) -> bool {
        self.left_finals.get(q as usize)
    }

    fn right_final(&self, s: u32) -> bool {
        self.right_finals.get(s as usize)
    }

    fn classes(&self, x: u32, y: u32) -> Result<Vec<Class>, AllocError> {
        let _distinct = self.symbols.symbols();
        classes_at(self.left.allocator(), &self.clusters, x, y)
    }

    fn kids_with(&self, q: u32) -> Result<Vec<Kids>, AllocError> {
        let _listed = self.left.rules();
        tuples_from(self.left.allocator(), &self.uses, q)
    }

    fn up_groups(
        &mut self,
        kids: &[u32],
        sets: &[usize],
        store: &mut MacroStore,
    ) -> Result<Vec<UpGroup>, AllocError> {
        let alloc = self.left.allocator();
        let _left = self.left.rules();
        let _right = self.right.rules();
        let _distinct = self.symbols.symbols();
        let pairs = leads(alloc, &self.by_kids, kids)?;
        groups_at(alloc, &pairs, &self.steps, sets, store)
    }

    fn down_groups(
        &mut self,
        q: u32,
        set: usize,
        store: &MacroStore,
    ) -> Result<Vec<DownGroup>, AllocError> {
        let alloc = self.left.allocator();
        let states = self.left.states().len() as u32;
        let _right = self.right.rules();
        let _distinct = self.symbols.symbols();
        down_groups_at(alloc, &self.clusters, states, q, store.row(set))
    }

    fn joined(&self) -> Result<Explicit, AllocError> {
        let clusters = self.clusters.share()?;
        let list = union_of(
            &self.left,
            &self.right,
            self.symbols.symbols(),
            &self.places,
        )?;
        Explicit::with_clusters(list, clusters)
    }

    fn listed(&self) -> Result<(Listed, Listed), AllocError> {
        let left = self.left.canon()?;
        let right = self.right.canon()?;
        let _left = left.rules();
        let _right = right.rules();
        Ok((left, right))
    }
}
