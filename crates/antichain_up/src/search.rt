//! The search itself.

ghost use Rattle.std.specs.Prelude.{◌≡◌, ◌≢◌, ◌<◌, ◌≤◌, ◌+◌, ◌*◌, ◌^◌, ◌↔◌, ◌⊎◌, ℕ, [], false, IfOk, IsTrue, All, Contains, length, map, take};
ghost use Rattle.tree_definitions.specs.Automaton.{IsState};
ghost use Rattle.tree_definitions.specs.Cover.{Rejects};
ghost use Rattle.tree_definitions.specs.Relation.{Has, Holds, IsAt, IsSquare};
ghost use Rattle.tree_definitions.specs.Simulation.{IsUp};
ghost use Rattle.tree_definitions.specs.UpTrail.{IsUpStep};
ghost use Rattle.ta_model.specs.Macrostates.{row_at};
ghost use Rattle.upward_search.specs.Search.{IsOrder, IsKeptOver, IsClosed};
ghost use Rattle.certificate_kinds.specs.Answers.{IsDecided, IsUpAnswer};
ghost use Rattle.antichain_up.specs.Entries.{AreCandidates, Kept, up_entry};
ghost use Rattle.antichain_up.specs.Orders.{IsUpOrder};
ghost use Rattle.antichain_up.specs.SearchState.{AreGiven, IsGoing, IsAfter, WhenGoing, Moves, ArePicked, StepsFrom, Handles, HandlesAll, IsLast, entries_of};

use crate::entries::Entries;
use crate::orders::Orders;
use bit_matrix::Matrix;
use certificate_kinds::Certificate;
use std::alloc::{AllocError, Global};
use ta_model::{Joint, MacroStore};

/// The entries with their sets. Those before `next` are done or taken out.
#[derive(Drop)]
struct Search {
    store: MacroStore,
    entries: Entries,
    next: usize,
}

/// How a search stands.
#[derive(Clone, Copy)]
enum Progress {
    Going,
    /// The last entry rejects.
    Rejected,
    /// The budget is passed.
    Full,
}

/// Whether the state is final on the left, and no member of the set on the right.
fn rejects<J: Joint>(j: &J, store: &MacroStore, state: u32, set: usize) -> bool
    requires state { IsState (J.left j.now) state }
    requires stored { set < length store.now.rows }
    requires wide { store.now.states ≡ length (J.right j.now).states }
    ensures { IsTrue result ↔ Rejects (J.left j.now) (J.right j.now) (record { state = state; set = row_at store.now set }) }
{
    if !j.left_final(state) {
        return false;
    }
    // The number of states tells the proof that a place fits.
    let _states = j.sizes();
    let row = store.row(set);
    let mut from = 0;
    while let Some(s) = row.first_from(from) {
        if j.right_final(s as u32) {
            return false;
        }
        from = s + 1;
    }
    true
}

/// Adds the pair of this state and set unless a kept entry covers it.
fn offer<J: Joint>(
    j: &J,
    search: &mut Search,
    orders: &Orders,
    budget: usize,
    state: u32,
    set: usize,
    symbol: u32,
    kids: &[u32],
) -> Result<Progress, AllocError>
    requires given { AreGiven (J.left j.now) (J.right j.now) orders.now budget }
    requires going { IsGoing (J.left j.now) (J.right j.now) orders.now budget search.old }
    requires stored { set < length search.old.store.rows }
    requires is_step { IsUpStep (J.left j.now) (J.right j.now) (entries_of search.old) (length search.old.entries.rows)
        (up_entry search.old.store (record { state = state; set = set; symbol = symbol; kids = kids.now })) }
    ensures after { IfOk result (λ p. IsAfter (J.left j.now) (J.right j.now) orders.now budget p search.new) }
    ensures moves { IfOk result (λ p. Moves search.old search.new) }
    ensures store { IfOk result (λ p. search.new.store ≡ search.old.store) }
    ensures covered { IfOk result (λ p. IsKeptOver (Holds orders.now.left) (Holds orders.now.right)
        (entries_of search.new) (Kept search.new.entries) state (Has (row_at search.old.store set))) }
{
    if search.entries.is_covered(orders, &search.store, state, set) {
        return Ok(Progress::Going);
    }
    search
        .entries
        .add(orders, &search.store, state, set, symbol, kids)?;
    if rejects(j, &search.store, state, set) {
        return Ok(Progress::Rejected);
    }
    if search.entries.len() > budget {
        return Ok(Progress::Full);
    }
    Ok(Progress::Going)
}

/// Offers each step from the chosen entries, which have these states and these sets.
fn step<J: Joint>(
    j: &mut J,
    search: &mut Search,
    orders: &Orders,
    budget: usize,
    kids: &[u32],
    chosen: &[u32],
    sets: &[usize],
) -> Result<Progress, AllocError>
    requires given { AreGiven (J.left j.old) (J.right j.old) orders.now budget }
    requires going { IsGoing (J.left j.old) (J.right j.old) orders.now budget search.old }
    requires picked { ArePicked search.old kids.now chosen.now sets.now (length kids.now) }
    requires many_chosen { length chosen.now ≡ length kids.now }
    requires many_sets { length sets.now ≡ length kids.now }
    ensures left { J.left j.new ≡ J.left j.old }
    ensures right { J.right j.new ≡ J.right j.old }
    ensures nodes { J.nodes j.new ≡ J.nodes j.old }
    ensures after { IfOk result (λ p. IsAfter (J.left j.old) (J.right j.old) orders.now budget p search.new) }
    ensures moves { IfOk result (λ p. Moves search.old search.new) }
    ensures stepped { IfOk result (λ p. WhenGoing p
        (StepsFrom (J.left j.old) (J.right j.old) orders.now search.new kids.now chosen.now)) }
{
    let groups = j.up_groups(kids, sets, &mut search.store)?;
    // The number of sets tells the proof that each is a row over the states.
    let _sets = search.store.len();
    'groups: for group in &groups {
        'parents: for parent in &group.parents {
            match offer(
                &*j,
                search,
                orders,
                budget,
                *parent,
                group.set,
                group.symbol,
                chosen,
            )? {
                Progress::Going => {}
                stop => return Ok(stop),
            }
        }
    }
    Ok(Progress::Going)
}

/// Whether `e` stands among the chosen, with one more.
fn is_there(has: bool, k: u32, e: u32) -> bool
    ensures { IsTrue result ↔ (IsTrue has ⊎ (k ≡ e)) }
{
    has || k == e
}

/// Whether the entry can come next: at the last place for `e` nothing else can where it still lacks.
fn is_wanted(has: bool, place: usize, last: usize, k: u32, e: u32) -> bool
    ensures yes { IsTrue has → IsTrue result }
    ensures only { result ≡ false → (has ≡ false) × (place ≡ last) × (k ≢ e) }
{
    has || place != last || k == e
}

/// Steps from all tuples of candidates that begin with the chosen entries and contain `e`.
fn choose<J: Joint>(
    j: &mut J,
    search: &mut Search,
    orders: &Orders,
    budget: usize,
    kids: &[u32],
    lists: &[Vec<u32>],
    last: usize,
    e: u32,
    place: usize,
    has: bool,
    chosen: &mut [u32],
    sets: &mut [usize],
) -> Result<Progress, AllocError>
    requires given { AreGiven (J.left j.old) (J.right j.old) orders.now budget }
    requires going { IsGoing (J.left j.old) (J.right j.old) orders.now budget search.old }
    requires lists { AreCandidates search.old.entries search.old.next kids.now (map (λ l. l.items) lists.now) }
    requires many { length lists.now ≡ length kids.now }
    requires many_chosen { length chosen.old ≡ length kids.now }
    requires many_sets { length sets.old ≡ length kids.now }
    requires place { place ≤ length kids.now }
    requires picked { ArePicked search.old kids.now chosen.old sets.old place }
    requires has { IsTrue has ↔ Contains (take place chosen.old) e }
    requires last { IsLast search.old kids.now e last }
    requires entry { e < length search.old.entries.rows }
    ensures left { J.left j.new ≡ J.left j.old }
    ensures right { J.right j.new ≡ J.right j.old }
    ensures nodes { J.nodes j.new ≡ J.nodes j.old }
    ensures after { IfOk result (λ p. IsAfter (J.left j.old) (J.right j.old) orders.now budget p search.new) }
    ensures moves { IfOk result (λ p. Moves search.old search.new) }
    ensures chosen { IfOk result (λ p. take place chosen.new ≡ take place chosen.old) }
    ensures sets { IfOk result (λ p. take place sets.new ≡ take place sets.old) }
    ensures handled { IfOk result (λ p. WhenGoing p
        (Handles (J.left j.old) (J.right j.old) orders.now search.new kids.now e (take place chosen.old))) }
{
    if place == kids.len() {
        return step(j, search, orders, budget, kids, chosen, sets);
    }
    'candidates: for k in &lists[place] {
        if is_wanted(has, place, last, *k, e) {
            chosen[place] = *k;
            sets[place] = search.entries.set(*k);
            let has_now = is_there(has, *k, e);
            match choose(
                j,
                search,
                orders,
                budget,
                kids,
                lists,
                last,
                e,
                place + 1,
                has_now,
                chosen,
                sets,
            )? {
                Progress::Going => {}
                stop => return Ok(stop),
            }
        }
    }
    Ok(Progress::Going)
}

/// The last place of the state.
fn last_place(kids: &[u32], state: u32) -> usize
    ensures { (i q : ℕ) → result < i → IsAt kids.now i q → q ≢ state }
{
    let mut last = 0;
    for (i, kid) in kids.iter().enumerate() {
        if *kid == state {
            last = i;
        }
    }
    last
}

/// So many zeros.
fn zeros(alloc: Global, n: usize) -> Result<(Vec<u32>, Vec<usize>), AllocError>
    ensures chosen { IfOk result (λ both. length both.0.items ≡ n) }
    ensures sets { IfOk result (λ both. length both.1.items ≡ n) }
{
    let mut chosen = Vec::with_capacity(alloc, n)?;
    let mut sets = Vec::with_capacity(alloc, n)?;
    for _ in 0..n {
        chosen.push(0)?;
        sets.push(0)?;
    }
    Ok((chosen, sets))
}

/// Steps from all tuples of entries for these children that contain `e`.
fn combine<J: Joint>(
    j: &mut J,
    search: &mut Search,
    orders: &Orders,
    budget: usize,
    kids: &[u32],
    e: u32,
) -> Result<Progress, AllocError>
    requires given { AreGiven (J.left j.old) (J.right j.old) orders.now budget }
    requires going { IsGoing (J.left j.old) (J.right j.old) orders.now budget search.old }
    requires kids { All (IsState (J.left j.old)) kids.now }
    requires entry { e < length search.old.entries.rows }
    ensures left { J.left j.new ≡ J.left j.old }
    ensures right { J.right j.new ≡ J.right j.old }
    ensures nodes { J.nodes j.new ≡ J.nodes j.old }
    ensures after { IfOk result (λ p. IsAfter (J.left j.old) (J.right j.old) orders.now budget p search.new) }
    ensures moves { IfOk result (λ p. Moves search.old search.new) }
    ensures handled { IfOk result (λ p. WhenGoing p
        (Handles (J.left j.old) (J.right j.old) orders.now search.new kids.now e [])) }
{
    if !search.entries.is_kept(e) {
        return Ok(Progress::Going);
    }
    let state = search.entries.state(e);
    let last = last_place(kids, state);
    let lists = search.entries.candidates(kids, search.next)?;
    let (mut chosen, mut sets) = zeros(*lists.allocator(), kids.len())?;
    choose(
        j,
        search,
        orders,
        budget,
        kids,
        &lists,
        last,
        e,
        0,
        false,
        &mut chosen,
        &mut sets,
    )
}

/// Steps from all tuples of entries that contain `e`.
fn process<J: Joint>(
    j: &mut J,
    search: &mut Search,
    orders: &Orders,
    budget: usize,
    e: u32,
) -> Result<Progress, AllocError>
    requires given { AreGiven (J.left j.old) (J.right j.old) orders.now budget }
    requires going { IsGoing (J.left j.old) (J.right j.old) orders.now budget search.old }
    requires entry { e < length search.old.entries.rows }
    ensures left { J.left j.new ≡ J.left j.old }
    ensures right { J.right j.new ≡ J.right j.old }
    ensures nodes { J.nodes j.new ≡ J.nodes j.old }
    ensures after { IfOk result (λ p. IsAfter (J.left j.old) (J.right j.old) orders.now budget p search.new) }
    ensures moves { IfOk result (λ p. Moves search.old search.new) }
    ensures handled { IfOk result (λ p. WhenGoing p
        (HandlesAll (J.left j.old) (J.right j.old) orders.now search.new e)) }
{
    let state = search.entries.state(e);
    let tuples = j.kids_with(state)?;
    'tuples: for kids in &tuples {
        match combine(j, search, orders, budget, kids.as_slice(), e)? {
            Progress::Going => {}
            stop => return Ok(stop),
        }
    }
    Ok(Progress::Going)
}

/// Steps from the rules without children, and then from each kept entry in turn, until none waits
/// or the search stops.
fn run<J: Joint>(
    j: &mut J,
    search: &mut Search,
    orders: &Orders,
    budget: usize,
) -> Result<Progress, AllocError>
    requires given { AreGiven (J.left j.old) (J.right j.old) orders.now budget }
    requires going { IsGoing (J.left j.old) (J.right j.old) orders.now budget search.old }
    requires none { search.old.next ≡ 0 }
    ensures left { J.left j.new ≡ J.left j.old }
    ensures right { J.right j.new ≡ J.right j.old }
    ensures nodes { J.nodes j.new ≡ J.nodes j.old }
    ensures after { IfOk result (λ p. IsAfter (J.left j.old) (J.right j.old) orders.now budget p search.new) }
    ensures closed { IfOk result (λ p. WhenGoing p
        (IsClosed (J.left j.old) (J.right j.old) (Holds orders.now.left) (Holds orders.now.right)
        (entries_of search.new) (Kept search.new.entries) (Kept search.new.entries))) }
{
    match step(j, search, orders, budget, &[], &[], &[])? {
        Progress::Going => {}
        stop => return Ok(stop),
    }
    'waiting: while search.next < search.entries.len() {
        let e = search.next;
        search.next = e + 1;
        if search.entries.is_kept(e as u32) {
            match process(j, search, orders, budget, e as u32)? {
                Progress::Going => {}
                stop => return Ok(stop),
            }
        }
    }
    Ok(Progress::Going)
}

/// The answer of a search that stands like this.
fn told<J: Joint>(
    j: &J,
    search: &Search,
    orders: &Orders,
    budget: u64,
    progress: Progress,
) -> Result<Certificate, AllocError>
    requires left { IsUpOrder (J.left j.now) orders.now.left }
    requires right { IsUpOrder (J.right j.now) orders.now.right }
    requires some { 1 ≤ budget }
    requires few { budget ≤ 1000000 }
    requires after { IsAfter (J.left j.now) (J.right j.now) orders.now budget progress search.now }
    requires closed { WhenGoing progress
        (IsClosed (J.left j.now) (J.right j.now) (Holds orders.now.left) (Holds orders.now.right)
        (entries_of search.now) (Kept search.now.entries) (Kept search.now.entries)) }
    ensures answer { IfOk result (IsUpAnswer (J.left j.now) (J.right j.now) orders.now.left orders.now.right budget) }
    ensures decided { length (J.left j.now).states * 2 ^ length (J.right j.now).states ≤ budget
        → IfOk result IsDecided }
{
    // The sizes tell the proof that the relations can be written, and that the two are automata.
    let _lefts = orders.left.size();
    let _rights = orders.right.size();
    let _states = j.sizes();
    match progress {
        Progress::Going => {
            let pairs = search.entries.kept_pairs(&search.store)?;
            Ok(Certificate::Up {
                left: orders.left.copy()?,
                right: orders.right.copy()?,
                pairs,
            })
        }
        Progress::Rejected => {
            let nodes = search.entries.tree(j.symbols())?;
            Ok(Certificate::Tree { nodes })
        }
        Progress::Full => {
            let entries = search.entries.trail(&search.store)?;
            Ok(Certificate::UpTrail {
                left: orders.left.copy()?,
                right: orders.right.copy()?,
                budget,
                entries,
            })
        }
    }
}

/// Whether each tree that the left automaton accepts is accepted by the right one: pairs from which
/// this follows, a tree that the left one alone accepts, or a trail, where neither was found within
/// `budget` pairs. `left` and `right` are upward simulations of the two, and are told in the answer.
pub fn includes<J: Joint>(
    alloc: Global,
    j: &mut J,
    left: &Matrix,
    right: &Matrix,
    budget: u64,
) -> Result<Certificate, AllocError>
    requires left { IsUpOrder (J.left j.old) left.now }
    requires right { IsUpOrder (J.right j.old) right.now }
    requires some { 1 ≤ budget }
    requires few { budget ≤ 1000000 }
    ensures left { J.left j.new ≡ J.left j.old }
    ensures right { J.right j.new ≡ J.right j.old }
    ensures nodes { J.nodes j.new ≡ J.nodes j.old }
    ensures answer { IfOk result (IsUpAnswer (J.left j.old) (J.right j.old) left.now right.now budget) }
    ensures decided { length (J.left j.old).states * 2 ^ length (J.right j.old).states ≤ budget
        → IfOk result IsDecided }
{
    let orders = Orders::of(left, right)?;
    let (lefts, rights) = j.sizes();
    let mut search = Search {
        store: MacroStore::new(alloc, rights as usize),
        entries: Entries::new(alloc, lefts)?,
        next: 0,
    };
    let progress = run(j, &mut search, &orders, budget as usize)?;
    told(&*j, &search, &orders, budget, progress)
}
