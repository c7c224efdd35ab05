//! What the reader has listed so far, and how each token is taken into it.

ghost use Rattle.std.specs.Prelude.{◌≡◌, ◌<◌, ◌≤◌, true, codes, min, unwrap_or, length, bytes_eq, All, IfOk, IfSome, OnOk, IsErrOf};
ghost use Rattle.std.specs.Ordering.{eq_by_cmp};
ghost use Rattle.std.specs.Str.Parse.{digits_value};
ghost use Rattle.tree_definitions.specs.Name.{IsName};
ghost use Rattle.tree_definitions.specs.Canonical.{rule_cmp};
ghost use Rattle.tree_definitions.specs.Relation.{IsAt};
ghost use Rattle.tree_definitions.specs.Joint.{same_symbol};
ghost use Rattle.ta_model.specs.Listing.{IsListed};
ghost use Rattle.timbuk_definitions.specs.Grammar.{are_digits};
ghost use Rattle.timbuk_definitions.specs.Place.{IsFull};
ghost use Rattle.timbuk_text.specs.Rules.{Puts, rules_in};
ghost use Rattle.timbuk_text.specs.Store.{store_of, empty};
ghost use Rattle.timbuk_text.specs.Reading.{automaton_of};
ghost use Rattle.timbuk_text.specs.Taking.{Interns, InternsBy, IsFullBy, line_read};

use crate::error::Counted;
use crate::rules::RuleLines;
use crate::table::Action;
use indexmap::IndexSet;
use std::alloc::{AllocError, AllocFailed, Global};
use std::hash::{BuildHasherDefault, DefaultHasher, Hash};
use ta_model::{Kids, Listed, Name, Rule, Symbol};
use word_table::{WordTable, Words};

/// The most bytes of a name.
const NAME_BYTES: usize = 1_000;

/// The most children of a symbol.
pub const MOST_RANK: usize = 32;

const MOST_SYMBOLS: usize = 65_535;

const MOST_STATES: usize = 1_000_000;

/// Among so many first symbols one is looked for by its name alone, since most files have few.
const FIRST_SYMBOLS: usize = 8;

/// Values with places from 0, in the order in which they came. A file chooses them, so they are hashed
/// by SipHash.
pub type PlaceSet<T> = IndexSet<T, BuildHasherDefault<DefaultHasher>>;

/// Why a token is not taken.
#[derive(Clone, Copy, Debug)]
pub enum Stop {
    Limit(Counted),
    Memory,
}

impl From<AllocError> for Stop {
    ghost use Rattle.timbuk_text.specs.declared.tables.Stop.TheVariants.{Memory};

    ghost from_gives = { λ _ e. e ≡ Memory };

    fn from(_error: AllocError) -> Stop {
        Stop::Memory
    }
}

impl<T: Drop> From<AllocFailed<T>> for Stop {
    ghost use Rattle.timbuk_text.specs.declared.tables.Stop.TheVariants.{Memory};

    ghost from_gives = { λ _ e. e ≡ Memory };

    fn from(_error: AllocFailed<T>) -> Stop {
        Stop::Memory
    }
}

/// The lists of a file so far, each in the order of first appearance, and the symbol or rule that
/// is being read.
#[derive(Drop)]
pub struct Tables {
    pub title: Option<Name>,
    pub symbols: PlaceSet<Symbol>,
    pub states: WordTable,
    pub finals: PlaceSet<u32>,
    pub rules: RuleLines,
    /// The name that began it.
    pub head: Vec<u8>,
    /// The places of its children so far.
    pub kids: Kids,
    /// The place of its symbol, once its arrow is read.
    pub symbol: u32,
}

/// The place of the value in the set, where it comes last if it is new.
pub fn intern<T: Eq + Hash + Drop>(
    set: &mut PlaceSet<T>,
    value: T,
    most: usize,
    what: Counted,
) -> Result<u32, Stop>
    requires few { length set.old.keys ≤ most }
    requires small { most ≤ 4294967295 }
    ensures ok { IfOk result (InternsBy T.eq most set.old.keys set.new.keys value) }
    ensures stop { (which : Counted) → IsErrOf result (Stop.Limit which) → (which ≡ what) × IsFullBy T.eq most set.old.keys value }
{
    if set.len() >= most && !set.contains(&value) {
        return Err(Stop::Limit(what));
    }
    match set.insert_full(value) {
        Ok((place, _)) => Ok(place as u32),
        Err(_) => Err(Stop::Memory),
    }
}

/// The place of the symbol, if it is one of the first ones.
fn place_among_first(symbols: &PlaceSet<Symbol>, name: &[u8], rank: u8) -> Option<u32>
    ensures { IfSome result (λ place. IsAt symbols.now.keys place (record { name = name.now; rank = rank })) }
{
    for place in 0..symbols.len().min(FIRST_SYMBOLS) {
        let symbol = symbols.get_index(place).unwrap();
        if symbol.rank == rank && symbol.name.bytes() == name {
            return Some(place as u32);
        }
    }
    None
}

pub fn check_name(word: &[u8]) -> Result<(), Stop>
    ensures ok { OnOk result (length word.now ≤ 1000) }
    ensures stop { (which : Counted) → IsErrOf result (Stop.Limit which) → (which ≡ Counted.Names) × (1000 < length word.now) }
{
    if word.len() > NAME_BYTES {
        return Err(Stop::Limit(Counted::Names));
    }
    Ok(())
}

/// The value of the digits, or 33 where it is more.
pub fn rank_of(digits: &[u8]) -> u8
    requires { are_digits digits.now ≡ true }
    ensures { result ≡ min (digits_value 10 digits.now) 33 }
{
    let mut rank: u8 = 0;
    for digit in digits {
        let next = rank as u32 * 10 + (*digit - b'0') as u32;
        rank = next.min(33) as u8;
    }
    rank
}

/// The values of the set, in their order.
pub fn list_of<T: Eq + Hash + Drop>(alloc: Global, set: PlaceSet<T>) -> Result<Vec<T>, AllocError>
    ensures { IfOk result (λ v. v.items ≡ set.keys) }
{
    Vec::from_iter(alloc, set)
}

/// The words as names.
fn names_of(alloc: Global, words: &Words) -> Result<Vec<Name>, AllocError>
    requires { All IsName words.now }
    ensures { IfOk result (λ v. v.items ≡ words.now) }
{
    let mut names = Vec::with_capacity(alloc, words.len())?;
    for place in 0..words.len() {
        let name = Name::known(alloc, words.word(place as u32))?;
        names.push(name)?;
    }
    Ok(names)
}

/// The automaton's name, or the one that it has where the file gives none.
fn title_or_anonymous(alloc: Global, title: Option<Name>) -> Result<Name, AllocError>
    ensures { IfOk result (λ name. name ≡ unwrap_or title (codes "anonymous")) }
{
    match title {
        Some(name) => Ok(name),
        None => Name::known(alloc, b"anonymous"),
    }
}

impl Tables {
    pub fn new(alloc: Global) -> Tables
        ensures { store_of result ≡ empty }
    {
        Tables {
            title: None,
            symbols: IndexSet::with_hasher(alloc, BuildHasherDefault::new()),
            states: WordTable::new(alloc),
            finals: IndexSet::with_hasher(alloc, BuildHasherDefault::new()),
            rules: RuleLines::new(alloc),
            head: Vec::new(alloc),
            kids: Kids::new(alloc),
            symbol: 0,
        }
    }

    pub fn allocator(&self) -> Global {
        *self.head.allocator()
    }

    /// The automaton of the lists.
    pub fn into_listed(self) -> Result<Listed, AllocError>
        requires { IsListed (automaton_of (store_of self)) }
        ensures { IfOk result (λ a. a ≡ automaton_of (store_of self)) }
    {
        let alloc = self.allocator();
        let Tables {
            title,
            symbols,
            states,
            finals,
            rules,
            ..
        } = self;
        let name = title_or_anonymous(alloc, title)?;
        let symbols = list_of(alloc, symbols)?;
        let states = names_of(alloc, states.words())?;
        let finals = list_of(alloc, finals)?;
        let rules = rules.into_list()?;
        Ok(Listed::new(name, symbols, states, finals, rules))
    }

    /// The place of the symbol with the name that is being read.
    pub fn put_symbol(&mut self, rank: u8) -> Result<u32, Stop>
        requires name { IsName self.old.head.items }
        requires few { length self.old.symbols.keys ≤ 65535 }
        ensures ok { IfOk result (Interns same_symbol 65535 self.old.symbols.keys self.new.symbols.keys (record { name = self.old.head.items; rank = rank })) }
        ensures rest { store_of self.new ≡ record (store_of self.old) { symbols = self.new.symbols.keys } }
        ensures stop { (which : Counted) → IsErrOf result (Stop.Limit which) →
            (which ≡ Counted.Symbols) × IsFull 65535 self.old.symbols.keys (record { name = self.old.head.items; rank = rank }) }
    {
        if let Some(place) = place_among_first(&self.symbols, &self.head, rank) {
            return Ok(place);
        }
        let name = Name::known(self.allocator(), &self.head)?;
        intern(
            &mut self.symbols,
            Symbol { name, rank },
            MOST_SYMBOLS,
            Counted::Symbols,
        )
    }

    /// The place of the state with this name.
    pub fn put_state(&mut self, word: &[u8]) -> Result<u32, Stop>
        requires few { length self.old.states ≤ 1000000 }
        requires short { length word.now ≤ 1000 }
        ensures ok { IfOk result (Interns bytes_eq 1000000 self.old.states self.new.states word.now) }
        ensures rest { store_of self.new ≡ record (store_of self.old) { states = self.new.states } }
        ensures stop { (which : Counted) → IsErrOf result (Stop.Limit which) →
            (which ≡ Counted.States) × IsFull 1000000 self.old.states word.now }
    {
        if self.states.len() < MOST_STATES {
            return Ok(self.states.intern(word)?);
        }
        match self.states.find(word) {
            Some(place) => Ok(place),
            None => Err(Stop::Limit(Counted::States)),
        }
    }

    /// The rule that is being read, with this parent.
    pub fn put_rule(&mut self, parent: u32) -> Result<(), Stop>
        requires few { length (rules_in self.old.rules) ≤ 2000000 }
        ensures ok { OnOk result (Puts (rules_in self.old.rules) (rules_in self.new.rules) (line_read (store_of self.old) parent)) }
        ensures rest { store_of self.new ≡ record (store_of self.old) { rules = rules_in self.new.rules } }
        ensures stop { (which : Counted) → IsErrOf result (Stop.Limit which) →
            (which ≡ Counted.Rules) × IsFull 2000000 (rules_in self.old.rules) (line_read (store_of self.old) parent) }
    {
        let kids = Kids::from_slice(self.allocator(), self.kids.as_slice())?;
        let rule = Rule {
            symbol: self.symbol,
            kids,
            parent,
        };
        self.rules.put(rule)
    }

    pub fn set_head(&mut self, word: &[u8]) -> Result<(), Stop>
        ensures ok { OnOk result (store_of self.new ≡ record (store_of self.old) { head = word.now }) }
        ensures stop { (which : Counted) → IsErrOf result (Stop.Limit which) → ⊥ }
    {
        self.head.clear();
        self.head.extend_from_slice(word)?;
        Ok(())
    }
}
