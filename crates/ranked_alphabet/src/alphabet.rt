//! Symbols with numbers.

ghost use Rattle.std.specs.Prelude.{◌≡◌, ◌↔◌, ◌<◌, [], Some, List, length, slice_get, filter, not, Contains, IfOk, IfSome, IfNone, IsErrOf, OnErr};
ghost use Rattle.std.specs.List.{AllZip, list_any};
ghost use Rattle.tree_definitions.specs.Joint.{joint_symbols, same_symbol};
ghost use Rattle.tree_definitions.specs.Relation.{IsAt};
ghost use Rattle.ranked_alphabet.specs.Alphabets.{IsAlphabet, Interned, Merging};

use indexmap::IndexSet;
use std::alloc::{AllocError, AllocFailed, Global};
use std::hash::{BuildHasherDefault, DefaultHasher};
use std::marker::Model;
use ta_model::Symbol;

/// Why a symbol gets no number.
#[derive(Clone, Copy, Debug, PartialEq, Eq)]
pub enum AlphabetError {
    /// It is new, and there are 65,535 symbols.
    Full,
    Memory,
}

impl From<AllocError> for AlphabetError {
    ghost use Rattle.std.specs.Prelude.{◌≡◌};
    ghost use Rattle.ranked_alphabet.specs.declared.alphabet.AlphabetError.TheVariants.{Memory};

    ghost from_gives = { λ _ e. e ≡ Memory };

    fn from(_error: AllocError) -> AlphabetError {
        AlphabetError::Memory
    }
}

impl From<AllocFailed<u32>> for AlphabetError {
    ghost use Rattle.std.specs.Prelude.{◌≡◌};
    ghost use Rattle.ranked_alphabet.specs.declared.alphabet.AlphabetError.TheVariants.{Memory};

    ghost from_gives = { λ _ e. e ≡ Memory };

    fn from(_refused: AllocFailed<u32>) -> AlphabetError {
        AlphabetError::Memory
    }
}

const MOST_SYMBOLS: usize = 65_535;

/// Symbols, each once, numbered from 0 in the order in which they came. It is seen as their list.
///
/// The symbols are looked up by a hash of their bytes (SipHash with a fixed key).
#[derive(Drop)]
pub struct Alphabet {
    symbols: IndexSet<Symbol, BuildHasherDefault<DefaultHasher>>,
}

impl Model for Alphabet {
    ghost use Rattle.std.specs.Prelude.{List};
    ghost use Rattle.tree_definitions.specs.Tree.{Symbol};
    ghost use Rattle.ranked_alphabet.specs.Alphabets.{IsAlphabet};

    ghost Value = { List Symbol };

    ghost view = { λ a. a.symbols.keys };

    ghost invariant = { λ a. IsAlphabet a.symbols.keys };
}

impl Alphabet {
    /// No symbols.
    pub fn new(alloc: Global) -> Alphabet
        ensures { result ≡ [] }
    {
        Alphabet {
            symbols: IndexSet::with_hasher(alloc, BuildHasherDefault::new()),
        }
    }

    /// The symbols of a list of distinct ones, in its order.
    pub fn of(alloc: Global, symbols: &[Symbol]) -> Result<Alphabet, AlphabetError>
        requires { IsAlphabet symbols.now }
        ensures value { IfOk result (λ a. a ≡ symbols.now) }
        ensures full { IsErrOf result AlphabetError.Full → ⊥ }
    {
        let mut alphabet = Alphabet::new(alloc);
        alphabet.intern_each(alloc, symbols)?;
        Ok(alphabet)
    }

    /// The number of symbols.
    pub fn len(&self) -> u32
        ensures value { result ≡ length self.now }
        ensures alphabet { IsAlphabet self.now }
    {
        self.symbols.len() as u32
    }

    /// The symbols in the order of their numbers.
    pub fn symbols(&self) -> &[Symbol]
        ensures value { result.now ≡ self.now }
        ensures alphabet { IsAlphabet self.now }
    {
        self.symbols.as_slice()
    }

    /// The symbol with the number `i`.
    pub fn symbol(&self, i: u32) -> &Symbol
        requires { i < length self.now }
        ensures value { slice_get self.now i ≡ Some result.now }
        ensures alphabet { IsAlphabet self.now }
    {
        self.symbols.get_index(i as usize).unwrap()
    }

    /// The number of the symbol.
    pub fn find(&self, symbol: &Symbol) -> Option<u32>
        ensures found { IfSome result (λ i. slice_get self.now i ≡ Some symbol.now) }
        ensures none { IfNone result (Contains self.now symbol.now → ⊥) }
        ensures alphabet { IsAlphabet self.now }
    {
        match self.symbols.get_index_of(symbol) {
            Some(i) => Some(i as u32),
            None => None,
        }
    }

    /// The number of the symbol, which comes last if it is new. A refusal leaves the list as before.
    pub fn intern(&mut self, symbol: &Symbol) -> Result<u32, AlphabetError>
        ensures ok { IfOk result (Interned self.old symbol.now self.new) }
        ensures full { IsErrOf result AlphabetError.Full ↔ ((Contains self.old symbol.now → ⊥) × (length self.old ≡ 65535)) }
        ensures err { OnErr result (self.new ≡ self.old) }
        ensures alphabet { IsAlphabet self.new }
    {
        if let Some(i) = self.find(symbol) {
            return Ok(i);
        }
        if self.symbols.len() == MOST_SYMBOLS {
            return Err(AlphabetError::Full);
        }
        let Ok(copy) = symbol.clone() else {
            return Err(AlphabetError::Memory);
        };
        let Ok((i, _)) = self.symbols.insert_full(copy) else {
            return Err(AlphabetError::Memory);
        };
        Ok(i as u32)
    }

    /// How many symbols of the other list this one lacks.
    fn lacked_of(&self, other: &Alphabet) -> usize
        ensures { result ≡ length (filter (λ s. not (list_any (same_symbol s) self.now)) other.now) }
    {
        let theirs = other.symbols.as_slice();
        theirs.iter().filter(|s| !self.symbols.contains(*s)).count()
    }

    /// The number of each symbol in turn, new ones behind the others.
    fn intern_each(&mut self, alloc: Global, symbols: &[Symbol]) -> Result<Vec<u32>, AlphabetError>
        requires before { IsAlphabet self.old }
        requires symbols { IsAlphabet symbols.now }
        ensures merged { IfOk result (λ v. Merging self.old symbols.now (length symbols.now) self.new v.items) }
        ensures full { IsErrOf result AlphabetError.Full → 65535 < length (joint_symbols self.old symbols.now) }
        ensures alphabet { IfOk result (λ _. IsAlphabet self.new) }
    {
        let mut places = Vec::with_capacity(alloc, symbols.len())?;
        for symbol in symbols {
            places.push(self.intern(symbol)?)?;
        }
        Ok(places)
    }

    /// These symbols followed by those of the other list that this one lacks, and the number there
    /// of each symbol of the other list.
    pub fn merge(&self, other: &Alphabet) -> Result<(Alphabet, Vec<u32>), AlphabetError>
        ensures symbols { IfOk result (λ r. r.0 ≡ joint_symbols self.now other.now) }
        ensures places { IfOk result (λ r. AllZip (IsAt r.0) r.1.items other.now) }
        ensures full { IsErrOf result AlphabetError.Full ↔ (65535 < length (joint_symbols self.now other.now)) }
        ensures alphabet { IfOk result (λ r. IsAlphabet r.0) }
    {
        if MOST_SYMBOLS - self.symbols.len() < self.lacked_of(other) {
            return Err(AlphabetError::Full);
        }
        let mut joined = Alphabet {
            symbols: self.symbols.clone()?,
        };
        let places = joined.intern_each(*self.symbols.allocator(), other.symbols())?;
        Ok((joined, places))
    }
}
