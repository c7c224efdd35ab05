//! Names of automata, symbols and states.

ghost use Rattle.std.specs.Prelude.{◌≡◌, IfOk, IsErrOf, IsTrue, false, ◌↔◌};
ghost use Rattle.std.specs.List.{list_all};
ghost use Rattle.tree_definitions.specs.Name.{IsName, has_arrow, is_name, is_name_byte, is_section_word};

use smallvec::SmallVec;
use std::alloc::{AllocError, Global};
use std::cmp::Ordering;
use std::hash::{Hash, Hasher};
use std::marker::Model;

/// Why bytes give no name.
#[derive(Clone, Copy, Debug, PartialEq, Eq)]
pub enum NameError {
    /// They are not a name.
    Bad,
    Memory,
}

/// A name: a word that opens no section of a file. It is seen as its bytes, of which up to 16 stand
/// inline.
#[derive(Debug, Drop)]
pub struct Name {
    bytes: SmallVec<u8, 16, Global>,
}

impl Model for Name {
    ghost use Rattle.std.specs.Prelude.{ℕ, List};
    ghost use Rattle.tree_definitions.specs.Name.{IsName};

    ghost Value = { List ℕ };

    ghost view = { λ n. n.bytes.items };

    ghost invariant = { λ n. IsName n.bytes.items };
}

fn holds_arrow(bytes: &[u8]) -> bool
    ensures { result ≡ has_arrow bytes.now }
{
    let mut rest = bytes;
    while let [_, after @ ..] = rest {
        if rest.starts_with(b"->") {
            return true;
        }
        rest = after;
    }
    false
}

#[tactic(auto, unfolding(tree_definitions::specs::Name::is_section_word))]
fn opens_section(bytes: &[u8]) -> bool
    ensures { result ≡ is_section_word bytes.now }
{
    bytes == b"Ops".as_slice()
        || bytes == b"Automaton".as_slice()
        || bytes == b"States".as_slice()
        || bytes == b"Final".as_slice()
        || bytes == b"Transitions".as_slice()
}

fn may_stand_in_name(byte: u8) -> bool
    ensures { result ≡ is_name_byte byte }
{
    33 <= byte && byte <= 126 && byte != b'(' && byte != b')' && byte != b',' && byte != b':'
}

fn may_all_stand(bytes: &[u8]) -> bool
    ensures { result ≡ list_all is_name_byte bytes.now }
{
    bytes.iter().all(|b| may_stand_in_name(*b))
}

fn are_name(bytes: &[u8]) -> bool
    ensures { result ≡ is_name bytes.now }
{
    if bytes.is_empty() {
        return false;
    }
    if !may_all_stand(bytes) {
        return false;
    }
    if holds_arrow(bytes) {
        return false;
    }
    !opens_section(bytes)
}

impl Name {
    /// The name with these bytes.
    pub fn of(alloc: Global, bytes: &[u8]) -> Result<Name, NameError>
        ensures ok { IfOk result (λ name. name ≡ bytes.now) }
        ensures bad { IsErrOf result NameError.Bad ↔ (is_name bytes.now ≡ false) }
    {
        if !are_name(bytes) {
            return Err(NameError::Bad);
        }
        match SmallVec::from_slice(alloc, bytes) {
            Ok(bytes) => Ok(Name { bytes }),
            Err(_) => Err(NameError::Memory),
        }
    }

    /// The name with these bytes, which are known to be one.
    pub fn known(alloc: Global, bytes: &[u8]) -> Result<Name, AllocError>
        requires { IsName bytes.now }
        ensures { IfOk result (λ name. name ≡ bytes.now) }
    {
        Ok(Name {
            bytes: SmallVec::from_slice(alloc, bytes)?,
        })
    }

    pub fn bytes(&self) -> &[u8]
        ensures value { result.now ≡ self.now }
        ensures name { IsName self.now }
    {
        self.bytes.as_slice()
    }
}

impl PartialEq for Name {
    ghost use Rattle.std.specs.Cmp.{partial_equiv_from_equiv};
    ghost use Rattle.std.specs.Prelude.{bytes_eq};
    ghost use Rattle.std.specs.Cmp.Lexicographic.{nat_list_eq_equiv};

    ghost eq = { bytes_eq };

    ghost laws = { partial_equiv_from_equiv nat_list_eq_equiv };

    fn eq(&self, other: &Name) -> bool {
        self.bytes.as_slice() == other.bytes.as_slice()
    }
}

impl Eq for Name {
    ghost use Rattle.std.specs.Cmp.Lexicographic.{nat_list_eq_equiv};

    ghost laws = { nat_list_eq_equiv };
}

impl PartialOrd for Name {
    ghost use Rattle.std.specs.Prelude.{Some};
    ghost use Rattle.std.specs.Ordering.{nat_cmp};
    ghost use Rattle.std.specs.Cmp.Lexicographic.{slice_cmp, texts_po};

    ghost partial_cmp = { λ a b. Some (slice_cmp nat_cmp a b) };

    ghost laws = { texts_po };

    fn partial_cmp(&self, other: &Name) -> Option<Ordering> {
        Some(self.cmp(other))
    }
}

impl Ord for Name {
    ghost use Rattle.std.specs.Prelude.{refl};
    ghost use Rattle.std.specs.Ordering.{nat_cmp};
    ghost use Rattle.std.specs.Cmp.Lexicographic.{slice_cmp, nat_list_cmp_total, texts_ties};

    ghost cmp = { slice_cmp nat_cmp };

    ghost total = { nat_list_cmp_total };

    ghost matches_partial_cmp = { λ a b. refl };

    ghost matches_eq = { texts_ties };

    fn cmp(&self, other: &Name) -> Ordering {
        self.bytes.as_slice().cmp(other.bytes.as_slice())
    }
}

impl Hash for Name {
    ghost use Rattle.std.specs.Hash as fed;
    ghost use Rattle.std.specs.Cmp.Rules.{hashing};
    ghost use Rattle.std.proofs.Common.{rules};

    ghost hash_input = { fed.slice fed.u8 };

    ghost respects_eq = { Prim.search (hashing, rules) };

    fn hash<H: Hasher>(&self, state: &mut H) {
        self.bytes.as_slice().hash(state);
    }
}

impl Clone for Name {
    ghost is_clone = { λ a b. b ≡ a };

    fn clone(&self) -> Result<Name, AllocError> {
        Ok(Name {
            bytes: SmallVec::from_slice(*self.bytes.allocator(), self.bytes.as_slice())?,
        })
    }
}
