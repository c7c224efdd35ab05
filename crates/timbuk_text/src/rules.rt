//! The rules of a file so far.

ghost use Rattle.std.specs.Prelude.{◌≡◌, ◌≤◌, [], length, IfOk, OnOk, IsErrOf};
ghost use Rattle.std.specs.Ordering.{eq_by_cmp};
ghost use Rattle.tree_definitions.specs.Canonical.{rule_cmp};
ghost use Rattle.timbuk_definitions.specs.Place.{IsFull};
ghost use Rattle.timbuk_definitions.specs.Reading.{first};
ghost use Rattle.timbuk_text.specs.Rules.{Puts, rules_in};

use crate::error::Counted;
use crate::tables::{PlaceSet, Stop, intern, list_of};
use indexmap::IndexSet;
use rule_order::may_repeat;
use std::alloc::{AllocError, Global};
use std::hash::BuildHasherDefault;
use std::mem::replace;
use ta_model::Rule;

/// The most rules of a file.
const MOST_RULES: usize = 2_000_000;

/// The rules of a file, each at its first place. As long as there are no more lines than a file may
/// have rules, they are only listed, since in most files no rule comes twice.
#[derive(Drop)]
pub struct RuleLines {
    lines: Vec<Rule>,
    distinct: Option<PlaceSet<Rule>>,
}

/// The rules of the lines, each once.
fn distinct_of(alloc: Global, lines: Vec<Rule>) -> Result<PlaceSet<Rule>, AllocError>
    ensures { IfOk result (λ set. set.keys ≡ first (eq_by_cmp rule_cmp) lines.items) }
{
    let mut set = IndexSet::with_hasher(alloc, BuildHasherDefault::new());
    for rule in lines {
        let Ok(_) = set.insert(rule) else {
            return Err(AllocError);
        };
    }
    Ok(set)
}

/// The rules of the lines, each once.
fn without_repeats(alloc: Global, lines: Vec<Rule>) -> Result<Vec<Rule>, AllocError>
    ensures { IfOk result (λ v. v.items ≡ first (eq_by_cmp rule_cmp) lines.items) }
{
    if may_repeat(alloc, &lines)? {
        let set = distinct_of(alloc, lines)?;
        return list_of(alloc, set);
    }
    Ok(lines)
}

/// Puts a rule into the set.
fn put_into(set: &mut PlaceSet<Rule>, rule: Rule) -> Result<(), Stop>
    requires few { length set.old.keys ≤ 2000000 }
    ensures ok { OnOk result (Puts set.old.keys set.new.keys rule) }
    ensures stop { (which : Counted) → IsErrOf result (Stop.Limit which) → (which ≡ Counted.Rules) × IsFull 2000000 set.old.keys rule }
{
    intern(set, rule, MOST_RULES, Counted::Rules)?;
    Ok(())
}

impl RuleLines {
    pub fn new(alloc: Global) -> RuleLines
        ensures { rules_in result ≡ [] }
    {
        RuleLines {
            lines: Vec::new(alloc),
            distinct: None,
        }
    }

    /// Puts a rule behind the others, if it is none of them.
    pub fn put(&mut self, rule: Rule) -> Result<(), Stop>
        requires few { length (rules_in self.old) ≤ 2000000 }
        ensures ok { OnOk result (Puts (rules_in self.old) (rules_in self.new) rule) }
        ensures stop { (which : Counted) → IsErrOf result (Stop.Limit which) → (which ≡ Counted.Rules) × IsFull 2000000 (rules_in self.old) rule }
    {
        if let Some(set) = &mut self.distinct {
            return put_into(set, rule);
        }
        if self.lines.len() < MOST_RULES {
            self.lines.push(rule)?;
            return Ok(());
        }
        let alloc = *self.lines.allocator();
        let lines = replace(&mut self.lines, Vec::new(alloc));
        let mut set = distinct_of(alloc, lines)?;
        put_into(&mut set, rule)?;
        self.distinct = Some(set);
        Ok(())
    }

    /// The rules in their order.
    pub fn into_list(self) -> Result<Vec<Rule>, AllocError>
        ensures { IfOk result (λ v. v.items ≡ rules_in self) }
    {
        let RuleLines { lines, distinct } = self;
        let alloc = *lines.allocator();
        match distinct {
            Some(set) => list_of(alloc, set),
            None => without_repeats(alloc, lines),
        }
    }
}
