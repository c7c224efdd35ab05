//! The text of a budget and entries.

ghost use Rattle.std.specs.Prelude.{◌≡◌, ◌<◌, ◌++◌, ◌∷◌, [], All, OnOk, codes, length};
ghost use Rattle.std.specs.List.{flat_map};
ghost use Rattle.tree_definitions.specs.Automaton.{FitsRule};
ghost use Rattle.listed_pairs.specs.DownEntries.{entries_of, entry_of};
ghost use Rattle.witness_trees.specs.NodesText.{name_at, number_text};
ghost use Rattle.certificate_lines.specs.Pairs.{state_name};
ghost use Rattle.down_entry_lines.specs.Entries.{children_text, down_entries_text, entry_text, rule_text, rule_text_at};
ghost use Rattle.down_entry_lines.specs.Fitting.{IsPrintable};

use certificate_lines::budgets::put_head;
use certificate_lines::pairs::{put_name, put_pair};
use listed_pairs::DownEntry;
use std::alloc::AllocError;
use ta_model::{Listed, Name, Rule, Symbol};
use witness_trees::put_number;

fn put_symbol(out: &mut Vec<u8>, symbols: &[Symbol], place: usize) -> Result<(), AllocError>
    requires { place < length symbols.now }
    ensures { OnOk result (out.new.items ≡ out.old.items ++ name_at symbols.now place) }
{
    let symbol = &symbols[place];
    out.extend_from_slice(symbol.name.bytes())?;
    Ok(())
}

/// The names of further children, each behind a comma.
fn put_others(out: &mut Vec<u8>, names: &[Name], kids: &[u32]) -> Result<(), AllocError>
    requires { All (λ s. s < length names.now) kids.now }
    ensures { OnOk result (out.new.items ≡ out.old.items ++ flat_map (λ s. 44 ∷ state_name names.now s) kids.now) }
{
    for kid in kids {
        out.push(b',')?;
        put_name(out, names, *kid as usize)?;
    }
    Ok(())
}

/// The names of the children, as `(q1,q2)`, and nothing where there is none.
fn put_children(out: &mut Vec<u8>, names: &[Name], kids: &[u32]) -> Result<(), AllocError>
    requires { All (λ s. s < length names.now) kids.now }
    ensures { OnOk result (out.new.items ≡ out.old.items ++ children_text names.now kids.now) }
{
    let Some((first, others)) = kids.split_first() else {
        return Ok(());
    };
    out.push(b'(')?;
    put_name(out, names, *first as usize)?;
    put_others(out, names, others)?;
    out.push(b')')?;
    Ok(())
}

/// The rule's symbol and children.
fn put_rule(out: &mut Vec<u8>, a: &Listed, rule: &Rule) -> Result<(), AllocError>
    requires { FitsRule a.now rule.now }
    ensures { OnOk result (out.new.items ≡ out.old.items ++ rule_text a.now rule.now) }
{
    put_symbol(out, a.symbols(), rule.symbol as usize)?;
    put_children(out, a.states(), rule.kids.as_slice())?;
    Ok(())
}

/// The rule at this place.
fn put_rule_at(out: &mut Vec<u8>, a: &Listed, place: u32) -> Result<(), AllocError>
    requires { place < length a.now.rules }
    ensures { OnOk result (out.new.items ≡ out.old.items ++ rule_text_at a.now place) }
{
    put_rule(out, a, &a.rules()[place as usize])
}

/// The numbers of the places, each behind a space.
fn put_choice(out: &mut Vec<u8>, choice: &[u8]) -> Result<(), AllocError>
    ensures { OnOk result (out.new.items ≡ out.old.items ++ flat_map (λ place. 32 ∷ number_text place) choice.now) }
{
    for place in choice {
        out.push(b' ')?;
        put_number(out, u64::from(*place) + 1)?;
    }
    Ok(())
}

/// The step to a pair from a place of a split.
fn put_child(out: &mut Vec<u8>, split: u32, place: u8) -> Result<(), AllocError>
    ensures { OnOk result (out.new.items ≡ out.old.items ++ (codes " : child " ++ number_text split ++ 32 ∷ number_text place)) }
{
    out.extend_from_slice(b" : child ")?;
    put_number(out, u64::from(split) + 1)?;
    out.push(b' ')?;
    put_number(out, u64::from(place) + 1)?;
    Ok(())
}

/// The split of a pair by the rule at this place.
fn put_split(
    out: &mut Vec<u8>,
    a: &Listed,
    pair: u32,
    rule: u32,
    choice: &[u8],
) -> Result<(), AllocError>
    requires { rule < length a.now.rules }
    ensures { OnOk result (out.new.items ≡ out.old.items ++ (codes "split " ++ number_text pair ++ codes " : " ++ rule_text_at a.now rule ++ codes " :" ++ flat_map (λ place. 32 ∷ number_text place) choice.now)) }
{
    out.extend_from_slice(b"split ")?;
    put_number(out, u64::from(pair) + 1)?;
    out.extend_from_slice(b" : ")?;
    put_rule_at(out, a, rule)?;
    out.extend_from_slice(b" :")?;
    put_choice(out, choice)?;
    Ok(())
}

/// The entry without a line feed.
pub(crate) fn put_entry(
    out: &mut Vec<u8>,
    a: &Listed,
    b: &Listed,
    entry: &DownEntry,
) -> Result<(), AllocError>
    requires { IsPrintable a.now b.now (entry_of entry.now) }
    ensures { OnOk result (out.new.items ≡ out.old.items ++ entry_text a.now b.now (entry_of entry.now)) }
{
    match entry {
        DownEntry::Root { pair } => {
            out.extend_from_slice(b"pair ")?;
            put_pair(out, a, b, pair)?;
            out.extend_from_slice(b" : root")?;
            Ok(())
        }
        DownEntry::Child { pair, split, place } => {
            out.extend_from_slice(b"pair ")?;
            put_pair(out, a, b, pair)?;
            put_child(out, *split, *place)
        }
        DownEntry::Split { pair, rule, choice } => put_split(out, a, *pair, *rule, choice),
    }
}

/// A line for each entry.
fn put_lines(
    out: &mut Vec<u8>,
    a: &Listed,
    b: &Listed,
    entries: &[DownEntry],
) -> Result<(), AllocError>
    requires { All (IsPrintable a.now b.now) (entries_of entries.now) }
    ensures { OnOk result (out.new.items ≡ out.old.items ++ flat_map (λ entry. entry_text a.now b.now entry ++ 10 ∷ []) (entries_of entries.now)) }
{
    for entry in entries {
        put_entry(out, a, b, entry)?;
        out.push(b'\n')?;
    }
    Ok(())
}

/// The line `budget K`, the line `entries N`, and a line for each entry.
#[tactic(auto, unfolding(crate::specs::Entries::down_entries_text))]
pub fn put_down_entries(
    out: &mut Vec<u8>,
    a: &Listed,
    b: &Listed,
    budget: u32,
    entries: &[DownEntry],
) -> Result<(), AllocError>
    requires { All (IsPrintable a.now b.now) (entries_of entries.now) }
    ensures { OnOk result (out.new.items ≡ out.old.items ++ down_entries_text a.now b.now budget (entries_of entries.now)) }
{
    put_head(out, budget)?;
    put_lines(out, a, b, entries)?;
    Ok(())
}
