//! The canonical text of an automaton.

ghost use Rattle.std.specs.Prelude.{◌≡◌, ◌≢◌, ◌<◌, ◌++◌, ◌∷◌, [], codes, length, map, All, AllPairs, IfOk, OnOk};
ghost use Rattle.std.specs.List.{flat_map};
ghost use Rattle.std.specs.List.Sorted.{IsPermutation};
ghost use Rattle.std.specs.Ordering.{nat_cmp};
ghost use Rattle.tree_definitions.specs.Canonical.{canon, in_order, rule_cmp};
ghost use Rattle.ta_model.specs.Listing.{IsListed};
ghost use Rattle.timbuk_text.specs.Fitting.{IsRuleOver};
ghost use Rattle.timbuk_definitions.specs.Reading.{Spells};
ghost use Rattle.timbuk_definitions.specs.Printed.{print, blank, finals_text, kids_text, name_at, ops_text, plain_text, rule_text, rules_text, op_text, states_text, symbol_at, title_text};

use crate::placed_names::PlacedNames;
use rule_order::{ByParent, Keyed};
use std::alloc::{AllocError, Global};
use ta_model::{Listed, Name, Rule, Symbol};

/// About how many bytes the line of a rule takes.
const LINE_LEN: usize = 16;

/// The numbers in rising order.
fn in_rising_order(alloc: Global, finals: &[u32]) -> Result<Vec<u32>, AllocError>
    requires { AllPairs ◌≢◌ finals.now }
    ensures permutation { IfOk result (λ v. IsPermutation finals.now v.items) }
    ensures sorted { IfOk result (λ v. v.items ≡ in_order nat_cmp finals.now) }
{
    let mut sorted = Vec::from_slice(alloc, finals)?;
    sorted.sort_unstable();
    Ok(sorted)
}

/// The text of the automaton with its finals and rules in rising order.
#[tactic(auto, unfolding(timbuk_definitions::specs::Printed::plain_text))]
fn canonical_text(a: &Listed) -> Result<Vec<u8>, AllocError>
    ensures text { IfOk result (λ v. v.items ≡ print a.now) }
    ensures small { OnOk result (All (λ s. s.rank < 256) a.now.symbols) }
    ensures listed { OnOk result (IsListed a.now) }
{
    let alloc = a.allocator();
    let mut out = Vec::new(alloc);
    put_ops(&mut out, a.symbols())?;
    put_title(&mut out, a.name())?;
    put_states(&mut out, a.states())?;
    let states = PlacedNames::of(alloc, a.states())?;
    let finals = in_rising_order(alloc, a.finals())?;
    put_finals(&mut out, &states, &finals)?;
    put_rules(&mut out, a.symbols(), &states, a.rules())?;
    Ok(out)
}

/// The text of the automaton with its finals and rules in rising order. It spells this form.
pub fn print(a: &Listed) -> Result<Vec<u8>, AllocError>
    ensures text { IfOk result (λ v. v.items ≡ print a.now) }
    ensures spells { IfOk result (λ v. Spells v.items (canon a.now)) }
{
    canonical_text(a)
}

fn put_ops(out: &mut Vec<u8>, symbols: &[Symbol]) -> Result<(), AllocError>
    ensures text { OnOk result (out.new.items ≡ out.old.items ++ ops_text symbols.now) }
    ensures small { OnOk result (All (λ s. s.rank < 256) symbols.now) }
{
    out.extend_from_slice(b"Ops")?;
    for symbol in symbols {
        put_op(out, symbol)?;
    }
    out.push(b'\n')?;
    Ok(())
}

fn put_op(out: &mut Vec<u8>, symbol: &Symbol) -> Result<(), AllocError>
    ensures text { OnOk result (out.new.items ≡ out.old.items ++ blank (op_text symbol.now)) }
    ensures small { symbol.now.rank < 256 }
{
    let rank = symbol.rank;
    out.push(b' ')?;
    out.extend_from_slice(symbol.name.bytes())?;
    out.push(b':')?;
    let rank = rank.to_string(*out.allocator())?;
    out.extend_from_slice(rank.as_bytes())?;
    Ok(())
}

fn put_title(out: &mut Vec<u8>, name: &Name) -> Result<(), AllocError>
    ensures { OnOk result (out.new.items ≡ out.old.items ++ title_text name.now) }
{
    out.extend_from_slice(b"Automaton ")?;
    out.extend_from_slice(name.bytes())?;
    out.push(b'\n')?;
    Ok(())
}

fn put_states(out: &mut Vec<u8>, states: &[Name]) -> Result<(), AllocError>
    ensures { OnOk result (out.new.items ≡ out.old.items ++ states_text states.now) }
{
    out.extend_from_slice(b"States")?;
    for state in states {
        out.push(b' ')?;
        out.extend_from_slice(state.bytes())?;
    }
    out.push(b'\n')?;
    Ok(())
}

fn put_finals(out: &mut Vec<u8>, states: &PlacedNames<'_>, finals: &[u32]) -> Result<(), AllocError>
    requires { All (λ q. q < length states.now) finals.now }
    ensures { OnOk result (out.new.items ≡ out.old.items ++ finals_text states.now finals.now) }
{
    out.extend_from_slice(b"Final States")?;
    put_blanks(out, states, finals)?;
    out.push(b'\n')?;
    Ok(())
}

fn put_blanks(out: &mut Vec<u8>, states: &PlacedNames<'_>, finals: &[u32]) -> Result<(), AllocError>
    requires { All (λ q. q < length states.now) finals.now }
    ensures { OnOk result (out.new.items ≡ out.old.items ++ flat_map (λ q. blank (name_at states.now q)) finals.now) }
{
    for place in finals {
        out.push(b' ')?;
        put_name(out, states, *place)?;
    }
    Ok(())
}

fn put_name(out: &mut Vec<u8>, names: &PlacedNames<'_>, place: u32) -> Result<(), AllocError>
    requires { place < length names.now }
    ensures { OnOk result (out.new.items ≡ out.old.items ++ name_at names.now place) }
{
    out.extend_from_slice(names.name(place))?;
    Ok(())
}

fn put_symbol(out: &mut Vec<u8>, symbols: &[Symbol], place: u32) -> Result<(), AllocError>
    requires { place < length symbols.now }
    ensures { OnOk result (out.new.items ≡ out.old.items ++ symbol_at symbols.now place) }
{
    let symbol = &symbols[place as usize];
    out.extend_from_slice(symbol.name.bytes())?;
    Ok(())
}

fn put_kids(out: &mut Vec<u8>, states: &PlacedNames<'_>, kids: &[u32]) -> Result<(), AllocError>
    requires { All (λ q. q < length states.now) kids.now }
    ensures { OnOk result (out.new.items ≡ out.old.items ++ kids_text states.now kids.now) }
{
    let Some((first, others)) = kids.split_first() else {
        return Ok(());
    };
    out.push(b'(')?;
    put_name(out, states, *first)?;
    put_others(out, states, others)?;
    out.push(b')')?;
    Ok(())
}

fn put_others(out: &mut Vec<u8>, states: &PlacedNames<'_>, kids: &[u32]) -> Result<(), AllocError>
    requires { All (λ q. q < length states.now) kids.now }
    ensures { OnOk result (out.new.items ≡ out.old.items ++ flat_map (λ p. 44 ∷ name_at states.now p) kids.now) }
{
    for place in kids {
        out.push(b',')?;
        put_name(out, states, *place)?;
    }
    Ok(())
}

fn put_rule(
    out: &mut Vec<u8>,
    symbols: &[Symbol],
    states: &PlacedNames<'_>,
    rule: &Rule,
) -> Result<(), AllocError>
    requires { IsRuleOver symbols.now (length states.now) rule.now }
    ensures { OnOk result (out.new.items ≡ out.old.items ++ rule_text symbols.now states.now rule.now) }
{
    put_symbol(out, symbols, rule.symbol)?;
    put_kids(out, states, rule.kids.as_slice())?;
    out.extend_from_slice(b" -> ")?;
    put_name(out, states, rule.parent)?;
    out.push(b'\n')?;
    Ok(())
}

/// The lines of the rules that lead to one state.
fn put_lines(
    out: &mut Vec<u8>,
    symbols: &[Symbol],
    states: &PlacedNames<'_>,
    group: &[Keyed<'_>],
) -> Result<(), AllocError>
    requires { All (IsRuleOver symbols.now (length states.now)) (map (λ g. g.1.now) group.now) }
    ensures { OnOk result (out.new.items ≡ out.old.items ++ flat_map (rule_text symbols.now states.now) (map (λ g. g.1.now) group.now)) }
{
    for keyed in group {
        put_rule(out, symbols, states, keyed.1)?;
    }
    Ok(())
}

/// The lines of the rules in rising order, parent by parent.
fn put_groups(
    out: &mut Vec<u8>,
    symbols: &[Symbol],
    states: &PlacedNames<'_>,
    rules: &[Rule],
) -> Result<(), AllocError>
    requires few { length rules.now < 4294967295 }
    requires few_states { length states.now < 4294967295 }
    requires places { All (IsRuleOver symbols.now (length states.now)) rules.now }
    requires distinct { AllPairs ◌≢◌ rules.now }
    ensures { OnOk result (out.new.items ≡ out.old.items ++ flat_map (rule_text symbols.now states.now) (in_order rule_cmp rules.now)) }
{
    let alloc = *out.allocator();
    let parts = ByParent::new(alloc, states.len(), rules)?;
    let mut group = Vec::new(alloc);
    for parent in 0..states.len() as u32 {
        parts.group(rules, parent, &mut group)?;
        put_lines(out, symbols, states, &group)?;
    }
    Ok(())
}

fn put_rules(
    out: &mut Vec<u8>,
    symbols: &[Symbol],
    states: &PlacedNames<'_>,
    rules: &[Rule],
) -> Result<(), AllocError>
    requires few { length rules.now < 4294967295 }
    requires few_states { length states.now < 4294967295 }
    requires places { All (IsRuleOver symbols.now (length states.now)) rules.now }
    requires distinct { AllPairs ◌≢◌ rules.now }
    ensures { OnOk result (out.new.items ≡ out.old.items ++ rules_text symbols.now states.now (in_order rule_cmp rules.now)) }
{
    out.extend_from_slice(b"Transitions\n")?;
    out.reserve(LINE_LEN * rules.len())?;
    put_groups(out, symbols, states, rules)?;
    Ok(())
}
