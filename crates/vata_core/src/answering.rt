//! The answer to a request, from the files that it names.

ghost use Rattle.std.specs.Prelude.{◌≡◌, Bool, List, true, length, IfOk, IfErr};
ghost use Rattle.tree_definitions.specs.Automaton.{Automaton};
ghost use Rattle.tree_definitions.specs.Canonical.{canon};
ghost use Rattle.tree_definitions.specs.Product.{IsProduct};
ghost use Rattle.tree_definitions.specs.Union.{IsUnion};
ghost use Rattle.timbuk_definitions.specs.Place.{IsSmall};
ghost use Rattle.timbuk_definitions.specs.Printed.{plain_text};
ghost use Rattle.timbuk_definitions.specs.Reading.{Spells};
ghost use Rattle.quotient.specs.Merged.{IsCanonicalQuotient};
ghost use Rattle.vata_core.specs.Answer.{IsBinaryRight, IsForm, IsGreatest, IsUnaryRight};
ghost use Rattle.vata_core.specs.Limits.{ExceedsBinary, ExceedsProduct, ExceedsQuotient, ExceedsSimulation, ExceedsUnary, ExceedsUnion};
ghost use Rattle.vata_core.specs.Refusals.{IsBuilt, IsOperationHalt, IsReplyOf};
ghost use Rattle.vata_core.specs.RelationText.{relation_text};

use crate::halting::{Halt, Reply};
use crate::including::included;
use crate::matrix_text::text_of_relation;
use crate::measure::Measure;
use crate::status::Status;
use crate::words::{BinaryCommand, UnaryCommand};
use bit_matrix::Matrix;
use bool_ops::{OpError, isect, union};
use explicit_ta::{Explicit, ExplicitPair};
use quotient::{ReduceError, reduce};
use simulations::{SimError, down, up};
use std::alloc::{AllocError, Global};
use ta_model::{Listed, PairError, Table};
use trim_ops::trim;
use vata_words::Dir;

/// The canonical text of the automaton without its useless states.
fn trimmed_text(alloc: Global, a: Listed) -> Result<Vec<u8>, AllocError>
    ensures { IfOk result (λ text. (L : Automaton) × IsForm true a L × (text.items ≡ plain_text L) × Spells text.items L) }
{
    let table = Explicit::of_list(a)?;
    let kept = trim(alloc, &table)?;
    let text = timbuk_text::print(&kept)?;
    Ok(text)
}

/// The canonical text of an automaton, or with a trim that of the automaton without its useless states.
fn text_of(alloc: Global, a: Listed, trim: bool) -> Result<Vec<u8>, AllocError>
    ensures { IfOk result (λ text. (L : Automaton) × IsForm trim a L × (text.items ≡ plain_text L) × Spells text.items L) }
{
    if trim {
        let text = trimmed_text(alloc, a)?;
        return Ok(text);
    }
    let text = timbuk_text::print(&a)?;
    Ok(text)
}

/// The two automata of a command, each in canonical form.
fn pair_of(a: &Listed, b: &Listed) -> Result<ExplicitPair, Halt>
    requires left { IsSmall a.now }
    requires right { IsSmall b.now }
    ensures ok { IfOk result (λ p. p ≡ record { left = canon a.now; right = canon b.now }) }
    ensures few { IfOk result (λ _. ExceedsUnion Measure.Symbols a.now b.now → ⊥) }
    ensures err { IfErr result (IsOperationHalt (λ what. ExceedsUnion what a.now b.now)) }
{
    match ExplicitPair::from_listed(a, b) {
        Ok(pair) => Ok(pair),
        Err(PairError::Symbols) => Err(Halt::Past {
            what: Measure::Symbols,
        }),
        Err(PairError::Memory) => Err(Halt::Memory),
    }
}

/// The union of two automata.
fn union_of(alloc: Global, a: &Listed, b: &Listed) -> Result<Listed, Halt>
    requires left { IsSmall a.now }
    requires right { IsSmall b.now }
    ensures ok { IfOk result (λ u. (U : Automaton) × IsUnion a.now b.now U × (u ≡ canon U)) }
    ensures within { IfOk result (λ _. (what : Measure) → ExceedsUnion what a.now b.now → ⊥) }
    ensures err { IfErr result (IsOperationHalt (λ what. ExceedsUnion what a.now b.now)) }
{
    let pair = pair_of(a, b)?;
    match union(alloc, &pair) {
        Ok(u) => Ok(u),
        Err(AllocError) => Err(Halt::Memory),
    }
}

/// The product of two automata.
fn product_of(alloc: Global, a: &Listed, b: &Listed) -> Result<Listed, Halt>
    requires left { IsSmall a.now }
    requires right { IsSmall b.now }
    ensures ok { IfOk result (λ p. (P : Automaton) × IsProduct a.now b.now P × (p ≡ canon P)) }
    ensures within { IfOk result (λ _. (what : Measure) → ExceedsProduct what a.now b.now → ⊥) }
    ensures err { IfErr result (IsOperationHalt (λ what. ExceedsProduct what a.now b.now)) }
{
    let pair = match pair_of(a, b) {
        Ok(pair) => pair,
        Err(halt) => return Err(halt),
    };
    match isect(alloc, &pair) {
        Ok(p) => Ok(p),
        Err(OpError::TooManyStates) => Err(Halt::Past {
            what: Measure::Pairs,
        }),
        Err(OpError::TooManyRules) => Err(Halt::Past {
            what: Measure::Rules,
        }),
        Err(OpError::Memory) => Err(Halt::Memory),
    }
}

/// The greatest simulation of this direction.
fn simulation_of(alloc: Global, dir: Dir, table: &Explicit) -> Result<Matrix, Halt>
    ensures greatest { IfOk result (IsGreatest dir table.now) }
    ensures within { IfOk result (λ _. (what : Measure) → ExceedsSimulation what table.now → ⊥) }
    ensures err { IfErr result (IsOperationHalt (λ what. ExceedsSimulation what table.now)) }
{
    let found = match dir {
        Dir::Up => up(alloc, table),
        Dir::Down => down(alloc, table),
    };
    match found {
        Ok(m) => Ok(m),
        Err(SimError::TooLarge) => Err(Halt::Past {
            what: Measure::Relation,
        }),
        Err(SimError::Memory) => Err(Halt::Memory),
    }
}

/// The text of a relation between the states of the table.
fn text_between(
    alloc: Global,
    dir: Dir,
    table: &Explicit,
    m: &Matrix,
) -> Result<Vec<u8>, AllocError>
    requires { length m.now ≡ length table.now.states }
    ensures { IfOk result (λ text. text.items ≡ relation_text dir table.now.states m.now) }
{
    let listed = table.listed()?;
    text_of_relation(alloc, dir, listed.states(), m)
}

/// The text of an automaton's greatest simulation of this direction.
fn simulation_text(alloc: Global, dir: Dir, a: Listed) -> Result<Vec<u8>, Halt>
    ensures ok { IfOk result (λ text. (m : List (List Bool)) × IsGreatest dir a m × (text.items ≡ relation_text dir a.states m)) }
    ensures within { IfOk result (λ _. (what : Measure) → ExceedsSimulation what a → ⊥) }
    ensures err { IfErr result (IsOperationHalt (λ what. ExceedsSimulation what a)) }
{
    let table = Explicit::of_list(a)?;
    let m = simulation_of(alloc, dir, &table)?;
    let text = text_between(alloc, dir, &table, &m)?;
    Ok(text)
}

/// The quotient of an automaton.
fn quotient_of(alloc: Global, a: Listed) -> Result<Listed, Halt>
    ensures ok { IfOk result (IsCanonicalQuotient a) }
    ensures within { IfOk result (λ _. (what : Measure) → ExceedsQuotient what a → ⊥) }
    ensures err { IfErr result (IsOperationHalt (λ what. ExceedsQuotient what a)) }
{
    let Ok(table) = Explicit::of_list(a) else {
        return Err(Halt::Memory);
    };
    match reduce(alloc, &table) {
        Ok(reduced) => Ok(reduced),
        Err(ReduceError::TooLarge) => Err(Halt::Past {
            what: Measure::Relation,
        }),
        Err(ReduceError::Memory) => Err(Halt::Memory),
    }
}

/// The text of an automaton.
fn loaded(alloc: Global, trim: bool, a: Listed) -> Result<Reply, Halt>
    ensures ok { IfOk result (IsReplyOf (IsUnaryRight (UnaryCommand.Load trim) a) (ExceedsUnary (UnaryCommand.Load trim) a)) }
    ensures err { IfErr result (IsOperationHalt (ExceedsUnary (UnaryCommand.Load trim) a)) }
{
    let text = text_of(alloc, a, trim)?;
    Ok(Reply {
        text,
        status: Status::Done,
    })
}

/// The text of the greatest simulation of an automaton.
fn simulated(alloc: Global, dir: Dir, a: Listed) -> Result<Reply, Halt>
    ensures ok { IfOk result (IsReplyOf (IsUnaryRight (UnaryCommand.Sim dir) a) (ExceedsUnary (UnaryCommand.Sim dir) a)) }
    ensures err { IfErr result (IsOperationHalt (ExceedsUnary (UnaryCommand.Sim dir) a)) }
{
    let text = simulation_text(alloc, dir, a)?;
    Ok(Reply {
        text,
        status: Status::Done,
    })
}

/// The text of the quotient of an automaton.
fn reduced(alloc: Global, a: Listed) -> Result<Reply, Halt>
    ensures ok { IfOk result (IsReplyOf (IsUnaryRight UnaryCommand.Red a) (ExceedsUnary UnaryCommand.Red a)) }
    ensures err { IfErr result (IsOperationHalt (ExceedsUnary UnaryCommand.Red a)) }
{
    let quotient = quotient_of(alloc, a)?;
    let text = timbuk_text::print(&quotient)?;
    Ok(Reply {
        text,
        status: Status::Done,
    })
}

/// The text of the union of two automata.
fn united(alloc: Global, trim: bool, a: &Listed, b: &Listed) -> Result<Reply, Halt>
    requires left { IsSmall a.now }
    requires right { IsSmall b.now }
    ensures ok { IfOk result (IsReplyOf (IsBinaryRight (BinaryCommand.Union trim) a.now b.now) (ExceedsBinary (BinaryCommand.Union trim) a.now b.now)) }
    ensures err { IfErr result (IsOperationHalt (ExceedsBinary (BinaryCommand.Union trim) a.now b.now)) }
{
    let u = union_of(alloc, a, b)?;
    let text = text_of(alloc, u, trim)?;
    Ok(Reply {
        text,
        status: Status::Done,
    })
}

/// The text of the product of two automata.
fn intersected(alloc: Global, trim: bool, a: &Listed, b: &Listed) -> Result<Reply, Halt>
    requires left { IsSmall a.now }
    requires right { IsSmall b.now }
    ensures ok { IfOk result (IsReplyOf (IsBinaryRight (BinaryCommand.Isect trim) a.now b.now) (ExceedsBinary (BinaryCommand.Isect trim) a.now b.now)) }
    ensures err { IfErr result (IsOperationHalt (ExceedsBinary (BinaryCommand.Isect trim) a.now b.now)) }
{
    let p = product_of(alloc, a, b)?;
    let text = text_of(alloc, p, trim)?;
    Ok(Reply {
        text,
        status: Status::Done,
    })
}

/// The answer to a command on one automaton.
pub fn unary_answer(alloc: Global, command: UnaryCommand, a: Listed) -> Result<Reply, Halt>
    ensures ok { IfOk result (IsReplyOf (IsUnaryRight command a) (ExceedsUnary command a)) }
    ensures err { IfErr result (IsOperationHalt (ExceedsUnary command a)) }
{
    match command {
        UnaryCommand::Load { trim } => loaded(alloc, trim, a),
        UnaryCommand::Sim { dir } => simulated(alloc, dir, a),
        UnaryCommand::Red => reduced(alloc, a),
    }
}

/// The answer to a command on two automata.
pub fn binary_answer(
    alloc: Global,
    command: BinaryCommand,
    a: &Listed,
    b: &Listed,
) -> Result<Reply, Halt>
    requires built { IsBuilt command }
    requires left { IsSmall a.now }
    requires right { IsSmall b.now }
    ensures ok { IfOk result (IsReplyOf (IsBinaryRight command a.now b.now) (ExceedsBinary command a.now b.now)) }
    ensures err { IfErr result (IsOperationHalt (ExceedsBinary command a.now b.now)) }
{
    match command {
        BinaryCommand::Union { trim } => united(alloc, trim, a, b),
        BinaryCommand::Isect { trim } => intersected(alloc, trim, a, b),
        BinaryCommand::Incl { dir, sim, budget } => included(alloc, dir, sim, budget, a, b),
    }
}
