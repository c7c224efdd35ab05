//! The text of a budget and entries.

ghost use Rattle.std.specs.Prelude.{◌≡◌, ◌<◌, ◌++◌, ◌∷◌, [], All, OnOk, length};
ghost use Rattle.std.specs.List.{flat_map};
ghost use Rattle.witness_trees.specs.NodesText.{name_at};
ghost use Rattle.entry_lines.specs.Entries.{entry_text, up_entries_text};
ghost use Rattle.entry_lines.specs.Fitting.{IsPrintable};

use certificate_lines::budgets::put_head;
use certificate_lines::pairs::put_pair;
use listed_pairs::UpEntry;
use std::alloc::AllocError;
use ta_model::{Listed, Symbol};
use witness_trees::put_kids;

fn put_symbol(out: &mut Vec<u8>, symbols: &[Symbol], place: usize) -> Result<(), AllocError>
    requires { place < length symbols.now }
    ensures { OnOk result (out.new.items ≡ out.old.items ++ name_at symbols.now place) }
{
    let symbol = &symbols[place];
    out.extend_from_slice(symbol.name.bytes())?;
    Ok(())
}

/// The entry without a line feed.
pub(crate) fn put_entry(
    out: &mut Vec<u8>,
    a: &Listed,
    b: &Listed,
    entry: &UpEntry,
) -> Result<(), AllocError>
    requires { IsPrintable a.now b.now entry.now }
    ensures { OnOk result (out.new.items ≡ out.old.items ++ entry_text a.now b.now entry.now) }
{
    put_pair(out, a, b, &entry.pair)?;
    out.extend_from_slice(b" : ")?;
    put_symbol(out, a.symbols(), entry.symbol as usize)?;
    put_kids(out, &entry.kids)?;
    Ok(())
}

/// A line for each entry.
fn put_lines(
    out: &mut Vec<u8>,
    a: &Listed,
    b: &Listed,
    entries: &[UpEntry],
) -> Result<(), AllocError>
    requires { All (IsPrintable a.now b.now) entries.now }
    ensures { OnOk result (out.new.items ≡ out.old.items ++ flat_map (λ entry. entry_text a.now b.now entry ++ 10 ∷ []) entries.now) }
{
    for entry in entries {
        put_entry(out, a, b, entry)?;
        out.push(b'\n')?;
    }
    Ok(())
}

/// The line `budget K`, the line `entries N`, and a line for each entry.
#[tactic(auto, unfolding(crate::specs::Entries::up_entries_text))]
pub fn put_up_entries(
    out: &mut Vec<u8>,
    a: &Listed,
    b: &Listed,
    budget: u32,
    entries: &[UpEntry],
) -> Result<(), AllocError>
    requires { All (IsPrintable a.now b.now) entries.now }
    ensures { OnOk result (out.new.items ≡ out.old.items ++ up_entries_text a.now b.now budget entries.now) }
{
    put_head(out, budget)?;
    put_lines(out, a, b, entries)?;
    Ok(())
}
