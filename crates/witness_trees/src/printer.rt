//! The text of a list of nodes.

ghost use Rattle.std.specs.Prelude.{◌≡◌, ◌<◌, ◌++◌, ◌∷◌, length, IfOk, OnOk};
ghost use Rattle.std.specs.List.{flat_map};
ghost use Rattle.std.specs.Fmt.{decimal};
ghost use Rattle.witness_trees.specs.NodesText.{name_at, kids_text, node_text, lines_text, nodes_text, number_text};

use crate::nodes::Nodes;
use std::alloc::{AllocError, Global};
use ta_model::Symbol;

/// The number in decimal.
pub fn put_number(out: &mut Vec<u8>, n: u64) -> Result<(), AllocError>
    ensures { OnOk result (out.new.items ≡ out.old.items ++ decimal n) }
{
    let number = n.to_string(*out.allocator())?;
    out.extend_from_slice(number.as_bytes())?;
    Ok(())
}

fn put_other_kids(out: &mut Vec<u8>, kids: &[u32]) -> Result<(), AllocError>
    ensures { OnOk result (out.new.items ≡ out.old.items ++ flat_map (λ j. 44 ∷ number_text j) kids.now) }
{
    for kid in kids {
        out.push(b',')?;
        put_number(out, u64::from(*kid) + 1)?;
    }
    Ok(())
}

/// The numbers of the children, as `(1,2)`, and nothing where there is none.
pub fn put_kids(out: &mut Vec<u8>, kids: &[u32]) -> Result<(), AllocError>
    ensures { OnOk result (out.new.items ≡ out.old.items ++ kids_text kids.now) }
{
    let Some((first, others)) = kids.split_first() else {
        return Ok(());
    };
    out.push(b'(')?;
    put_number(out, u64::from(*first) + 1)?;
    put_other_kids(out, others)?;
    out.push(b')')?;
    Ok(())
}

fn put_name(out: &mut Vec<u8>, symbols: &[Symbol], place: u32) -> Result<(), AllocError>
    requires { place < length symbols.now }
    ensures { OnOk result (out.new.items ≡ out.old.items ++ name_at symbols.now place) }
{
    let symbol = &symbols[place as usize];
    out.extend_from_slice(symbol.name.bytes())?;
    Ok(())
}

/// The line of node k, which has this symbol and these children.
fn put_line(
    out: &mut Vec<u8>,
    symbols: &[Symbol],
    k: u32,
    symbol: u32,
    kids: &[u32],
) -> Result<(), AllocError>
    requires { symbol < length symbols.now }
    ensures { OnOk result (out.new.items ≡ out.old.items
        ++ node_text symbols.now k (record { symbol = symbol; kids = kids.now })) }
{
    put_number(out, u64::from(k) + 1)?;
    out.push(b' ')?;
    put_name(out, symbols, symbol)?;
    put_kids(out, kids)?;
    out.push(b'\n')?;
    Ok(())
}

fn put_lines(out: &mut Vec<u8>, nodes: &Nodes) -> Result<(), AllocError>
    ensures { OnOk result (out.new.items ≡ out.old.items ++ lines_text nodes.now.symbols 0 nodes.now.rows) }
{
    let symbols = nodes.symbols();
    for k in 0..nodes.len() {
        put_line(out, symbols, k, nodes.symbol(k), nodes.kids(k))?;
    }
    Ok(())
}

/// The text: `nodes N`, and then a line for each node, as `1 a` or `3 f(1,2)`.
#[tactic(auto, unfolding(crate::specs::NodesText::nodes_text))]
pub fn print(alloc: Global, nodes: &Nodes) -> Result<Vec<u8>, AllocError>
    requires { 0 < length nodes.now.rows }
    ensures { IfOk result (λ text. text.items ≡ nodes_text nodes.now) }
{
    let mut out = Vec::new(alloc);
    out.extend_from_slice(b"nodes ")?;
    put_number(&mut out, u64::from(nodes.len()))?;
    out.push(b'\n')?;
    put_lines(&mut out, nodes)?;
    Ok(out)
}
