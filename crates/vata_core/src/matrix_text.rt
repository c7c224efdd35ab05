//! The text of a relation between the states of an automaton.

ghost use Rattle.std.specs.Prelude.{◌≡◌, ◌++◌, ◌∷◌, [], codes, length, map, IfOk, OnOk};
ghost use Rattle.std.specs.Fmt.{decimal};
ghost use Rattle.vata_core.specs.RelationText.{digit_of, direction_word, relation_text, row_text, rows_text};

use bit_matrix::Matrix;
use bit_rows::Row;
use itoa::Buffer;
use std::alloc::{AllocError, Global};
use ta_model::Name;
use vata_words::Dir;

fn digit(member: bool) -> u8
    ensures { result ≡ digit_of member }
{
    if member { b'1' } else { b'0' }
}

/// How many bytes the text has, about; never many more.
fn room_for(states: &[Name], size: usize) -> usize {
    let mut room: usize = 64;
    for state in states {
        room = room.saturating_add(state.bytes().len());
        room = room.saturating_add(size);
        room = room.saturating_add(2);
    }
    room
}

fn put_digits(out: &mut Vec<u8>, row: &Row) -> Result<(), AllocError>
    ensures { OnOk result (out.new.items ≡ out.old.items ++ map digit_of row.now) }
{
    for j in 0..row.len() {
        out.push(digit(row.get(j)))?;
    }
    Ok(())
}

fn put_row(out: &mut Vec<u8>, state: &Name, row: &Row) -> Result<(), AllocError>
    ensures { OnOk result (out.new.items ≡ out.old.items ++ row_text state.now row.now) }
{
    out.extend_from_slice(state.bytes())?;
    out.push(b' ')?;
    put_digits(out, row)?;
    out.push(b'\n')?;
    Ok(())
}

fn put_rows(out: &mut Vec<u8>, states: &[Name], m: &Matrix) -> Result<(), AllocError>
    requires { length m.now ≡ length states.now }
    ensures { OnOk result (out.new.items ≡ out.old.items ++ rows_text states.now m.now) }
{
    for i in 0..states.len() {
        put_row(out, &states[i], m.row(i))?;
    }
    Ok(())
}

fn put_direction(out: &mut Vec<u8>, dir: Dir) -> Result<(), AllocError>
    ensures { OnOk result (out.new.items ≡ out.old.items ++ (codes "simulation " ++ direction_word dir)) }
{
    match dir {
        Dir::Up => out.extend_from_slice(b"simulation up"),
        Dir::Down => out.extend_from_slice(b"simulation down"),
    }
}

fn put_count(out: &mut Vec<u8>, count: usize) -> Result<(), AllocError>
    ensures { OnOk result (out.new.items ≡ out.old.items ++ 32 ∷ decimal count ++ 10 ∷ []) }
{
    let mut digits = Buffer::new();
    out.push(b' ')?;
    out.extend_from_slice(digits.format(count as u64).as_bytes())?;
    out.push(b'\n')?;
    Ok(())
}

/// The direction and the number of states, and then a line for each state with its row.
#[tactic(auto, unfolding(crate::specs::RelationText::relation_text))]
pub fn text_of_relation(
    alloc: Global,
    dir: Dir,
    states: &[Name],
    m: &Matrix,
) -> Result<Vec<u8>, AllocError>
    requires { length m.now ≡ length states.now }
    ensures { IfOk result (λ text. text.items ≡ relation_text dir states.now m.now) }
{
    let mut out = Vec::with_capacity(alloc, room_for(states, m.size()))?;
    put_direction(&mut out, dir)?;
    put_count(&mut out, states.len())?;
    put_rows(&mut out, states, m)?;
    Ok(out)
}
