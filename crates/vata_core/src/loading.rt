//! Reading one file.

ghost use Rattle.std.specs.Prelude.{◌≡◌, ◌⊎◌, ◌<◌, ◌≤◌, ◌+◌, ℕ, List, false, length, take, vec_len, IfOk, IfSome, IsErrOf};
ghost use Rattle.std.specs.Io.KnownBytes.{Consumes, IsAtEnd, ReadConsumes};
ghost use Rattle.vata_outside.specs.Outside.{HasCause, IsMissing, Rose};
ghost use Rattle.timbuk_definitions.specs.Place.{IsSmall};
ghost use Rattle.timbuk_text.specs.Taking.{limit_of};
ghost use Rattle.vata_core.specs.Files.{IsBadAt, IsLeftOf, IsOverAt, IsSpelled, IsTooLong, Told};
ghost use Rattle.vata_core.specs.NoCertificate.{IsTooLongAt};

use std::alloc::{AllocError, Global};
use ta_model::Listed;
use timbuk_text::{Counted, Reader, TextError};
use vata_outside::{Failed, Files};

/// The most bytes of an automaton's file.
const MOST_BYTES: usize = 33_554_432;

/// The most bytes of a certificate's file.
const MOST_CERTIFICATE_BYTES: usize = 134_217_728;

/// How many bytes are read at once.
const BUFFER: usize = 65_536;

/// Why a file gives no automaton.
#[derive(Clone, Copy, Debug, PartialEq, Eq)]
pub enum Refusal {
    ReadFault,
    TooLong,
    /// No file of the grammar begins with the tokens up to the one at this byte.
    Syntax { at: u64 },
    /// The token at this byte takes a count past its limit.
    Limit { what: Counted, at: u64 },
    Memory,
}

fn zeros(alloc: Global, n: usize) -> Result<Vec<u8>, AllocError>
    ensures { IfOk result (λ v. vec_len v ≡ n) }
{
    Vec::from_elem(alloc, 0u8, n)
}

/// Reads at most so many bytes.
fn piece_of<F: Files>(files: &mut F, buffer: &mut [u8], room: usize) -> Result<usize, Failed>
    requires some { 0 < room }
    requires fits { room ≤ length buffer.old }
    ensures same { F.files files.new ≡ F.files files.old }
    ensures bound { IfOk result (λ n. n ≤ room) }
    ensures bytes { ReadConsumes (F.left files.old) (F.left files.new) result buffer.new }
    ensures cause { HasCause (F.faults files.old) (F.faults files.new) result }
{
    files.read(&mut buffer[..room])
}

/// Reads the next piece of a file that may have `most` bytes, of which `total` were read. 0 bytes come
/// exactly at its end.
fn next_piece<F: Files>(
    files: &mut F,
    buffer: &mut [u8],
    total: usize,
    most: usize,
) -> Result<usize, Refusal>
    requires buffer { length buffer.old ≡ 65536 }
    requires most { most < 4294967295 }
    requires total { total ≤ most }
    ensures same { F.files files.new ≡ F.files files.old }
    ensures later { F.faults files.old ≤ F.faults files.new }
    ensures size { length buffer.new ≡ 65536 }
    ensures few { IfOk result (λ n. (n ≤ 65536) × (total + n ≤ most)) }
    ensures taken { IfOk result (λ n. Consumes (F.left files.old) (F.left files.new) (take n buffer.new)) }
    ensures most { ¬ IsErrOf result Refusal.ReadFault → (bytes : List ℕ) × (total + length bytes ≤ most + 1) × Consumes (F.left files.old) (F.left files.new) bytes }
    ensures end { IfOk result (λ n. n ≡ 0 → IsAtEnd (F.left files.new)) }
    ensures long { IsErrOf result Refusal.TooLong → IfSome (F.left files.old) (λ bytes. most < total + length bytes) }
    ensures fault { IsErrOf result Refusal.ReadFault → Rose (F.faults files.old) (F.faults files.new) }
    ensures no_syntax { (at : ℕ) → IsErrOf result (Refusal.Syntax at) → ⊥ }
    ensures no_limit { (what : Counted) (at : ℕ) → IsErrOf result (Refusal.Limit what at) → ⊥ }
{
    let room = BUFFER.min(most + 1 - total);
    let Ok(count) = piece_of(files, buffer, room) else {
        return Err(Refusal::ReadFault);
    };
    if count > most - total {
        return Err(Refusal::TooLong);
    }
    Ok(count)
}

/// All that is left of the selected file, which holds an automaton.
fn rest_of<F: Files>(alloc: Global, files: &mut F) -> Result<Reader, Refusal>
    ensures same { F.files files.new ≡ F.files files.old }
    ensures taken { ¬ IsErrOf result Refusal.ReadFault → (bytes : List ℕ) × (length bytes ≤ 33554433) × Consumes (F.left files.old) (F.left files.new) bytes }
    ensures fresh { IfOk result (λ r. r.failed ≡ false) }
    ensures short { IfOk result (λ r. length r.text ≤ 33554432) }
    ensures text { IfOk result (λ r. IfSome (F.left files.old) (λ bytes. r.text ≡ bytes)) }
    ensures limit { IsErrOf result Refusal.TooLong → IfSome (F.left files.old) IsTooLong }
    ensures later { F.faults files.old ≤ F.faults files.new }
    ensures fault { IsErrOf result Refusal.ReadFault → Rose (F.faults files.old) (F.faults files.new) }
    ensures no_syntax { (at : ℕ) → IsErrOf result (Refusal.Syntax at) → ⊥ }
    ensures no_limit { (what : Counted) (at : ℕ) → IsErrOf result (Refusal.Limit what at) → ⊥ }
{
    let mut reader = Reader::new(alloc);
    let Ok(mut buffer) = zeros(alloc, BUFFER) else {
        return Err(Refusal::Memory);
    };
    let mut total: usize = 0;
    loop {
        let count = match next_piece(files, &mut buffer, total, MOST_BYTES) {
            Ok(count) => count,
            Err(refusal) => return Err(refusal),
        };
        if count == 0 {
            return Ok(reader);
        }
        let (piece, _) = buffer.split_at(count);
        let Ok(()) = reader.feed(piece) else {
            return Err(Refusal::Memory);
        };
        total += count;
    }
}

/// All that is left of the selected file, which holds a certificate.
fn bytes_left<F: Files>(alloc: Global, files: &mut F) -> Result<Vec<u8>, Refusal>
    ensures same { F.files files.new ≡ F.files files.old }
    ensures taken { ¬ IsErrOf result Refusal.ReadFault → (bytes : List ℕ) × (length bytes ≤ 134217729) × Consumes (F.left files.old) (F.left files.new) bytes }
    ensures short { IfOk result (λ v. length v.items ≤ 134217728) }
    ensures text { IfOk result (λ v. IfSome (F.left files.old) (λ bytes. v.items ≡ bytes)) }
    ensures limit { IsErrOf result Refusal.TooLong → IfSome (F.left files.old) (IsTooLongAt 2) }
    ensures later { F.faults files.old ≤ F.faults files.new }
    ensures fault { IsErrOf result Refusal.ReadFault → Rose (F.faults files.old) (F.faults files.new) }
    ensures no_syntax { (at : ℕ) → IsErrOf result (Refusal.Syntax at) → ⊥ }
    ensures no_limit { (what : Counted) (at : ℕ) → IsErrOf result (Refusal.Limit what at) → ⊥ }
{
    let mut text = Vec::new(alloc);
    let Ok(mut buffer) = zeros(alloc, BUFFER) else {
        return Err(Refusal::Memory);
    };
    loop {
        let count = match next_piece(files, &mut buffer, text.len(), MOST_CERTIFICATE_BYTES) {
            Ok(count) => count,
            Err(refusal) => return Err(refusal),
        };
        if count == 0 {
            return Ok(text);
        }
        let (piece, _) = buffer.split_at(count);
        let Ok(()) = text.extend_from_slice(piece) else {
            return Err(Refusal::Memory);
        };
    }
}

/// The bytes of a certificate's file.
pub fn certificate_text_of<F: Files>(
    alloc: Global,
    files: &mut F,
    name: &str,
) -> Result<Vec<u8>, Refusal>
    ensures same { F.files files.new ≡ F.files files.old }
    ensures left { ¬ IsErrOf result Refusal.ReadFault → IsLeftOf (F.files files.old) name.now 134217729 (F.left files.new) }
    ensures ok { IfOk result (λ v. Told (F.files files.old) name.now (λ bytes. v.items ≡ bytes)) }
    ensures short { IfOk result (λ v. length v.items ≤ 134217728) }
    ensures limit { IsErrOf result Refusal.TooLong → Told (F.files files.old) name.now (IsTooLongAt 2) }
    ensures later { F.faults files.old ≤ F.faults files.new }
    ensures fault { IsErrOf result Refusal.ReadFault →
        Rose (F.faults files.old) (F.faults files.new) ⊎ IsMissing (F.files files.old) name.now }
    ensures no_syntax { (at : ℕ) → IsErrOf result (Refusal.Syntax at) → ⊥ }
    ensures no_limit { (what : Counted) (at : ℕ) → IsErrOf result (Refusal.Limit what at) → ⊥ }
{
    let Ok(()) = files.select(name) else {
        return Err(Refusal::ReadFault);
    };
    bytes_left(alloc, files)
}

/// The automaton of a file.
pub fn automaton_of<F: Files>(alloc: Global, files: &mut F, name: &str) -> Result<Listed, Refusal>
    ensures ok { IfOk result (λ a. IsSpelled (F.files files.old) name.now a) }
    ensures small { IfOk result IsSmall }
    ensures same { F.files files.new ≡ F.files files.old }
    ensures left { ¬ IsErrOf result Refusal.ReadFault → IsLeftOf (F.files files.old) name.now 33554433 (F.left files.new) }
    ensures syntax { (at : ℕ) → IsErrOf result (Refusal.Syntax at) → Told (F.files files.old) name.now (IsBadAt at) }
    ensures limit { (what : Counted) (at : ℕ) → IsErrOf result (Refusal.Limit what at) →
        Told (F.files files.old) name.now (IsOverAt (limit_of what) at) }
    ensures long { IsErrOf result Refusal.TooLong → Told (F.files files.old) name.now IsTooLong }
    ensures later { F.faults files.old ≤ F.faults files.new }
    ensures fault { IsErrOf result Refusal.ReadFault →
        Rose (F.faults files.old) (F.faults files.new) ⊎ IsMissing (F.files files.old) name.now }
{
    let Ok(()) = files.select(name) else {
        return Err(Refusal::ReadFault);
    };
    let reader = match rest_of(alloc, files) {
        Ok(reader) => reader,
        Err(refusal) => return Err(refusal),
    };
    match reader.finish() {
        Ok(a) => Ok(a),
        Err(TextError::Syntax { at }) => Err(Refusal::Syntax { at }),
        Err(TextError::Limit { what, at }) => Err(Refusal::Limit { what, at }),
        Err(TextError::Memory) => Err(Refusal::Memory),
    }
}
