//! Lists of child tuples without repeats.

ghost use Rattle.std.specs.Prelude.{◌≡◌, ℕ, List, ◌++◌, Contains, IfOk, OnOk, OnErr};
ghost use Rattle.ta_model.specs.Tuples.{IsRising, kids_of};
ghost use Rattle.ta_model.specs.Classes.{AreAll};

use smallvec::SmallVec;
use std::alloc::AllocError;
use ta_model::Kids;

/// Each tuple of the list, once, rising.
pub fn distinct(tuples: Vec<Kids>) -> Result<Vec<Kids>, AllocError>
    ensures all { IfOk result (λ v. AreAll (Contains (kids_of tuples.items)) (kids_of v.items)) }
    ensures rising { IfOk result (λ v. IsRising (kids_of v.items)) }
{
    let mut sorted = tuples;
    sorted.sort()?;
    sorted.dedup();
    Ok(sorted)
}

/// Appends copies of the tuples.
pub fn append(all: &mut Vec<Kids>, tuples: &[Kids]) -> Result<(), AllocError>
    ensures { OnOk result (kids_of all.new.items ≡ kids_of all.old.items ++ kids_of tuples.now) }
{
    for kids in tuples {
        let copy = SmallVec::from_slice(*all.allocator(), kids.as_slice())?;
        all.push(copy)?;
    }
    Ok(())
}
