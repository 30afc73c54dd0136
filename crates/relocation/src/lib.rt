//! Where the segments of a run come to lie, what its values are there, and the run over numbers that it is then.
#![tactic(auto)]

ghost use Rattle.std.specs.Prelude.{◌≡◌, ◌≢◌, ℕ, ◌+◌, ◌<◌, ◌≤◌, All, List, IfOk, IsSome, length, slice_index};
ghost use Rattle.segments.specs.declared.Place.{Place};
ghost use Rattle.segments.specs.declared.Value.TheVariants.{Ptr};
ghost use Rattle.segments.specs.Memory.{cell, total_limit};
ghost use Rattle.segments.specs.Relocation.{base, segment_bases, relocated};
ghost use Rattle.relocation.specs.Bases.{HasBase, address_by, relocated_by};

mod laws;
mod relocating;
mod run;

use goldilocks::Felt;
pub use laws::{cell_laws, run_laws};
pub use relocating::relocate;
pub use run::FieldRun;
use segments::{Segments, Value};
use std::alloc::{AllocError, Global};

/// The bases of all segments: each segment's first address. The first is 1, and each next one is the one before plus
/// that segment's size.
pub fn bases(alloc: Global, s: &Segments) -> Result<Vec<u64>, AllocError>
    ensures bases { IfOk result (λ list. list.items ≡ segment_bases s.now.sizes) }
    ensures low { IfOk result (λ list. All (λ b. b ≤ total_limit + 1) list.items) }

    // No two places that hold values share an address.
    ensures distinct { IfOk result (λ list. (p q : Place) → IsSome (cell s.now p) → IsSome (cell s.now q) →
        address_by list.items p ≡ address_by list.items q → p ≡ q) }
{
    let mut list = Vec::with_capacity(alloc, s.count() as usize)?;
    let mut base = 1u64;
    for seg in 0..s.count() {
        list.push(base)?;
        base += u64::from(s.size(seg));
    }
    Ok(list)
}

/// The number that a value is where the segments lie at these bases: a number is itself, and a pointer is its segment's
/// base plus its offset. A pointer's segment has a base, and bases are at most [`segments::TOTAL_LIMIT`] + 1.
pub fn relocate_value(bases: &[u64], v: Value) -> Felt
    requires based { HasBase bases.now v }
    requires low { All (λ b. b ≤ total_limit + 1) bases.now }
    ensures value { result.number ≡ relocated_by bases.now v }
    ensures of_sizes { (sizes : List ℕ) → bases.now ≡ segment_bases sizes → result.number ≡ relocated sizes v }
    ensures not_zero { (sizes : List ℕ) (p : Place) → bases.now ≡ segment_bases sizes → v ≡ Ptr p →
        result.number ≢ 0 }
{
    match v {
        Value::Num(number) => number,
        Value::Ptr(place) => Felt {
            number: bases[place.seg as usize] + u64::from(place.off),
        },
    }
}
