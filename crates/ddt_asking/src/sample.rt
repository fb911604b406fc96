//! A random sample of the identifiers.

ghost use Rattle.std.specs.Prelude.{◌≡◌, ◌<◌, Some, length, map, slice_get, All, IfOk};
ghost use Rattle.ddt_asking.specs.Sampled.{IsSample};

use ddt_path::Xeid;
use rand::seq::index::sample;
use rand_core::Rng;
use std::alloc::{AllocError, Global};

/// Returns `amount` of the identifiers, drawn at random without repetition, in their order; all of them if there are
/// fewer.
pub fn sampled<R: Rng>(
    alloc: Global,
    rng: &mut R,
    identifiers: &[Xeid],
    amount: usize,
) -> Result<Vec<Xeid>, AllocError>
    ensures { IfOk result (λ some. IsSample identifiers.now amount some.items) }
{
    let amount = amount.min(identifiers.len());
    let mut places = sample(alloc, rng, identifiers.len(), amount)?.into_vec();
    places.sort_unstable();
    at_places(alloc, identifiers, &places)
}

/// Returns the identifiers at these places.
fn at_places(alloc: Global, identifiers: &[Xeid], places: &[usize]) -> Result<Vec<Xeid>, AllocError>
    requires { All (λ place. place < length identifiers.now) places.now }
    ensures { IfOk result (λ some. map (slice_get identifiers.now) places.now ≡ map Some some.items) }
{
    let mut some = Vec::with_capacity(alloc, places.len())?;
    for place in places {
        let identifier = identifier_at(identifiers, *place);
        some.push(identifier)?;
    }
    Ok(some)
}

fn identifier_at(identifiers: &[Xeid], place: usize) -> Xeid
    requires { place < length identifiers.now }
    ensures { slice_get identifiers.now place ≡ Some result }
{
    identifiers[place]
}
