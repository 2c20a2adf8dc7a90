//! The places of the notices that are kept.

ghost use Rattle.std.specs.Prelude.{◌≡◌, ◌<◌, ◌+◌, ◌++◌, [], ◌∷◌, take, drop};
ghost use Rattle.nvme_notices.specs.Keeping as spec;

use crate::notice::Notice;

/// How many notices are kept at most.
pub(crate) const MOST: usize = 64;

/// Puts a notice after the first `len`.
#[tactic(auto, using(std::proofs::lemmas::List::take_more_set))]
pub(crate) fn push(places: &mut [Notice; 64], len: usize, notice: Notice)
    requires { len < 64 }
    ensures { take (len + 1) places.new ≡ take len places.old ++ notice ∷ [] }
{
    places[len] = notice;
}

/// Sets the count of the last place.
pub(crate) fn recount(places: &mut [Notice; 64], count: u64)
    ensures { take 64 places.new ≡ spec.with_last_count (take 64 places.old) count }
{
    let last = places[MOST - 1];
    places[MOST - 1] = Notice { count, ..last };
}

/// Removes the first; the others move up.
pub(crate) fn shift(places: &mut [Notice; 64])
    ensures { places.new ≡ drop 1 places.old ++ take 1 places.old }
{
    places.rotate_left(1);
}
