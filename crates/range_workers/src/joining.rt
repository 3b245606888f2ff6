//! The join of the partials of ranges that follow one another.
ghost use Rattle.std.specs.Prelude.{◌≡◌, IfOk};
ghost use Rattle.range_workers.specs.Ranges.{AreAdjacent, joined_all};

use conn_table::Partial;
use std::alloc::AllocError;

/// The partial of all ranges together, which are adjacent. No segment is copied: the time grows only with the number of ranges.
pub(crate) fn join_all(partials: Vec<Partial>) -> Result<Partial, AllocError>
    requires { AreAdjacent partials.items }
    ensures { IfOk result (λ whole. whole ≡ joined_all partials.items) }
{
    let mut partials = partials.into_iter();
    let Some(mut whole) = partials.next() else {
        unreachable!()
    };
    for partial in partials {
        whole = Partial::join(whole, partial)?;
    }
    Ok(whole)
}
