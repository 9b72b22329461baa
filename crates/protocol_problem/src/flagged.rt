//! Transducers, each with flags of the states from which it only copies. They take time linear in the sizes of the transducers.

ghost use Rattle.std.specs.Prelude.{◌≡◌, IfOk};

use image_preimage::FlaggedTransducer;
use std::alloc::{AllocError, Global};
use transducers::Transducer;

/// Each transducer, flagged, in their order.
pub(crate) fn flagged(
    alloc: Global,
    transducers: Vec<Transducer>,
) -> Result<Vec<FlaggedTransducer>, AllocError>
    ensures { IfOk result (λ flagged. flagged.items ≡ transducers.items) }
{
    let mut flagged = Vec::with_capacity(alloc, transducers.len())?;
    'transducers: for transducer in transducers {
        flagged.push(FlaggedTransducer::new(alloc, transducer)?)?;
    }
    Ok(flagged)
}
