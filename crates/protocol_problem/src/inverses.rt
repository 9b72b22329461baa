//! The inverses of transducers: each edge reads what it wrote and writes what it read (Berstel, Transductions and Context-Free Languages,
//! 1979). They take time and memory linear in the sizes of the transducers.

ghost use Rattle.std.specs.Prelude.{IfOk};
ghost use Rattle.protocol_problem.specs.Compilation.{AreInverses};

use std::alloc::{AllocError, Global};
use transducers::{Transducer, inverse};

/// The inverse of each transducer, in their order.
pub(crate) fn inverses(
    alloc: Global,
    transducers: &[Transducer],
) -> Result<Vec<Transducer>, AllocError>
    ensures { IfOk result (λ turned. AreInverses transducers.now turned.items) }
{
    let mut turned = Vec::with_capacity(alloc, transducers.len())?;
    'transducers: for transducer in transducers {
        turned.push(inverse(alloc, transducer)?)?;
    }
    Ok(turned)
}
