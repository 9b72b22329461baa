//! Lists of which each item becomes a value or has a fault, as names and what is made of them.
//! The items are gone through once, up to the first fault; time is that of the items.

ghost use Rattle.std.specs.Prelude.{[], List, Option, map};
ghost use Rattle.protocol_model.specs.declared.fault.ModelFault.{ModelFault as AnyFault};
ghost use Rattle.protocol_model.specs.Faults.{first_fault_of};
ghost use Rattle.protocol_model.specs.Outcome.{IsOutcome};

use crate::fault::ModelFault;
use sequence::Sequence;
use std::alloc::Global;

/// What becomes of the items of a list, or their faults.
pub trait Resolver {
    type Item;

    type Value: Drop;

    // What an item becomes.
    ghost value: { Self → Self.Item → Self.Value };

    // The fault of an item after the items before it.
    ghost fault: { Self → List Self.Item → Self.Item → Option AnyFault };

    /// What an item becomes after the items before it, or its fault.
    fn resolve(
        &self,
        alloc: Global,
        earlier: &[Self::Item],
        item: &Self::Item,
    ) -> Result<Self::Value, ModelFault>
        ensures { IsOutcome (fault self.now earlier.now item.now) (value self.now item.now) result };
}

/// What the items become, or the first fault among them.
pub fn resolve_each<R: Resolver>(
    alloc: Global,
    resolver: &R,
    items: &[R::Item],
) -> Result<Sequence<R::Value>, ModelFault>
    ensures { IsOutcome (first_fault_of (R.fault resolver.now) [] items.now) (map (R.value resolver.now) items.now) result }
{
    let mut values = Vec::new(alloc);
    'items: for (i, item) in items.iter().enumerate() {
        let value = resolver.resolve(alloc, &items[..i], item)?;
        values.push(value)?;
    }
    Ok(Sequence::from_vec(values))
}
