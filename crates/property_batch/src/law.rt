//! The laws of the verdicts for a list of properties.
//! They have no code: each is the contract of a function that does nothing.

ghost use Rattle.property_batch.specs.PropertyVerdicts.{VerdictsAreByNumber, VerdictsAreDetermined, PropertyVerdictsAreSound, PropertyVerdictsShow};

use protocol_search::verdicts_show;

/// There are as many verdicts as properties, and the verdict with a number is that of the property with this number.
pub fn verdicts_by_number()
    ensures { VerdictsAreByNumber }
{}

/// A list of properties and a budget have one list of verdicts.
pub fn one_list_of_verdicts()
    ensures { VerdictsAreDetermined }
{}

/// Each verdict is sound for the problem of its property's system, and shows of that system what it says.
pub fn property_verdicts_show()
    ensures sound { PropertyVerdictsAreSound }
    ensures verdicts { PropertyVerdictsShow }
{
    verdicts_show();
}
