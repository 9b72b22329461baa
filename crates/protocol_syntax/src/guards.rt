//! Reading guards and sets.
//! One function or form for each production, as in all files here; time is linear in the tokens.
#![tactic(auto, unfolding(crate::proofs::Unfolded::productions))]

ghost use Rattle.protocol_syntax.specs.Grammar.{guard, set};

use crate::limits::MAX_GUARDS;
use crate::protocol::{GuardText, Region};
use forms::{
    AnyName, BRACE_LEFT, BRACE_RIGHT, Behind, Ended, Form, Keyword, Many, Means, Name, Or, Sign,
    Source, Symbol, SyntaxFault, Then, UpTo, What,
};
use sequence::Sequence;

const WHEN: Sign = Sign(Symbol::Reserved(Keyword::When));

const IN: Sign = Sign(Symbol::Reserved(Keyword::In));

const QUANTIFIER: Or<Means<bool>, Means<bool>> = Or(
    Means(Symbol::Reserved(Keyword::All), true),
    Means(Symbol::Reserved(Keyword::Some), false),
);

const REGION: Or<Means<Region>, Or<Means<Region>, Means<Region>>> = Or(
    Means(Symbol::Reserved(Keyword::Left), Region::Left),
    Or(
        Means(Symbol::Reserved(Keyword::Right), Region::Right),
        Means(Symbol::Reserved(Keyword::Others), Region::Others),
    ),
);

/// The guards of a move.
pub const GUARDS: UpTo<Guard> = UpTo {
    limit: MAX_GUARDS,
    what: What::Guards,
    form: Guard,
};

/// A set of letters.
#[derive(Clone, Copy)]
pub struct Set;

impl Form for Set {
    type Meaning = Sequence<Name>;

    ghost grammar = { λ _. set };

    fn opens(&self, source: &Source<'_>, at: usize) -> bool {
        BRACE_LEFT.opens(source, at)
    }

    fn read(&self, source: &Source<'_>, at: &mut usize) -> Result<Sequence<Name>, SyntaxFault> {
        Behind(BRACE_LEFT, Ended(Many(AnyName), BRACE_RIGHT)).read(source, at)
    }
}

/// A guard.
#[derive(Clone, Copy)]
pub struct Guard;

impl Form for Guard {
    type Meaning = GuardText;

    ghost grammar = { λ _. guard };

    fn opens(&self, source: &Source<'_>, at: usize) -> bool {
        WHEN.opens(source, at)
    }

    fn read(&self, source: &Source<'_>, at: &mut usize) -> Result<GuardText, SyntaxFault> {
        let head = Then(Behind(WHEN, QUANTIFIER), REGION);
        let parts = Then(head, Behind(IN, Set)).read(source, at)?;
        let ((all, region), letters) = parts;
        Ok(GuardText {
            all,
            region,
            letters,
        })
    }
}
