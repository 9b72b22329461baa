//! One form behind another.
//! Each is read once, from the left; time is that of both.

ghost use Rattle.forms.specs.Concatenation.{behind, both, ended, non_empty};

use crate::fault::SyntaxFault;
use crate::form::Form;
use crate::one::Sign;
use crate::source::{Source, with_first};
use sequence::Sequence;

/// The one form, and behind it the other: a sequence of three or more forms is `Then(Then(a, b), c)`.
#[derive(Clone, Copy)]
pub struct Then<X, Y>(pub X, pub Y);

impl<X: Form, Y: Form> Form for Then<X, Y> {
    type Meaning = (X::Meaning, Y::Meaning);

    ghost grammar = { λ x. both (X.grammar x.0) (Y.grammar x.1) };

    fn opens(&self, source: &Source<'_>, at: usize) -> bool {
        self.0.opens(source, at)
    }

    #[tactic(auto, unfolding(crate::specs::Reading::read_then))]
    fn read(
        &self,
        source: &Source<'_>,
        at: &mut usize,
    ) -> Result<(X::Meaning, Y::Meaning), SyntaxFault> {
        let first = self.0.read(source, at)?;
        let second = self.1.read(source, at)?;
        Ok((first, second))
    }
}

/// The form behind a reserved word or a sign, which says no more.
#[derive(Clone, Copy)]
pub struct Behind<X>(pub Sign, pub X);

impl<X: Form> Form for Behind<X> {
    type Meaning = X::Meaning;

    ghost grammar = { λ x. behind x.0.0 (X.grammar x.1) };

    fn opens(&self, source: &Source<'_>, at: usize) -> bool {
        self.0.opens(source, at)
    }

    #[tactic(auto, unfolding(crate::specs::Reading::read_then))]
    fn read(&self, source: &Source<'_>, at: &mut usize) -> Result<X::Meaning, SyntaxFault> {
        self.0.read(source, at)?;
        self.1.read(source, at)
    }
}

/// The form, and behind it a reserved word or a sign.
#[derive(Clone, Copy)]
pub struct Ended<X>(pub X, pub Sign);

impl<X: Form> Form for Ended<X> {
    type Meaning = X::Meaning;

    ghost grammar = { λ x. ended (X.grammar x.0) x.1.0 };

    fn opens(&self, source: &Source<'_>, at: usize) -> bool {
        self.0.opens(source, at)
    }

    #[tactic(auto, unfolding(crate::specs::Reading::read_then))]
    fn read(&self, source: &Source<'_>, at: &mut usize) -> Result<X::Meaning, SyntaxFault> {
        let said = self.0.read(source, at)?;
        self.1.read(source, at)?;
        Ok(said)
    }
}

/// An item, and the list of more items behind it.
#[derive(Clone, Copy)]
pub struct NonEmpty<X, Y>(pub X, pub Y);

impl<T: Drop, X: Form<Meaning = T>, Y: Form<Meaning = Sequence<T>>> Form for NonEmpty<X, Y> {
    type Meaning = Sequence<T>;

    ghost grammar = { λ x. non_empty (X.grammar x.0) (Y.grammar x.1) };

    fn opens(&self, source: &Source<'_>, at: usize) -> bool {
        self.0.opens(source, at)
    }

    #[tactic(auto, unfolding(crate::specs::Reading::read_then))]
    fn read(&self, source: &Source<'_>, at: &mut usize) -> Result<Sequence<T>, SyntaxFault> {
        let first = self.0.read(source, at)?;
        let rest = self.1.read(source, at)?;
        with_first(first, rest.into_vec())
    }
}
