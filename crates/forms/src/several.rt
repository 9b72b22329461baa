//! Choices, what may be missing, and what is allowed or not.
//! The next token tells which form is read, so that none is read twice.

ghost use Rattle.std.specs.Prelude.{[]};
ghost use Rattle.forms.specs.Grammar.{◌or◌, only, optional};

use crate::fault::SyntaxFault;
use crate::form::Form;
use crate::source::Source;
use sequence::Sequence;

/// Either form; the next token tells which.
#[derive(Clone, Copy)]
pub struct Or<X, Y>(pub X, pub Y);

impl<X: Form, Y: Form<Meaning = X::Meaning>> Form for Or<X, Y> {
    type Meaning = X::Meaning;

    ghost grammar = { λ x. X.grammar x.0 or Y.grammar x.1 };

    fn opens(&self, source: &Source<'_>, at: usize) -> bool {
        self.0.opens(source, at) || self.1.opens(source, at)
    }

    #[tactic(auto, unfolding(crate::specs::Reading::read_or))]
    fn read(&self, source: &Source<'_>, at: &mut usize) -> Result<X::Meaning, SyntaxFault> {
        if self.0.opens(source, *at) {
            return self.0.read(source, at);
        }
        self.1.read(source, at)
    }
}

/// The form, or nothing, which means the second field.
#[derive(Clone, Copy)]
pub struct Optional<X, A>(pub X, pub A);

impl<A: Copy, X: Form<Meaning = A>> Form for Optional<X, A> {
    type Meaning = A;

    ghost grammar = { λ x. optional x.1 (X.grammar x.0) };

    fn opens(&self, _source: &Source<'_>, _at: usize) -> bool {
        false
    }

    #[tactic(auto, unfolding(crate::specs::Reading::read_optional))]
    fn read(&self, source: &Source<'_>, at: &mut usize) -> Result<A, SyntaxFault> {
        let is_there = self.0.opens(source, *at);
        if is_there {
            self.0.read(source, at)
        } else {
            Ok(self.1)
        }
    }
}

/// The form, or nothing, which means no items.
#[derive(Clone, Copy)]
pub struct OrEmpty<X>(pub X);

impl<T: Drop, X: Form<Meaning = Sequence<T>>> Form for OrEmpty<X> {
    type Meaning = Sequence<T>;

    ghost grammar = { λ x. optional [] (X.grammar x.0) };

    fn opens(&self, _source: &Source<'_>, _at: usize) -> bool {
        false
    }

    #[tactic(auto, unfolding(crate::specs::Reading::read_optional))]
    fn read(&self, source: &Source<'_>, at: &mut usize) -> Result<Sequence<T>, SyntaxFault> {
        if self.0.opens(source, *at) {
            self.0.read(source, at)
        } else {
            Ok(Sequence::from_vec(Vec::new(source.alloc)))
        }
    }
}

/// The form where `allowed`, and else nothing that begins.
#[derive(Clone, Copy)]
pub struct Only<X> {
    pub allowed: bool,
    pub form: X,
}

impl<X: Form> Form for Only<X> {
    type Meaning = X::Meaning;

    ghost grammar = { λ x. only x.allowed (X.grammar x.form) };

    fn opens(&self, source: &Source<'_>, at: usize) -> bool {
        self.allowed && self.form.opens(source, at)
    }

    #[tactic(auto, unfolding(crate::specs::Reading::read_only))]
    fn read(&self, source: &Source<'_>, at: &mut usize) -> Result<X::Meaning, SyntaxFault> {
        if !self.allowed {
            return Err(source.unexpected(*at));
        }
        self.form.read(source, at)
    }
}
