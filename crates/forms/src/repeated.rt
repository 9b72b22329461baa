//! Repetition, and its limits.
//! One loop reads the items of every repetition, as long as the next token begins one; time is linear in the tokens.

ghost use Rattle.std.specs.Prelude.{◌≡◌, ◌&&◌, List, length, nat_lt};
ghost use Rattle.forms.specs.Symbol.{source_of};
ghost use Rattle.forms.specs.Grammar.{Grammar, item, many, many_by, up_to};
ghost use Rattle.forms.specs.Reading.{IsRead, begins};

use crate::fault::{SyntaxFault, What};
use crate::form::Form;
use crate::source::{Source, push};
use sequence::Sequence;

/// Items that stand one behind the other; how each is read may depend on those before it.
pub trait Items {
    type Item: Drop;

    // The item that stands behind these.
    ghost next: { Self → List Self.Item → Grammar Self.Item };

    /// Whether the token at the index begins another item.
    fn opens_next(&self, before: &[Self::Item], source: &Source<'_>, at: usize) -> bool
        ensures { result ≡ begins (next self.now before.now) (source_of source.now.text.now source.now.tokens.now) at };

    /// Reads the item that stands behind these.
    fn read_next(
        &self,
        before: &[Self::Item],
        source: &Source<'_>,
        at: &mut usize,
    ) -> Result<Self::Item, SyntaxFault>
        ensures { IsRead (next self.now before.now) (source_of source.now.text.now source.now.tokens.now) at.old at.new result };
}

/// Whether another item begins; there are no more of them than tokens.
fn goes_on<I: Items>(items: &I, found: &Vec<I::Item>, source: &Source<'_>, at: usize) -> bool
    ensures { result ≡ (nat_lt (length found.now.items) (length source.now.tokens.now)
        && begins (I.next items.now found.now.items) (source_of source.now.text.now source.now.tokens.now) at) }
{
    found.len() < source.tokens.len() && items.opens_next(found.as_slice(), source, at)
}

/// Reads as many items as there are.
pub fn read_many<I: Items>(
    items: &I,
    source: &Source<'_>,
    at: &mut usize,
) -> Result<Sequence<I::Item>, SyntaxFault>
    ensures { IsRead (many_by (I.next items.now)) (source_of source.now.text.now source.now.tokens.now) at.old at.new result }
{
    let mut found = Vec::new(source.alloc);
    'items: while goes_on(items, &found, source, *at) {
        let item = items.read_next(found.as_slice(), source, at)?;
        push(&mut found, item)?;
    }
    Ok(Sequence::from_vec(found))
}

/// None or more of the form.
#[derive(Clone, Copy)]
pub struct Many<X>(pub X);

impl<X: Form> Items for Many<X> {
    type Item = X::Meaning;

    ghost next = { λ x before. X.grammar x.0 };

    fn opens_next(&self, _before: &[X::Meaning], source: &Source<'_>, at: usize) -> bool {
        self.0.opens(source, at)
    }

    fn read_next(
        &self,
        _before: &[X::Meaning],
        source: &Source<'_>,
        at: &mut usize,
    ) -> Result<X::Meaning, SyntaxFault> {
        self.0.read(source, at)
    }
}

impl<X: Form> Form for Many<X> {
    type Meaning = Sequence<X::Meaning>;

    ghost grammar = { λ x. many (X.grammar x.0) };

    fn opens(&self, _source: &Source<'_>, _at: usize) -> bool {
        false
    }

    fn read(
        &self,
        source: &Source<'_>,
        at: &mut usize,
    ) -> Result<Sequence<X::Meaning>, SyntaxFault> {
        read_many(self, source, at)
    }
}

/// The form, where room may be left for no more items of its kind.
#[derive(Clone, Copy)]
pub struct Item<X> {
    pub full: bool,
    pub what: What,
    pub form: X,
}

impl<X: Form> Form for Item<X> {
    type Meaning = X::Meaning;

    ghost grammar = { λ x. item x.full x.what (X.grammar x.form) };

    fn opens(&self, source: &Source<'_>, at: usize) -> bool {
        self.form.opens(source, at)
    }

    fn read(&self, source: &Source<'_>, at: &mut usize) -> Result<X::Meaning, SyntaxFault> {
        read_item(self.full, self.what, &self.form, source, at)
    }
}

/// Reads the form, where room may be left for no more items of its kind.
#[tactic(auto, unfolding(crate::specs::Reading::read_item))]
fn read_item<X: Form>(
    full: bool,
    what: What,
    form: &X,
    source: &Source<'_>,
    at: &mut usize,
) -> Result<X::Meaning, SyntaxFault>
    ensures { IsRead (item full what (X.grammar form.now)) (source_of source.now.text.now source.now.tokens.now) at.old at.new result }
{
    if full && (form.opens(source, *at) && !source.is_long(*at)) {
        return Err(source.too_many(*at, what));
    }
    form.read(source, at)
}

/// None or more of the form, and no more than so many.
#[derive(Clone, Copy)]
pub struct UpTo<X> {
    pub limit: usize,
    pub what: What,
    pub form: X,
}

impl<X: Form> Items for UpTo<X> {
    type Item = X::Meaning;

    ghost use Rattle.std.specs.Prelude.{length, nat_le};

    ghost next = { λ x before. item (nat_le x.limit (length before)) x.what (X.grammar x.form) };

    fn opens_next(&self, _before: &[X::Meaning], source: &Source<'_>, at: usize) -> bool {
        self.form.opens(source, at)
    }

    fn read_next(
        &self,
        before: &[X::Meaning],
        source: &Source<'_>,
        at: &mut usize,
    ) -> Result<X::Meaning, SyntaxFault> {
        read_item(
            self.limit <= before.len(),
            self.what,
            &self.form,
            source,
            at,
        )
    }
}

impl<X: Form> Form for UpTo<X> {
    type Meaning = Sequence<X::Meaning>;

    ghost grammar = { λ x. up_to x.limit x.what (X.grammar x.form) };

    #[tactic(auto, unfolding(crate::specs::Grammar::up_to))]
    fn opens(&self, _source: &Source<'_>, _at: usize) -> bool {
        false
    }

    #[tactic(auto, unfolding(crate::specs::Grammar::up_to))]
    fn read(
        &self,
        source: &Source<'_>,
        at: &mut usize,
    ) -> Result<Sequence<X::Meaning>, SyntaxFault> {
        read_many(self, source, at)
    }
}
