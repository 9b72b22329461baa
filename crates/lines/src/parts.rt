//! Forms that are made of others.
//! The first separator, or the bytes with which a line begins, tells which form is read, so that none is read twice.

ghost use Rattle.std.specs.Option.{option_map};
ghost use Rattle.std.specs.Prelude.{◌≡◌, [], IfOk};
ghost use Rattle.lines.specs.Grammar.{Line, case, cut, each, fields, just, means, none};
ghost use Rattle.lines.specs.Reading.{IsReading};

use crate::bytes::{after_prefix, cut_at};
use crate::form::Form;
use sequence::Sequence;
use std::alloc::{AllocError, Global};
use std::marker::PhantomData;

/// These bytes and then the one form; lines that begin otherwise are of the other.
#[derive(Drop)]
pub struct Case<'a, X, Y>(pub &'a [u8], pub X, pub Y);

impl<'a, X: Form, Y: Form<Meaning = X::Meaning>> Form for Case<'a, X, Y> {
    type Meaning = X::Meaning;

    ghost grammar = { λ x. case x.0.now (X.grammar x.1) (Y.grammar x.2) };

    fn read(&self, alloc: Global, bytes: &[u8]) -> Result<Option<X::Meaning>, AllocError> {
        match after_prefix(bytes, self.0) {
            Some(rest) => self.1.read(alloc, rest),
            None => self.2.read(alloc, bytes),
        }
    }
}

/// Just these bytes, with this meaning; other bytes are a line of the form.
#[derive(Drop)]
pub struct Just<'a, A, X>(pub &'a [u8], pub A, pub X);

impl<'a, A: Copy, X: Form<Meaning = A>> Form for Just<'a, A, X> {
    type Meaning = A;

    ghost grammar = { λ x. just x.0.now x.1 (X.grammar x.2) };

    fn read(&self, alloc: Global, bytes: &[u8]) -> Result<Option<A>, AllocError> {
        if bytes == self.0 {
            return Ok(Some(self.1));
        }
        self.2.read(alloc, bytes)
    }
}

/// Just these bytes, which mean no values; other bytes are a line of the form.
#[derive(Drop)]
pub struct OrEmpty<'a, X>(pub &'a [u8], pub X);

impl<'a, T: Drop, X: Form<Meaning = Sequence<T>>> Form for OrEmpty<'a, X> {
    type Meaning = Sequence<T>;

    ghost grammar = { λ x. just x.0.now [] (X.grammar x.1) };

    fn read(&self, alloc: Global, bytes: &[u8]) -> Result<Option<Sequence<T>>, AllocError> {
        if bytes == self.0 {
            return Ok(Some(Sequence::from_vec(Vec::new(alloc))));
        }
        self.1.read(alloc, bytes)
    }
}

/// No line at all.
#[derive(Drop)]
pub struct NoLine<A>(pub PhantomData<A>);

impl<A: Drop> Form for NoLine<A> {
    type Meaning = A;

    ghost grammar = { λ _. none };

    fn read(&self, _alloc: Global, _bytes: &[u8]) -> Result<Option<A>, AllocError> {
        Ok(None)
    }
}

/// The one form before the first separator, and the other after it.
#[derive(Drop)]
pub struct Cut<X, Y>(pub u8, pub X, pub Y);

impl<X: Form, Y: Form> Form for Cut<X, Y> {
    type Meaning = (X::Meaning, Y::Meaning);

    ghost grammar = { λ x. cut x.0 (X.grammar x.1) (Y.grammar x.2) };

    fn read(
        &self,
        alloc: Global,
        bytes: &[u8],
    ) -> Result<Option<(X::Meaning, Y::Meaning)>, AllocError> {
        let Some((front, back)) = cut_at(bytes, self.0) else {
            return Ok(None);
        };
        let first = self.1.read(alloc, front)?;
        let second = self.2.read(alloc, back)?;
        Ok(first.zip(second))
    }
}

/// What a thing is taken to mean.
pub trait Meant {
    type From: Drop;

    type To: Drop;

    ghost means: { Self → Self.From → Self.To };

    /// What this is taken to mean.
    fn meant(&self, from: Self::From) -> Self::To
        ensures { result ≡ means self.now from };
}

/// The form, whose meaning is taken to mean another thing.
#[derive(Drop)]
pub struct Means<X, M>(pub X, pub M);

impl<M: Meant, X: Form<Meaning = M::From>> Form for Means<X, M> {
    type Meaning = M::To;

    ghost grammar = { λ x. means (M.means x.1) (X.grammar x.0) };

    fn read(&self, alloc: Global, bytes: &[u8]) -> Result<Option<M::To>, AllocError> {
        match self.0.read(alloc, bytes)? {
            Some(found) => Ok(Some(self.1.meant(found))),
            None => Ok(None),
        }
    }
}

/// One or more of the form, with the separator between neighbours.
#[derive(Drop)]
pub struct Fields<X>(pub u8, pub X);

impl<X: Form> Form for Fields<X> {
    type Meaning = Sequence<X::Meaning>;

    ghost grammar = { λ x. fields x.0 (X.grammar x.1) };

    fn read(
        &self,
        alloc: Global,
        bytes: &[u8],
    ) -> Result<Option<Sequence<X::Meaning>>, AllocError> {
        read_fields(alloc, self.0, &self.1, bytes)
    }
}

/// Reads one field after the other.
fn read_fields<X: Form>(
    alloc: Global,
    separator: u8,
    form: &X,
    bytes: &[u8],
) -> Result<Option<Sequence<X::Meaning>>, AllocError>
    ensures { IfOk result (IsReading (fields separator (X.grammar form.now)) bytes.now) }
{
    let mut values = Vec::new(alloc);
    let mut rest = bytes;
    'fields: while let Some((front, back)) = cut_at(rest, separator) {
        let value = form.read(alloc, front)?;
        let Some(value) = value else {
            return Ok(None);
        };
        values.push(value)?;
        rest = back;
    }
    let last = form.read(alloc, rest)?;
    let Some(last) = last else {
        return Ok(None);
    };
    values.push(last)?;
    Ok(Some(Sequence::from_vec(values)))
}

/// A form for each value of a type.
pub trait FormOf {
    type Value;

    type Meaning: Drop;

    // What a line may be for the value.
    ghost grammar: { Self → Self.Value → Line Self.Meaning };

    /// What the bytes say for the value.
    fn read_for(
        &self,
        value: &Self::Value,
        alloc: Global,
        bytes: &[u8],
    ) -> Result<Option<Self::Meaning>, AllocError>
        ensures { IfOk result (IsReading (grammar self.now value.now) bytes.now) };
}

/// Reads what stands for each of the values, with the separator and the bytes of `gap` between neighbours.
pub fn read_each<X: FormOf>(
    form: &X,
    separator: u8,
    gap: &[u8],
    values: &[X::Value],
    alloc: Global,
    bytes: &[u8],
) -> Result<Option<Vec<X::Meaning>>, AllocError>
    ensures { IfOk result (λ found. IsReading (each separator gap.now (X.grammar form.now) values.now) bytes.now
        (option_map (λ items. items.items) found)) }
{
    let Some((value, others)) = values.split_first() else {
        if bytes.is_empty() {
            return Ok(Some(Vec::new(alloc)));
        }
        return Ok(None);
    };
    if others.is_empty() {
        let only = form.read_for(value, alloc, bytes)?;
        let Some(only) = only else {
            return Ok(None);
        };
        let mut items = Vec::new(alloc);
        items.push(only)?;
        return Ok(Some(items));
    }
    let Some((front, back)) = cut_at(bytes, separator) else {
        return Ok(None);
    };
    let Some(rest) = after_prefix(back, gap) else {
        return Ok(None);
    };
    let first = form.read_for(value, alloc, front)?;
    let Some(first) = first else {
        return Ok(None);
    };
    let more = read_each(form, separator, gap, others, alloc, rest)?;
    let Some(more) = more else {
        return Ok(None);
    };
    let mut items = more;
    items.insert(0, first)?;
    Ok(Some(items))
}
