//! Reading rules: their steps, moves and tables.
//! The word with which a move begins tells which one it is.
#![tactic(auto, unfolding(crate::proofs::Unfolded::productions))]

ghost use Rattle.forms.specs.Symbol.{source_of};
ghost use Rattle.forms.specs.Reading.{IsRead};
ghost use Rattle.protocol_syntax.specs.Grammar.{any_move, at_move, channel_or_stack_move, common_move, entry, exit_move, four_names, later_move};
ghost use Rattle.protocol_syntax.specs.Grammar.{lose_move, pair_move, pop_move, push_move, pushed, recv_move, ring_move, rule, send_move};
ghost use Rattle.protocol_syntax.specs.Grammar.{set_move, spawn_move, step, table, two_move};

use crate::ends::ended;
use crate::guards::GUARDS;
use crate::limits::MAX_PUSHED;
use crate::protocol::{MoveBody, MoveText, RuleText};
use crate::rows::Base;
use forms::{
    ARROW, AnyName, BRACE_LEFT, BRACE_RIGHT, Behind, COLON, Ended, Form, Keyword, Many, Name,
    NonEmpty, Only, OrEmpty, SEMICOLON, Sign, Source, Symbol, SyntaxFault, Then, UpTo, What,
};
use sequence::Sequence;

const MAP: Sign = Sign(Symbol::Reserved(Keyword::Map));

const AT: Sign = Sign(Symbol::Reserved(Keyword::At));

const PAIR: Sign = Sign(Symbol::Reserved(Keyword::Pair));

const RING: Sign = Sign(Symbol::Reserved(Keyword::Ring));

const TWO: Sign = Sign(Symbol::Reserved(Keyword::Two));

const SET: Sign = Sign(Symbol::Reserved(Keyword::Set));

const SEND: Sign = Sign(Symbol::Reserved(Keyword::Send));

const RECV: Sign = Sign(Symbol::Reserved(Keyword::Recv));

const POP: Sign = Sign(Symbol::Reserved(Keyword::Pop));

const PUSH: Sign = Sign(Symbol::Reserved(Keyword::Push));

const SPAWN: Sign = Sign(Symbol::Reserved(Keyword::Spawn));

const EXIT: Sign = Sign(Symbol::Reserved(Keyword::Exit));

const LOSE: Sign = Sign(Symbol::Reserved(Keyword::Lose));

const RULE: Sign = Sign(Symbol::Reserved(Keyword::Rule));

/// An entry of a table.
#[derive(Clone, Copy)]
pub struct Entry;

impl Form for Entry {
    type Meaning = (Name, Name);

    ghost grammar = { λ _. entry };

    fn opens(&self, source: &Source<'_>, at: usize) -> bool {
        AnyName.opens(source, at)
    }

    fn read(&self, source: &Source<'_>, at: &mut usize) -> Result<(Name, Name), SyntaxFault> {
        Ended(Then(AnyName, Behind(ARROW, AnyName)), SEMICOLON).read(source, at)
    }
}

/// A table.
#[derive(Clone, Copy)]
pub struct Table;

impl Form for Table {
    type Meaning = Sequence<(Name, Name)>;

    ghost grammar = { λ _. table };

    fn opens(&self, source: &Source<'_>, at: usize) -> bool {
        MAP.opens(source, at)
    }

    fn read(
        &self,
        source: &Source<'_>,
        at: &mut usize,
    ) -> Result<Sequence<(Name, Name)>, SyntaxFault> {
        let entries = Behind(BRACE_LEFT, Ended(Many(Entry), BRACE_RIGHT));
        Behind(MAP, entries).read(source, at)
    }
}

/// A move of one position.
fn at_move(source: &Source<'_>, at: &mut usize) -> Result<MoveBody, SyntaxFault>
    ensures { IsRead at_move (source_of source.now.text.now source.now.tokens.now) at.old at.new result }
{
    let change = Then(Behind(AT, AnyName), Behind(ARROW, AnyName));
    let parts = Then(Then(change, GUARDS), OrEmpty(Table)).read(source, at)?;
    let (((from, to), guards), map) = parts;
    Ok(MoveBody::At {
        from,
        to,
        guards,
        map,
    })
}

/// Reads a word, two names, and what they become.
fn four_names(
    word: Keyword,
    source: &Source<'_>,
    at: &mut usize,
) -> Result<(Name, Name, Name, Name), SyntaxFault>
    ensures { IsRead (four_names word) (source_of source.now.text.now source.now.tokens.now) at.old at.new result }
{
    let two = Then(AnyName, AnyName);
    let head = Sign(Symbol::Reserved(word));
    let parts = Then(Behind(head, two), Behind(ARROW, two)).read(source, at)?;
    let ((a, b), (c, d)) = parts;
    Ok((a, b, c, d))
}

/// A move of neighbours.
fn pair_move(source: &Source<'_>, at: &mut usize) -> Result<MoveBody, SyntaxFault>
    ensures { IsRead pair_move (source_of source.now.text.now source.now.tokens.now) at.old at.new result }
{
    let (a, b, c, d) = four_names(Keyword::Pair, source, at)?;
    Ok(MoveBody::Pair { a, b, c, d })
}

/// A move of the last and the first position.
fn ring_move(source: &Source<'_>, at: &mut usize) -> Result<MoveBody, SyntaxFault>
    ensures { IsRead ring_move (source_of source.now.text.now source.now.tokens.now) at.old at.new result }
{
    let (a, b, c, d) = four_names(Keyword::Ring, source, at)?;
    Ok(MoveBody::Ring { a, b, c, d })
}

/// A move of any two positions.
fn two_move(source: &Source<'_>, at: &mut usize) -> Result<MoveBody, SyntaxFault>
    ensures { IsRead two_move (source_of source.now.text.now source.now.tokens.now) at.old at.new result }
{
    let (a, b, c, d) = four_names(Keyword::Two, source, at)?;
    Ok(MoveBody::Two { a, b, c, d })
}

/// A move of a cell.
fn set_move(source: &Source<'_>, at: &mut usize) -> Result<MoveBody, SyntaxFault>
    ensures { IsRead set_move (source_of source.now.text.now source.now.tokens.now) at.old at.new result }
{
    let parts = Then(Behind(SET, AnyName), Behind(ARROW, AnyName)).read(source, at)?;
    let (from, to) = parts;
    Ok(MoveBody::Set { from, to })
}

/// A letter is sent.
fn send_move(source: &Source<'_>, at: &mut usize) -> Result<MoveBody, SyntaxFault>
    ensures { IsRead send_move (source_of source.now.text.now source.now.tokens.now) at.old at.new result }
{
    SEND.read(source, at)?;
    let letter = AnyName.read(source, at)?;
    Ok(MoveBody::Send { letter })
}

/// A letter is received.
fn recv_move(source: &Source<'_>, at: &mut usize) -> Result<MoveBody, SyntaxFault>
    ensures { IsRead recv_move (source_of source.now.text.now source.now.tokens.now) at.old at.new result }
{
    RECV.read(source, at)?;
    let letter = AnyName.read(source, at)?;
    Ok(MoveBody::Recv { letter })
}

const MORE_PUSHED: UpTo<AnyName> = UpTo {
    limit: MAX_PUSHED - 1,
    what: What::Pushed,
    form: AnyName,
};

/// The letters that a move pushes.
#[derive(Clone, Copy)]
pub struct Pushed;

impl Form for Pushed {
    type Meaning = Sequence<Name>;

    ghost grammar = { λ _. pushed };

    fn opens(&self, source: &Source<'_>, at: usize) -> bool {
        PUSH.opens(source, at)
    }

    fn read(&self, source: &Source<'_>, at: &mut usize) -> Result<Sequence<Name>, SyntaxFault> {
        Behind(PUSH, NonEmpty(AnyName, MORE_PUSHED)).read(source, at)
    }
}

/// A letter is taken from a stack, and others may be put on it.
fn pop_move(source: &Source<'_>, at: &mut usize) -> Result<MoveBody, SyntaxFault>
    ensures { IsRead pop_move (source_of source.now.text.now source.now.tokens.now) at.old at.new result }
{
    let parts = Then(Behind(POP, AnyName), OrEmpty(Pushed)).read(source, at)?;
    let (letter, push) = parts;
    Ok(MoveBody::Stack {
        pop: Some(letter),
        push,
    })
}

/// Letters are put on a stack.
fn push_move(source: &Source<'_>, at: &mut usize) -> Result<MoveBody, SyntaxFault>
    ensures { IsRead push_move (source_of source.now.text.now source.now.tokens.now) at.old at.new result }
{
    let push = Pushed.read(source, at)?;
    Ok(MoveBody::Stack { pop: None, push })
}

/// A move of a channel or a stack.
fn channel_or_stack_move(source: &Source<'_>, at: &mut usize) -> Result<MoveBody, SyntaxFault>
    ensures { IsRead channel_or_stack_move (source_of source.now.text.now source.now.tokens.now) at.old at.new result }
{
    if SEND.opens(source, *at) {
        return send_move(source, at);
    }
    if RECV.opens(source, *at) {
        return recv_move(source, at);
    }
    if POP.opens(source, *at) {
        return pop_move(source, at);
    }
    push_move(source, at)
}

/// A move of every language.
fn common_move(source: &Source<'_>, at: &mut usize) -> Result<MoveBody, SyntaxFault>
    ensures { IsRead common_move (source_of source.now.text.now source.now.tokens.now) at.old at.new result }
{
    if AT.opens(source, *at) {
        return at_move(source, at);
    }
    if PAIR.opens(source, *at) {
        return pair_move(source, at);
    }
    if RING.opens(source, *at) {
        return ring_move(source, at);
    }
    if TWO.opens(source, *at) {
        return two_move(source, at);
    }
    if SET.opens(source, *at) {
        return set_move(source, at);
    }
    channel_or_stack_move(source, at)
}

/// A position is added to an array.
fn spawn_move(source: &Source<'_>, at: &mut usize) -> Result<MoveBody, SyntaxFault>
    ensures { IsRead spawn_move (source_of source.now.text.now source.now.tokens.now) at.old at.new result }
{
    SPAWN.read(source, at)?;
    let letter = AnyName.read(source, at)?;
    Ok(MoveBody::Spawn { letter })
}

/// A position leaves an array.
fn exit_move(source: &Source<'_>, at: &mut usize) -> Result<MoveBody, SyntaxFault>
    ensures { IsRead exit_move (source_of source.now.text.now source.now.tokens.now) at.old at.new result }
{
    EXIT.read(source, at)?;
    let letter = AnyName.read(source, at)?;
    Ok(MoveBody::Exit { letter })
}

/// A letter is lost.
fn lose_move(source: &Source<'_>, at: &mut usize) -> Result<MoveBody, SyntaxFault>
    ensures { IsRead lose_move (source_of source.now.text.now source.now.tokens.now) at.old at.new result }
{
    LOSE.read(source, at)?;
    let letters = Base.read(source, at)?;
    Ok(MoveBody::Lose { letters })
}

/// A move that came with language 2.
#[derive(Clone, Copy)]
struct LaterMove;

impl Form for LaterMove {
    type Meaning = MoveBody;

    ghost grammar = { λ _. later_move };

    fn opens(&self, source: &Source<'_>, at: usize) -> bool {
        SPAWN.opens(source, at) || (EXIT.opens(source, at) || LOSE.opens(source, at))
    }

    fn read(&self, source: &Source<'_>, at: &mut usize) -> Result<MoveBody, SyntaxFault> {
        if SPAWN.opens(source, *at) {
            return spawn_move(source, at);
        }
        if EXIT.opens(source, *at) {
            return exit_move(source, at);
        }
        lose_move(source, at)
    }
}

/// A move.
fn any_move(language: u32, source: &Source<'_>, at: &mut usize) -> Result<MoveBody, SyntaxFault>
    ensures { IsRead (any_move language) (source_of source.now.text.now source.now.tokens.now) at.old at.new result }
{
    let later = Only {
        allowed: 2 <= language,
        form: LaterMove,
    };
    if later.opens(source, *at) {
        return later.read(source, at);
    }
    common_move(source, at)
}

/// A step of a rule, in a text of this language.
#[derive(Clone, Copy)]
pub struct Step {
    pub language: u32,
}

impl Form for Step {
    type Meaning = MoveText;

    ghost grammar = { λ x. step x.language };

    fn opens(&self, source: &Source<'_>, at: usize) -> bool {
        AnyName.opens(source, at)
    }

    fn read(&self, source: &Source<'_>, at: &mut usize) -> Result<MoveText, SyntaxFault> {
        let section = AnyName.read(source, at)?;
        COLON.read(source, at)?;
        let body = any_move(self.language, source, at)?;
        ended(MoveText { section, body }, SEMICOLON, source, at)
    }
}

/// A rule, in a text of this language.
#[derive(Clone, Copy)]
pub struct Rule {
    pub language: u32,
}

impl Form for Rule {
    type Meaning = RuleText;

    ghost grammar = { λ x. rule x.language };

    fn opens(&self, source: &Source<'_>, at: usize) -> bool {
        RULE.opens(source, at)
    }

    fn read(&self, source: &Source<'_>, at: &mut usize) -> Result<RuleText, SyntaxFault> {
        let steps = Many(Step {
            language: self.language,
        });
        let body = Ended(Behind(BRACE_LEFT, steps), BRACE_RIGHT);
        let parts = Then(Behind(RULE, AnyName), body).read(source, at)?;
        let (name, moves) = parts;
        Ok(RuleText { name, moves })
    }
}
