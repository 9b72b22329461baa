//! Printing a protocol in its canonical layout: each item on a line of its own, and its words with
//! one space between them, but none before `:`, `;`, `*` and `+`. It goes through the protocol once,
//! in time linear in the text.
#![tactic(auto)]

ghost use Rattle.std.specs.Prelude.{◌≡◌, ◌++◌, ◌∷◌, [], List, codes, map, IfOk, OnOk, if◌then◌else◌};
ghost use Rattle.std.specs.List.{flat_map};
ghost use Rattle.protocol_layout.specs.Layout.{atom_words, base_words, count_words, entry_words};
ghost use Rattle.protocol_layout.specs.private.Written.{Adds, AddsLine, AddsLines};
ghost use Rattle.protocol_layout.specs.Layout.{four_words, guard_words, in_braces, items, kind_rest, kind_word, language_words, layout};
ghost use Rattle.protocol_layout.specs.Layout.{move_words, names_words, part_words, pattern_words, popped_words};
ghost use Rattle.protocol_layout.specs.Layout.{pushed_words, region_word, row_words, rule_words, section_words};
ghost use Rattle.protocol_syntax.specs.Spacing.{Word, is_attached, spaced};
ghost use Rattle.protocol_layout.specs.Layout.{step_words, table_words};
ghost use Rattle.protocol_layout.specs.Places.{IsReadBack};

use protocol_syntax::{
    AtomText, BaseText, GuardText, Kind, Many, MoveBody, MoveText, Name, PartText, Protocol,
    Region, RowText, RuleText, SectionText,
};
use std::alloc::{AllocError, Global};

/// Whether no space stands before the word.
fn is_attached(word: &[u8]) -> bool
    ensures { result ≡ is_attached word.now }
{
    match word {
        [] => false,
        [first, ..] => *first == b':' || *first == b';' || *first == b'*' || *first == b'+',
    }
}

/// Writes a word after others on its line.
fn write_word(out: &mut Vec<u8>, word: &[u8]) -> Result<(), AllocError>
    ensures { OnOk result (out.new.items ≡ out.old.items ++ spaced word.now) }
{
    if is_attached(word) {
        out.extend_from_slice(word)?;
        return Ok(());
    }
    out.push(b' ')?;
    out.extend_from_slice(word)?;
    Ok(())
}

/// Ends a line.
fn end_line(out: &mut Vec<u8>) -> Result<(), AllocError>
    ensures { OnOk result (out.new.items ≡ out.old.items ++ 10 ∷ []) }
{
    out.push(b'\n')?;
    Ok(())
}

/// Writes `}`, and ends the line.
fn end_block(out: &mut Vec<u8>) -> Result<(), AllocError>
    ensures { OnOk result (out.new.items ≡ out.old.items ++ (spaced (codes "}") ++ 10 ∷ [])) }
{
    write_word(out, b"}")?;
    end_line(out)
}

fn write_name(out: &mut Vec<u8>, name: &Name) -> Result<(), AllocError>
    ensures { OnOk result (out.new.items ≡ out.old.items ++ spaced name.now.text) }
{
    write_word(out, name.text.as_str().as_bytes())
}

/// Writes the words one after the other.
fn write_words(out: &mut Vec<u8>, words: &[&[u8]]) -> Result<(), AllocError>
    ensures { OnOk result (Adds out.old.items out.new.items (map (λ w. w.now) words.now)) }
{
    'words: for word in words {
        write_word(out, word)?;
    }
    Ok(())
}

fn bytes(name: &Name) -> &[u8]
    ensures { result.now ≡ name.now.text }
{
    name.text.as_str().as_bytes()
}

fn write_names(out: &mut Vec<u8>, names: &[Name]) -> Result<(), AllocError>
    ensures { OnOk result (Adds out.old.items out.new.items (names_words names.now)) }
{
    'names: for name in names {
        write_name(out, name)?;
    }
    Ok(())
}

/// What is written as words.
trait Written {
    // The words.
    ghost words: { Self → List Word };

    /// Writes the words behind what is written.
    fn write(&self, out: &mut Vec<u8>) -> Result<(), AllocError>
        ensures { OnOk result (Adds out.old.items out.new.items (words self.now)) };
}

/// Writes the words of the items, one after the other.
fn write_each<T: Written>(out: &mut Vec<u8>, items: &[T]) -> Result<(), AllocError>
    ensures { OnOk result (Adds out.old.items out.new.items (flat_map T.words items.now)) }
{
    'items: for item in items {
        item.write(out)?;
    }
    Ok(())
}

fn write_set(out: &mut Vec<u8>, letters: &[Name]) -> Result<(), AllocError>
    ensures { OnOk result (Adds out.old.items out.new.items (in_braces (names_words letters.now))) }
{
    write_word(out, b"{")?;
    write_names(out, letters)?;
    write_word(out, b"}")
}

fn kind_word(kind: Kind) -> &'static [u8]
    ensures { result.now ≡ kind_word kind }
{
    match kind {
        Kind::Cell => b"cell",
        Kind::Array => b"array",
        Kind::Channel => b"channel",
        Kind::Stack => b"stack",
        Kind::LossyChannel => b"lossy",
    }
}

fn write_kind_rest(out: &mut Vec<u8>, kind: Kind) -> Result<(), AllocError>
    ensures { OnOk result (Adds out.old.items out.new.items (kind_rest kind)) }
{
    match kind {
        Kind::Cell | Kind::Array | Kind::Channel | Kind::Stack => Ok(()),
        Kind::LossyChannel => write_word(out, b"channel"),
    }
}

fn write_section(out: &mut Vec<u8>, section: &SectionText) -> Result<(), AllocError>
    ensures { OnOk result (AddsLine out.old.items out.new.items (section_words section.now)) }
{
    out.extend_from_slice(kind_word(section.kind))?;
    write_kind_rest(out, section.kind)?;
    write_name(out, &section.name)?;
    write_set(out, section.letters.as_slice())?;
    end_line(out)
}

fn write_count(out: &mut Vec<u8>, many: Many) -> Result<(), AllocError>
    ensures { OnOk result (Adds out.old.items out.new.items (count_words many)) }
{
    match many {
        Many::One => Ok(()),
        Many::Star => write_word(out, b"*"),
        Many::Plus => write_word(out, b"+"),
    }
}

fn write_base(out: &mut Vec<u8>, base: &BaseText) -> Result<(), AllocError>
    ensures { OnOk result (Adds out.old.items out.new.items (base_words base.now)) }
{
    match base {
        BaseText::Letter(letter) => write_name(out, letter),
        BaseText::Set(letters) => write_set(out, letters.as_slice()),
        BaseText::Any => write_word(out, b"any"),
    }
}

impl Written for AtomText {
    ghost words = { atom_words };

    fn write(&self, out: &mut Vec<u8>) -> Result<(), AllocError> {
        write_base(out, &self.base)?;
        write_count(out, self.many)
    }
}

fn write_pattern(out: &mut Vec<u8>, pattern: &[AtomText]) -> Result<(), AllocError>
    ensures { OnOk result (Adds out.old.items out.new.items (pattern_words pattern.now)) }
{
    match pattern {
        [] => write_word(out, b"empty"),
        [_, ..] => write_each(out, pattern),
    }
}

impl Written for PartText {
    ghost words = { part_words };

    fn write(&self, out: &mut Vec<u8>) -> Result<(), AllocError> {
        write_words(out, &[bytes(&self.section), b":"])?;
        write_pattern(out, self.atoms.as_slice())?;
        write_word(out, b";")
    }
}

fn write_row(out: &mut Vec<u8>, head: &[u8], row: &RowText) -> Result<(), AllocError>
    ensures { OnOk result (AddsLine out.old.items out.new.items (row_words head.now row.now)) }
{
    out.extend_from_slice(head)?;
    write_word(out, b"{")?;
    write_each(out, row.parts.as_slice())?;
    end_block(out)
}

fn quantifier_word(all: bool) -> &'static [u8]
    ensures { result.now ≡ (if all then codes "all" else codes "some") }
{
    if all { b"all" } else { b"some" }
}

fn region_word(region: Region) -> &'static [u8]
    ensures { result.now ≡ region_word region }
{
    match region {
        Region::Left => b"left",
        Region::Right => b"right",
        Region::Others => b"others",
    }
}

impl Written for GuardText {
    ghost words = { guard_words };

    fn write(&self, out: &mut Vec<u8>) -> Result<(), AllocError> {
        write_words(
            out,
            &[
                b"when",
                quantifier_word(self.all),
                region_word(self.region),
                b"in",
            ],
        )?;
        write_set(out, self.letters.as_slice())
    }
}

impl Written for (Name, Name) {
    ghost words = { entry_words };

    fn write(&self, out: &mut Vec<u8>) -> Result<(), AllocError> {
        write_words(out, &[bytes(&self.0), b"->", bytes(&self.1), b";"])
    }
}

fn write_table(out: &mut Vec<u8>, table: &[(Name, Name)]) -> Result<(), AllocError>
    ensures { OnOk result (Adds out.old.items out.new.items (table_words table.now)) }
{
    match table {
        [] => Ok(()),
        [_, ..] => {
            write_words(out, &[b"map", b"{"])?;
            write_each(out, table)?;
            write_word(out, b"}")
        }
    }
}

fn write_pushed(out: &mut Vec<u8>, letters: &[Name]) -> Result<(), AllocError>
    ensures { OnOk result (Adds out.old.items out.new.items (pushed_words letters.now)) }
{
    match letters {
        [] => Ok(()),
        [_, ..] => {
            write_word(out, b"push")?;
            write_names(out, letters)
        }
    }
}

fn write_popped(out: &mut Vec<u8>, letter: &Option<Name>) -> Result<(), AllocError>
    ensures { OnOk result (Adds out.old.items out.new.items (popped_words letter.now)) }
{
    match letter {
        None => Ok(()),
        Some(letter) => {
            write_word(out, b"pop")?;
            write_name(out, letter)
        }
    }
}

/// Writes the word, two names, `->` and two names.
fn write_four(
    out: &mut Vec<u8>,
    head: &[u8],
    a: &Name,
    b: &Name,
    c: &Name,
    d: &Name,
) -> Result<(), AllocError>
    ensures { OnOk result (Adds out.old.items out.new.items (four_words head.now a.now b.now c.now d.now)) }
{
    write_words(out, &[head, bytes(a), bytes(b), b"->", bytes(c), bytes(d)])
}

fn write_at_move(
    out: &mut Vec<u8>,
    from: &Name,
    to: &Name,
    when: &[GuardText],
    map: &[(Name, Name)],
) -> Result<(), AllocError>
    ensures { OnOk result (Adds out.old.items out.new.items
        (codes "at" ∷ from.now.text ∷ codes "->" ∷ to.now.text ∷ (flat_map guard_words when.now ++ table_words map.now))) }
{
    write_words(out, &[b"at", bytes(from), b"->", bytes(to)])?;
    write_each(out, when)?;
    write_table(out, map)
}

fn write_set_move(out: &mut Vec<u8>, from: &Name, to: &Name) -> Result<(), AllocError>
    ensures { OnOk result (Adds out.old.items out.new.items
        (codes "set" ∷ from.now.text ∷ codes "->" ∷ to.now.text ∷ [])) }
{
    write_words(out, &[b"set", bytes(from), b"->", bytes(to)])
}

fn write_letter_move(out: &mut Vec<u8>, head: &[u8], letter: &Name) -> Result<(), AllocError>
    ensures { OnOk result (Adds out.old.items out.new.items (head.now ∷ letter.now.text ∷ [])) }
{
    write_words(out, &[head, bytes(letter)])
}

fn write_stack_move(out: &mut Vec<u8>, pop: &Option<Name>, push: &[Name]) -> Result<(), AllocError>
    ensures { OnOk result (Adds out.old.items out.new.items (popped_words pop.now ++ pushed_words push.now)) }
{
    write_popped(out, pop)?;
    write_pushed(out, push)
}

fn write_lose_move(out: &mut Vec<u8>, base: &BaseText) -> Result<(), AllocError>
    ensures { OnOk result (Adds out.old.items out.new.items (codes "lose" ∷ base_words base.now)) }
{
    write_word(out, b"lose")?;
    write_base(out, base)
}

fn write_body(out: &mut Vec<u8>, body: &MoveBody) -> Result<(), AllocError>
    ensures { OnOk result (Adds out.old.items out.new.items (move_words body.now)) }
{
    match body {
        MoveBody::At {
            from,
            to,
            guards,
            map,
        } => { write_at_move(out, from, to, guards.as_slice(), map.as_slice()) }
        MoveBody::Pair { a, b, c, d } => write_four(out, b"pair", a, b, c, d),
        MoveBody::Ring { a, b, c, d } => write_four(out, b"ring", a, b, c, d),
        MoveBody::Two { a, b, c, d } => write_four(out, b"two", a, b, c, d),
        MoveBody::Set { from, to } => write_set_move(out, from, to),
        MoveBody::Send { letter } => write_letter_move(out, b"send", letter),
        MoveBody::Recv { letter } => write_letter_move(out, b"recv", letter),
        MoveBody::Stack { pop, push } => write_stack_move(out, pop, push.as_slice()),
        MoveBody::Spawn { letter } => write_letter_move(out, b"spawn", letter),
        MoveBody::Exit { letter } => write_letter_move(out, b"exit", letter),
        MoveBody::Lose { letters: base } => write_lose_move(out, base),
    }
}

impl Written for MoveText {
    ghost words = { step_words };

    fn write(&self, out: &mut Vec<u8>) -> Result<(), AllocError> {
        write_words(out, &[bytes(&self.section), b":"])?;
        write_body(out, &self.body)?;
        write_word(out, b";")
    }
}

fn write_rule(out: &mut Vec<u8>, rule: &RuleText) -> Result<(), AllocError>
    ensures { OnOk result (AddsLine out.old.items out.new.items (rule_words rule.now)) }
{
    out.extend_from_slice(b"rule")?;
    write_words(out, &[bytes(&rule.name), b"{"])?;
    write_each(out, rule.moves.as_slice())?;
    end_block(out)
}

fn write_sections(out: &mut Vec<u8>, sections: &[SectionText]) -> Result<(), AllocError>
    ensures { OnOk result (AddsLines out.old.items out.new.items (map section_words sections.now)) }
{
    'sections: for section in sections {
        write_section(out, section)?;
    }
    Ok(())
}

fn write_rows(out: &mut Vec<u8>, head: &[u8], rows: &[RowText]) -> Result<(), AllocError>
    ensures { OnOk result (AddsLines out.old.items out.new.items (map (row_words head.now) rows.now)) }
{
    'rows: for row in rows {
        write_row(out, head, row)?;
    }
    Ok(())
}

fn write_rules(out: &mut Vec<u8>, rules: &[RuleText]) -> Result<(), AllocError>
    ensures { OnOk result (AddsLines out.old.items out.new.items (map rule_words rules.now)) }
{
    'rules: for rule in rules {
        write_rule(out, rule)?;
    }
    Ok(())
}

fn write_language(out: &mut Vec<u8>, language: u32) -> Result<(), AllocError>
    ensures { OnOk result (Adds out.old.items out.new.items (language_words language)) }
{
    if 2 <= language {
        return write_words(out, &[b"language", b"2"]);
    }
    Ok(())
}

fn write_head(out: &mut Vec<u8>, protocol: &Protocol) -> Result<(), AllocError>
    ensures { OnOk result (AddsLine out.old.items out.new.items
        (codes "protocol" ∷ protocol.now.name.text ∷ language_words protocol.now.language)) }
{
    out.extend_from_slice(b"protocol")?;
    write_name(out, &protocol.name)?;
    write_language(out, protocol.language)?;
    end_line(out)
}

fn write_items(out: &mut Vec<u8>, protocol: &Protocol) -> Result<(), AllocError>
    ensures { OnOk result (AddsLines out.old.items out.new.items (items protocol.now)) }
{
    write_head(out, protocol)?;
    write_sections(out, protocol.sections.as_slice())?;
    write_rows(out, b"init", protocol.init.as_slice())?;
    write_rules(out, protocol.rules.as_slice())?;
    write_rows(out, b"bad", protocol.bad.as_slice())
}

/// The text of the protocol in its canonical layout. A table without an entry is left out.
///
/// Where some text is the protocol, the layout is a text of it too, apart from the places of names.
/// An error is answered where there is no memory for the text.
pub fn print(alloc: Global, protocol: &Protocol) -> Result<Vec<u8>, AllocError>
    ensures layout { IfOk result (λ text. text.items ≡ layout protocol.now) }
    ensures read_back { IfOk result (λ text. IsReadBack text.items protocol.now) }
{
    let mut text = Vec::new(alloc);
    write_items(&mut text, protocol)?;
    Ok(text)
}
