// The type that the words of a declaration or of a cast name (C99 6.7.2).

ghost use Rattle.std.specs.Prelude.{◌≡◌, ◌+◌, ◌<◌, ◌≤◌, ◌^◌};
ghost use Rattle.pk_ast.specs.Views.{specifiers_tree};
ghost use Rattle.pk_type_scope.specs.Notes.{noted_in, with_failures};
ghost use Rattle.pk_type_scope.specs.Scopes.{names_in, scoping_of};
ghost use Rattle.pk_type_scope.specs.Specifiers as definitions;

use crate::declarations::{Typing, const_meant, is_type_name, type_meant};
use crate::failures::Notes;
use crate::scopes::Scope;
use pk_ast::{Identifier, Specifier, SpecifierWord, Specifiers};
use pk_ctypes::{IntType, Rule};

/// How often each word stands among some.
#[derive(Clone, Copy)]
pub struct Counts {
    pub voids: u64,
    pub chars: u64,
    pub shorts: u64,
    pub ints: u64,
    pub longs: u64,
    pub signeds: u64,
    pub unsigneds: u64,
}

/// How often a word stands in a type's name.
#[derive(Clone, Copy)]
pub enum Times {
    Never,
    Once,
    Twice,
    AtMostOnce,
}

fn occurs(times: Times, count: u64) -> bool
    ensures { result ≡ definitions.occurs times count }
{
    match times {
        Times::Never => count == 0,
        Times::Once => count == 1,
        Times::Twice => count == 2,
        Times::AtMostOnce => count <= 1,
    }
}

#[tactic(auto, unfolding(crate::specs::Specifiers::has_words))]
fn has_words(
    counts: &Counts,
    void: Times,
    char: Times,
    short: Times,
    int: Times,
    long: Times,
    signed: Times,
    unsigned: Times,
) -> bool
    ensures { result ≡ definitions.has_words counts.now void char short int long signed unsigned }
{
    occurs(void, counts.voids)
        && occurs(char, counts.chars)
        && occurs(short, counts.shorts)
        && occurs(int, counts.ints)
        && occurs(long, counts.longs)
        && occurs(signed, counts.signeds)
        && occurs(unsigned, counts.unsigneds)
}

fn counted(counts: Counts, word: SpecifierWord) -> Counts
    requires { definitions.total_of counts < 2 ^ 63 }
    ensures counts { result ≡ definitions.counted counts word }
    ensures total { definitions.total_of result ≤ definitions.total_of counts + 1 }
{
    let mut counts = counts;
    match word {
        SpecifierWord::Void => counts.voids += 1,
        SpecifierWord::Char => counts.chars += 1,
        SpecifierWord::Short => counts.shorts += 1,
        SpecifierWord::Int => counts.ints += 1,
        SpecifierWord::Long => counts.longs += 1,
        SpecifierWord::Signed => counts.signeds += 1,
        SpecifierWord::Unsigned => counts.unsigneds += 1,
        SpecifierWord::Const => {}
        SpecifierWord::TypeName { .. } => {}
        SpecifierWord::Enum => {}
        SpecifierWord::Tag { .. } => {}
    }
    counts
}

fn type_counted(counts: &Counts) -> Typing
    ensures { result ≡ definitions.type_counted counts.now }
{
    use Times::{AtMostOnce, Never, Once, Twice};
    if has_words(counts, Once, Never, Never, Never, Never, Never, Never) {
        return Typing::Void;
    }
    if has_words(counts, Never, Once, Never, Never, Never, Never, Never) {
        return Typing::Integer(IntType::Char);
    }
    if has_words(counts, Never, Once, Never, Never, Never, Once, Never) {
        return Typing::Integer(IntType::SChar);
    }
    if has_words(counts, Never, Once, Never, Never, Never, Never, Once) {
        return Typing::Integer(IntType::UChar);
    }
    if has_words(
        counts, Never, Never, Once, AtMostOnce, Never, AtMostOnce, Never,
    ) {
        return Typing::Integer(IntType::Short);
    }
    if has_words(counts, Never, Never, Once, AtMostOnce, Never, Never, Once) {
        return Typing::Integer(IntType::UShort);
    }
    if has_words(counts, Never, Never, Never, Once, Never, AtMostOnce, Never) {
        return Typing::Integer(IntType::Int);
    }
    if has_words(counts, Never, Never, Never, Never, Never, Once, Never) {
        return Typing::Integer(IntType::Int);
    }
    if has_words(counts, Never, Never, Never, AtMostOnce, Never, Never, Once) {
        return Typing::Integer(IntType::UInt);
    }
    if has_words(
        counts, Never, Never, Never, AtMostOnce, Once, AtMostOnce, Never,
    ) {
        return Typing::Integer(IntType::Long);
    }
    if has_words(counts, Never, Never, Never, AtMostOnce, Once, Never, Once) {
        return Typing::Integer(IntType::ULong);
    }
    if has_words(
        counts, Never, Never, Never, AtMostOnce, Twice, AtMostOnce, Never,
    ) {
        return Typing::Integer(IntType::LLong);
    }
    if has_words(counts, Never, Never, Never, AtMostOnce, Twice, Never, Once) {
        return Typing::Integer(IntType::ULLong);
    }
    Typing::Unknown
}

// The type that the keywords name, unknown where they name none.
fn type_spelled(words: &Specifiers) -> Typing
    ensures { result ≡ definitions.type_spelled (specifiers_tree words.now) }
{
    let none = Counts {
        voids: 0,
        chars: 0,
        shorts: 0,
        ints: 0,
        longs: 0,
        signeds: 0,
        unsigneds: 0,
    };
    let mut counts = counted(none, words.first.word);
    for specifier in &words.more {
        counts = counted(counts, specifier.word);
    }
    type_counted(&counts)
}

// The name that a word is looked up by, if it is a type name or a tag.
fn name_of(specifier: Specifier) -> Option<Identifier>
    ensures { result ≡ definitions.first_name (definitions.word_meant specifier.word specifier.at) }
{
    match specifier.word {
        SpecifierWord::TypeName { start, end } => Some(Identifier {
            start,
            end,
            at: specifier.at,
            is_tag: false,
        }),
        SpecifierWord::Tag { start, end } => Some(Identifier {
            start,
            end,
            at: specifier.at,
            is_tag: true,
        }),
        SpecifierWord::Void => None,
        SpecifierWord::Char => None,
        SpecifierWord::Short => None,
        SpecifierWord::Int => None,
        SpecifierWord::Long => None,
        SpecifierWord::Signed => None,
        SpecifierWord::Unsigned => None,
        SpecifierWord::Const => None,
        SpecifierWord::Enum => None,
    }
}

fn first_name(words: &[Specifier]) -> Option<Identifier>
    ensures { result ≡ definitions.first_name (definitions.words_meant words.now) }
{
    for specifier in words {
        if let Some(name) = name_of(*specifier) {
            return Some(name);
        }
    }
    None
}

/// The type name or the tag among the words, if one is there.
pub fn type_name_among(words: &Specifiers) -> Option<Identifier>
    ensures { result ≡ definitions.type_name_among (specifiers_tree words.now) }
{
    match name_of(words.first) {
        Some(name) => Some(name),
        None => first_name(&words.more),
    }
}

/// The type that the words name in a scope, unknown where they name none.
#[tactic(auto, unfolding(crate::specs::Specifiers::type_named))]
pub fn type_named(scope: &Scope<'_>, words: &Specifiers) -> Typing
    ensures { result ≡ definitions.type_named (names_in (scoping_of scope.now)) (specifiers_tree words.now) }
{
    match type_name_among(words) {
        None => type_spelled(words),
        Some(name) => type_meant(scope.lookup(name)),
    }
}

/// Notes that the words name no type in a scope, where they don't.
#[tactic(auto, unfolding(crate::specs::Specifiers::word_failures))]
pub fn note_specifiers(notes: &mut Notes, scope: &Scope<'_>, words: &Specifiers)
    ensures { noted_in notes.new ≡ with_failures (noted_in notes.old)
        (definitions.word_failures (names_in (scoping_of scope.now)) (specifiers_tree words.now)) }
{
    match type_name_among(words) {
        None => {
            let is_unknown = type_spelled(words).is_unknown();
            notes.fail_if(is_unknown, Rule::Specifiers, words.first.at);
        }
        Some(name) => {
            let is_type = is_type_name(scope.lookup(name));
            notes.fail_if(!is_type, Rule::Undeclared, name.at);
        }
    }
}

fn is_const_word(word: SpecifierWord) -> bool
    ensures { result ≡ definitions.is_const_word word }
{
    match word {
        SpecifierWord::Const => true,
        SpecifierWord::Void => false,
        SpecifierWord::Char => false,
        SpecifierWord::Short => false,
        SpecifierWord::Int => false,
        SpecifierWord::Long => false,
        SpecifierWord::Signed => false,
        SpecifierWord::Unsigned => false,
        SpecifierWord::TypeName { .. } => false,
        SpecifierWord::Enum => false,
        SpecifierWord::Tag { .. } => false,
    }
}

/// Whether `const` stands among some words.
pub fn has_const(words: &[Specifier]) -> bool
    ensures { result ≡ definitions.has_const words.now }
{
    for specifier in words {
        if is_const_word(specifier.word) {
            return true;
        }
    }
    false
}

/// Whether `const` stands among the words.
pub fn is_const_among(words: &Specifiers) -> bool
    ensures { result ≡ definitions.is_const_among (specifiers_tree words.now) }
{
    is_const_word(words.first.word) || has_const(&words.more)
}

fn is_const_by(scope: &Scope<'_>, name: Option<Identifier>) -> bool
    ensures { result ≡ definitions.const_by (names_in (scoping_of scope.now)) name }
{
    match name {
        None => false,
        Some(name) => const_meant(scope.lookup(name)),
    }
}

/// Whether the words name the type of const objects in a scope: `const` is among them, or their type name is one for such a type.
#[tactic(auto, unfolding(crate::specs::Specifiers::names_const))]
pub fn is_const(scope: &Scope<'_>, words: &Specifiers) -> bool
    ensures { result ≡ definitions.names_const (names_in (scoping_of scope.now)) (specifiers_tree words.now) }
{
    is_const_among(words) || is_const_by(scope, type_name_among(words))
}
