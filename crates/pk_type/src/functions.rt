// Functions of a text.

ghost use Rattle.std.specs.Prelude.{◌≡◌, ◌<◌, ◌++◌, ◌∷◌, ◌&&◌, ◌||◌, [], Option, option_map, is_some, IfOk, OnOk, length};
ghost use Rattle.std.specs.Str.Lossy.{utf8_lossy};
ghost use Rattle.pk_ast.specs.Views.{block_tree, specifiers_tree, parameter_tree, parameter_trees, function_tree};
ghost use Rattle.pk_typed.specs.Views.{body_tree};
ghost use Rattle.pk_type_scope.specs.declared.failures.Failure.{Failure};
ghost use Rattle.pk_ctypes.specs.declared.words.Rule.TheVariants as rule;
ghost use Rattle.pk_type_scope.specs.Failures.{fails_if, noted};
ghost use Rattle.pk_type_scope.specs.Scopes.{names_in};
ghost use Rattle.pk_type_scope.specs.Specifiers.{type_named, word_failures};
ghost use Rattle.pk_type_declaration.specs.Views.{walked_in};
ghost use Rattle.pk_type_declaration.specs.Walks as walks;
ghost use Rattle.pk_type_declaration.specs.Rules.{failing};
ghost use Rattle.pk_type.specs.Rules as rules;
ghost use Rattle.pk_type.specs.Files as files;
ghost use Rattle.pk_type.specs.Files.{Filed};
ghost use Rattle.pk_type.specs.Functions as definitions;
ghost use Rattle.pk_type.specs.Views.{defined_names, filed_in, entry_tree, signature_tree};
ghost use Rattle.pk_type.specs.Rules.{noting};

use crate::bodies::body;
use crate::defined::Defined;
use crate::files::{Entry, File};
use crate::signatures::Signature;
use pk_ast::{Block, Function, Identifier, Parameter, Specifiers};
use pk_ctypes::{Name, Pos, Rule};
use pk_type_declaration::{Walk, Words, special, type_or_int};
use pk_type_scope::{Callee, Declaration, Function as Declared, Typing, spelling, type_named};
use pk_typed::{Body, Local};
use std::alloc::{AllocError, Global};

fn ordinary(signature: &Signature) -> Callee
    ensures { result ≡ definitions.ordinary (signature_tree signature.now) }
{
    Callee::Ordinary {
        returns: signature.returns,
        parameters: signature.parameters.len(),
    }
}

// What a call of a function is: a special name without a body in the text is a form of its own.
fn callee_of(signature: &Signature, is_defined: bool, special: Option<Callee>) -> Callee
    ensures { result ≡ definitions.callee_of (signature_tree signature.now) is_defined special }
{
    match special {
        None => ordinary(signature),
        Some(callee) => if is_defined {
            ordinary(signature)
        } else {
            callee
        },
    }
}

fn is_misused(signature: &Signature, special: Option<Callee>) -> bool
    ensures { result ≡ rules.is_misused (signature_tree signature.now) special }
{
    match special {
        None => false,
        Some(callee) => signature.is_wrong(callee),
    }
}

// A parameter without a name.
#[tactic(auto, unfolding(pk_ast::specs::Views::parameter_tree, pk_typed::specs::Views::local_tree))]
fn unnamed(walk: &mut Walk<'_>, p: &Parameter) -> Result<(), AllocError>
    ensures { OnOk result
        (walked_in walk.new ≡ definitions.unnamed noting (parameter_tree p.now) (walked_in walk.old)) }
{
    let typing = type_named(&walk.scope, &p.specifiers);
    walk.fail_if(typing.is_void(), Rule::Void, p.specifiers.first.at);
    walk.local(Local {
        name: None,
        int_type: type_or_int(typing),
        length: None,
    })
}

fn name_place(name: Option<Identifier>, at: Pos) -> Pos
    ensures { result ≡ rules.place_of_name name at }
{
    match name {
        None => at,
        Some(name) => name.at,
    }
}

// Notes what fails at the words of a parameter, and at its brackets.
fn note_parameter(walk: &mut Walk<'_>, p: &Parameter)
    ensures { walked_in walk.new ≡ failing noted
        (rules.parameter_failures (walks.here (walked_in walk.old)) (parameter_tree p.now)) (walked_in walk.old) }
{
    walk.note_words(&p.specifiers);
    let at = name_place(p.name, p.specifiers.first.at);
    walk.fail_if(p.brackets.is_some(), Rule::Array, at);
}

// A parameter, the next object of its function.
#[tactic(auto, unfolding(pk_ast::specs::Views::parameter_tree))]
fn parameter(walk: &mut Walk<'_>, alloc: Global, p: &Parameter) -> Result<(), AllocError>
    ensures { OnOk result
        (walked_in walk.new ≡ definitions.after_parameter noting (parameter_tree p.now) (walked_in walk.old)) }
{
    note_parameter(walk, p);
    match p.name {
        Some(name) => {
            let words = Words::of(&walk.scope, &p.specifiers);
            walk.object(alloc, words, false, None, name)?;
            Ok(())
        }
        None => unnamed(walk, p),
    }
}

fn parameters(walk: &mut Walk<'_>, alloc: Global, list: &[Parameter]) -> Result<(), AllocError>
    ensures { OnOk result (walked_in walk.new
        ≡ definitions.after_parameters noting (parameter_trees list.now) (walked_in walk.old)) }
{
    for p in list {
        parameter(walk, alloc, p)?;
    }
    Ok(())
}

fn both(a: bool, b: bool) -> bool
    ensures { result ≡ (a && b) }
{
    a && b
}

fn either(a: bool, b: bool) -> bool
    ensures { result ≡ (a || b) }
{
    a || b
}

// Whether a function is declared again with other types, or defined twice.
fn changes(signature: &Signature, has_body: bool, entry: Option<&Entry>) -> bool
    ensures { result ≡ rules.changes (signature_tree signature.now) has_body
        (option_map (λ e. entry_tree e.now) entry.entry) }
{
    match entry {
        None => false,
        Some(entry) => {
            let is_again = both(has_body, entry.is_defined);
            either(signature.differs(&entry.signature), is_again)
        }
    }
}

impl<'a> File<'a> {
    // Whether a function can't be declared here: another thing has its name, its types differ, or it is defined twice.
    fn is_redeclared(
        &self,
        signature: &Signature,
        has_body: bool,
        declared: Option<Declaration>,
    ) -> bool
        ensures { result ≡ rules.is_redeclared (filed_in self.now).functions
            (signature_tree signature.now) has_body declared }
    {
        match declared {
            None => false,
            Some(Declaration::Object(_)) => true,
            Some(Declaration::Enumerator(_)) => true,
            Some(Declaration::TypeName(_)) => true,
            Some(Declaration::Function(function)) => {
                let entry = self.functions.get(function.number);
                changes(signature, has_body, entry)
            }
        }
    }

    // The number of a function: that of its first declaration.
    fn number_of(&self, declared: Option<Declaration>) -> usize
        ensures { result ≡ definitions.number_of (filed_in self.now).functions declared }
    {
        match declared {
            None => self.functions.len(),
            Some(Declaration::Object(_)) => self.functions.len(),
            Some(Declaration::Enumerator(_)) => self.functions.len(),
            Some(Declaration::TypeName(_)) => self.functions.len(),
            Some(Declaration::Function(function)) => function.number,
        }
    }

    // The entry of a function, where it is new.
    #[tactic(auto, using(crate::proofs::FunctionLemmas::entries_push))]
    fn enter_new(
        &mut self,
        alloc: Global,
        number: usize,
        bytes: &[u8],
        signature: Signature,
    ) -> Result<(), AllocError>
        ensures { OnOk result (filed_in self.new
            ≡ definitions.and_entry number (utf8_lossy bytes.now) (signature_tree signature) (filed_in self.old)) }
    {
        if number == self.functions.len() {
            let name = Name::new(alloc, bytes)?;
            self.functions.push(Entry {
                name,
                signature,
                is_defined: false,
                body: None,
            })?;
        }
        Ok(())
    }

    // Notes what fails at the words and at the name of a function.
    #[tactic(auto, using(pk_type_statement::proofs::CaseLemmas::failing_twice))]
    fn note_rows(&mut self, words: &Specifiers, is_redeclared: bool, is_misused: bool, at: Pos)
        ensures { filed_in self.new ≡ files.on (failing noted (
            word_failures (walks.here (filed_in self.old).walked) (specifiers_tree words.now)
            ++ fails_if is_redeclared rule.Redeclared at ++ fails_if is_misused rule.Special at)) (filed_in self.old) }
    {
        self.note_words(words);
        self.to.walk.fail_if(is_redeclared, Rule::Redeclared, at);
        self.to.walk.fail_if(is_misused, Rule::Special, at);
    }

    fn declare(&mut self, name: Identifier, declaration: Declaration) -> Result<(), AllocError>
        ensures { OnOk result (filed_in self.new ≡ files.on (walks.after_name name declaration) (filed_in self.old)) }
    {
        let _ = self.to.walk.declare(name, declaration)?;
        Ok(())
    }

    // A function by its name: gives its number.
    fn named(
        &mut self,
        alloc: Global,
        defined: &Defined<'_>,
        returns: Typing,
        f: &Function,
    ) -> Result<usize, AllocError>
        requires { returns ≡ type_named (walks.here (filed_in self.old).walked) (specifiers_tree f.now.specifiers) }
        ensures filed { OnOk result (filed_in self.new
            ≡ definitions.after_head noting (defined_names defined.now) (function_tree f.now) (filed_in self.old)) }
        ensures number { IfOk result (λ n. n ≡ definitions.number_of (filed_in self.old).functions
            (names_in (filed_in self.old).walked.scoping f.now.name)) }
    {
        let bytes = spelling(self.to.walk.scope.text, f.name);
        let odd = special(bytes);
        let signature = Signature::of(alloc, &self.to.walk.scope, returns, &f.parameters)?;
        let before = self.to.walk.scope.lookup(f.name);
        let has_body = f.body.is_some();
        let is_redeclared = self.is_redeclared(&signature, has_body, before);
        let is_misused = is_misused(&signature, odd);
        let number = self.number_of(before);
        let callee = callee_of(&signature, defined.has(bytes), odd);
        self.note_rows(&f.specifiers, is_redeclared, is_misused, f.name.at);
        self.declare(f.name, Declaration::Function(Declared { number, callee }))?;
        self.enter_new(alloc, number, bytes, signature)?;
        Ok(number)
    }

    // Gives a function its body.
    fn define(&mut self, number: usize, body: Option<Body>)
        ensures { filed_in self.new ≡ definitions.defining number (option_map body_tree body) (filed_in self.old) }
    {
        if number < self.functions.len() {
            let entry = &mut self.functions[number];
            entry.is_defined = true;
            entry.body = body;
        }
    }

    fn optional_body(
        &mut self,
        alloc: Global,
        returns: Typing,
        number: usize,
        block: &Option<Block>,
    ) -> Result<(), AllocError>
        ensures { OnOk result (filed_in self.new
            ≡ definitions.after_optional_body noting returns number (option_map block_tree block.now)
            (filed_in self.old)) }
    {
        match block {
            None => Ok(()),
            Some(block) => {
                let visible = self.objects.len();
                let made = body(&mut self.to, alloc, returns, visible, block)?;
                self.define(number, made);
                Ok(())
            }
        }
    }

    fn enter(&mut self, alloc: Global) -> Result<(), AllocError>
        ensures { OnOk result (filed_in self.new ≡ files.on walks.entering (filed_in self.old)) }
    {
        self.to.walk.enter(alloc)
    }

    fn parameters(&mut self, alloc: Global, list: &[Parameter]) -> Result<(), AllocError>
        ensures { OnOk result (filed_in self.new
            ≡ files.on (definitions.after_parameters noting (parameter_trees list.now)) (filed_in self.old)) }
    {
        parameters(&mut self.to.walk, alloc, list)
    }

    // Leaves a function's scope. What was around it is as it was.
    fn leave(&mut self, alloc: Global)
        requires { 0 < length (filed_in self.old).walked.scoping.outer }
        ensures { (before : Filed (Option Failure)) →
            (filed_in self.old).walked.scoping.outer ≡ before.walked.scoping.outer ++ before.walked.scoping.inner ∷ []
            → (filed_in self.old).walked.scoping.text ≡ before.walked.scoping.text →
            filed_in self.new ≡ definitions.leaving_function before (filed_in self.old) }
    {
        self.to.walk.scope.close();
        self.to.walk.notes.calls = Vec::new(alloc);
        self.to.walk.locals = Vec::new(alloc);
    }

    /// A function, declared or defined. Its parameters are in the scope of its body.
    pub fn function(
        &mut self,
        alloc: Global,
        defined: &Defined<'_>,
        f: &Function,
    ) -> Result<(), AllocError>
        ensures { OnOk result (filed_in self.new
            ≡ definitions.after_function noting (defined_names defined.now) (function_tree f.now) (filed_in self.old)) }
    {
        let returns = type_named(&self.to.walk.scope, &f.specifiers);
        let number = self.named(alloc, defined, returns, f)?;
        self.enter(alloc)?;
        self.parameters(alloc, &f.parameters)?;
        self.optional_body(alloc, returns, number, &f.body)?;
        self.leave(alloc);
        Ok(())
    }
}
