// Scopes: which declaration a name has (C99 6.2.1).

ghost use Rattle.std.specs.Prelude.{◌≡◌, ◌++◌, ◌∷◌, ◌<◌, [], ℕ, List, None, Some, is_some, IfOk, OnOk, length, map};
ghost use Rattle.pk_type_scope.specs.Scopes as scopes;
ghost use Rattle.pk_type_scope.specs.Scopes.{Key, Layer, layer_of, scoping_of};

use crate::declarations::Declaration;
use indexmap::IndexMap;
use pk_ast::Identifier;
use std::alloc::{AllocError, Global};
use std::mem;

/// The names that one scope declares, tags apart (C99 6.2.3), in order of their first declaration, each with its last.
#[derive(Drop)]
pub struct Frame<'a> {
    pub declared: IndexMap<&'a [u8], Declaration>,
    pub tags: IndexMap<&'a [u8], Declaration>,
}

/// The scopes around a place of a text, as a stack: the innermost, and those around it, the outermost first. A block opens its own and closes it.
#[derive(Drop)]
pub struct Scope<'a> {
    pub text: &'a [u8],
    pub inner: Frame<'a>,
    pub outer: Vec<Frame<'a>>,
}

impl<'a> Frame<'a> {
    fn new(alloc: Global) -> Frame<'a>
        ensures { layer_of result ≡ scopes.empty }
    {
        Frame {
            declared: IndexMap::new(alloc),
            tags: IndexMap::new(alloc),
        }
    }

    fn get(&self, is_tag: bool, name: &[u8]) -> Option<Declaration>
        ensures { result ≡ layer_of self.now (record { is_tag = is_tag; bytes = name.now }) }
    {
        if is_tag {
            self.tags.get(name).copied()
        } else {
            self.declared.get(name).copied()
        }
    }

    // Puts a declaration at a name, and answers whether there was one before.
    fn put(
        &mut self,
        is_tag: bool,
        name: &'a [u8],
        declaration: Declaration,
    ) -> Result<bool, AllocError>
        ensures again { IfOk result (λ r. r
            ≡ is_some (layer_of self.old (record { is_tag = is_tag; bytes = name.now }))) }
        ensures declared { OnOk result ((q : Key) → layer_of self.new q
            ≡ scopes.with_name (layer_of self.old) (record { is_tag = is_tag; bytes = name.now }) declaration q) }
    {
        if is_tag {
            let old = self.tags.insert(name, declaration)?;
            Ok(old.is_some())
        } else {
            let old = self.declared.insert(name, declaration)?;
            Ok(old.is_some())
        }
    }

    fn declare(
        &mut self,
        is_tag: bool,
        name: &'a [u8],
        declaration: Declaration,
    ) -> Result<bool, AllocError>
        ensures again { IfOk result (λ r. r
            ≡ is_some (layer_of self.old (record { is_tag = is_tag; bytes = name.now }))) }
        ensures declared { OnOk result (layer_of self.new
            ≡ scopes.with_name (layer_of self.old) (record { is_tag = is_tag; bytes = name.now }) declaration) }
    {
        let again = self.put(is_tag, name, declaration)?;
        Ok(again)
    }
}

/// The bytes of a name in its text.
pub fn spelling(text: &[u8], name: Identifier) -> &[u8]
    ensures { result.now ≡ scopes.spelled text.now name }
{
    if name.start <= name.end && name.end <= text.len() {
        &text[name.start..name.end]
    } else {
        &text[..0]
    }
}

impl<'a> Scope<'a> {
    /// The scope of a text before its first declaration.
    pub fn new(alloc: Global, text: &'a [u8]) -> Scope<'a>
        ensures { scoping_of result ≡ scopes.file_scope text.now }
    {
        Scope {
            text,
            inner: Frame::new(alloc),
            outer: Vec::new(alloc),
        }
    }

    /// The declaration in scope of a name.
    #[tactic(auto, unfolding(crate::specs::Scopes::names_in))]
    pub fn lookup(&self, name: Identifier) -> Option<Declaration>
        ensures { result ≡ scopes.names_in (scoping_of self.now) name }
    {
        let bytes = spelling(self.text, name);
        match self.inner.get(name.is_tag, bytes) {
            Some(declared) => Some(declared),
            None => self.lookup_around(name.is_tag, bytes),
        }
    }

    // The declaration of a name around the innermost scope, from the inside out.
    fn lookup_around(&self, is_tag: bool, bytes: &[u8]) -> Option<Declaration>
        ensures { result
            ≡ scopes.found_up (map layer_of self.now.outer.items) (record { is_tag = is_tag; bytes = bytes.now }) None }
    {
        let mut left = self.outer.len();
        while left > 0 {
            left -= 1;
            if let Some(declared) = self.outer[left].get(is_tag, bytes) {
                return Some(declared);
            }
        }
        None
    }

    /// Declares a name in the innermost scope, and answers whether that scope had declared it before.
    pub fn declare(
        &mut self,
        name: Identifier,
        declaration: Declaration,
    ) -> Result<bool, AllocError>
        ensures again { IfOk result (λ r. r ≡ is_some (scopes.declared_here (scoping_of self.old) name)) }
        ensures declared { OnOk result (scoping_of self.new ≡ scopes.declaring (scoping_of self.old) name declaration) }
    {
        let bytes = spelling(self.text, name);
        let again = self.inner.declare(name.is_tag, bytes, declaration)?;
        Ok(again)
    }

    /// Opens a scope inside the innermost one.
    pub fn open(&mut self, alloc: Global) -> Result<(), AllocError>
        ensures { OnOk result (scoping_of self.new ≡ scopes.opened (scoping_of self.old)) }
    {
        let around = mem::replace(&mut self.inner, Frame::new(alloc));
        self.outer.push(around)?;
        Ok(())
    }

    /// Closes the innermost scope: what was around it is as it was.
    pub fn close(&mut self)
        requires { 0 < length (scoping_of self.old).outer }
        ensures { (outer : List Layer) → (inner : Layer) → (scoping_of self.old).outer ≡ outer ++ inner ∷ []
            → scoping_of self.new ≡ record { text = (scoping_of self.old).text; outer = outer; inner = inner } }
    {
        if let Some(around) = self.outer.pop() {
            self.inner = around;
        }
    }
}
