// The spellings that were declared.

ghost use Rattle.std.specs.Prelude.{◌≡◌, ◌&&◌, ℕ, List, OnOk, is_some, option_map};
ghost use Rattle.pk_typenames.specs.Spellings as spec;
ghost use Rattle.pk_typenames.specs.Spellings.{layer_of};

use indexmap::IndexMap;
use std::alloc::{AllocError, Global};

/// Spellings of a text.
#[derive(Drop)]
pub struct Spellings<'a> {
    pub declared: IndexMap<&'a [u8], bool>,
}

impl<'a> Spellings<'a> {
    pub fn new(alloc: Global) -> Spellings<'a>
        ensures { layer_of result ≡ spec.empty }
    {
        Spellings {
            declared: IndexMap::new(alloc),
        }
    }

    fn get(&self, name: &[u8]) -> Option<bool>
        ensures { result ≡ layer_of self.now name.now }
    {
        self.declared.get(name).copied()
    }

    /// Whether the spelling is that of a name, and was declared.
    pub fn has(&self, named: bool, name: &[u8]) -> bool
        ensures { result ≡ (named && is_some (layer_of self.now name.now)) }
    {
        named && !self.declared.is_empty() && self.get(name).is_some()
    }

    fn put(&mut self, name: &'a [u8]) -> Result<(), AllocError>
        ensures { OnOk result ((q : List ℕ) → layer_of self.new q ≡ spec.with_name (layer_of self.old) name.now q) }
    {
        let _ = self.declared.insert(name, true)?;
        Ok(())
    }

    /// The pending spelling too, where a token ends its declaration.
    pub fn note(&mut self, ends: bool, pending: Option<&'a [u8]>) -> Result<(), AllocError>
        ensures { OnOk result ((q : List ℕ) → layer_of self.new q
            ≡ spec.noted (layer_of self.old) ends (option_map (λ n. n.now) pending.entry) q) }
    {
        match pending {
            Some(name) if ends => self.put(name),
            _ => Ok(()),
        }
    }
}
