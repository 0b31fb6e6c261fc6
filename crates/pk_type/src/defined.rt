// The functions that a text defines.

ghost use Rattle.std.specs.Prelude.{◌≡◌, OnOk};
ghost use Rattle.pk_type.specs.Units as definitions;
ghost use Rattle.pk_type.specs.Views.{defined_names};

use std::alloc::{AllocError, Global};
use std::collections::HashSet;

/// The names of the functions that have a body somewhere in a text.
#[derive(Drop)]
pub struct Defined<'a> {
    pub names: HashSet<&'a [u8]>,
}

impl<'a> Defined<'a> {
    pub(crate) fn new(alloc: Global) -> Defined<'a>
        ensures { defined_names result ≡ definitions.no_name }
    {
        Defined {
            names: HashSet::new(alloc),
        }
    }

    pub fn has(&self, name: &[u8]) -> bool
        ensures { result ≡ defined_names self.now name.now }
    {
        self.names.contains(name)
    }

    pub(crate) fn add(&mut self, name: &'a [u8]) -> Result<(), AllocError>
        ensures { OnOk result (defined_names self.new ≡ definitions.with_name (defined_names self.old) name.now) }
    {
        let _ = self.names.insert(name)?;
        Ok(())
    }
}
