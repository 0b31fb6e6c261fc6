// Packs of variables.

ghost use Rattle.std.specs.Prelude.{◌≡◌, ◌<◌, length};

use pk_octagons::Pack;
use std::marker::Model;

/// Lists of variables, by their numbers: pack 0, and one for each component.
#[derive(Drop)]
pub struct Packs {
    packs: Vec<Pack>,
}

impl Model for Packs {
    ghost use Rattle.std.specs.Prelude.{ℕ, List};

    ghost Value = { List (List ℕ) };

    ghost view = { λ p. p.packs.items };
}

impl Packs {
    ghost use Rattle.std.specs.Prelude.{[]};
    ghost use Rattle.std.specs.List.{slice_index_or};

    /// These packs.
    pub(crate) fn new(packs: Vec<Pack>) -> Packs
        ensures { result ≡ packs.items }
    {
        Packs { packs }
    }

    /// How many packs there are.
    pub fn count(&self) -> usize
        ensures { result ≡ length self.now }
    {
        self.packs.len()
    }

    /// A pack.
    pub fn pack(&self, pack: usize) -> &Pack
        requires { pack < length self.now }
        ensures { result.now ≡ slice_index_or self.now pack [] }
    {
        &self.packs[pack]
    }

    /// The packs, one by one.
    pub fn into_packs(self) -> Vec<Pack>
        ensures { result.items ≡ self }
    {
        self.packs
    }
}
