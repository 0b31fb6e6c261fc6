// Parts of a tree in order, where each has one.

ghost use Rattle.std.specs.Prelude.{◌≡◌, ◌++◌, ◌∷◌, [], Some, OnOk, option_map};
ghost use Rattle.pk_type_expression.specs.Typed.{of_both};
ghost use Rattle.pk_type_declaration.specs.Parts.{parts_in};

use std::alloc::{AllocError, Global};

/// The typed trees of parts in order. Where one has none, the whole has none.
#[derive(Drop)]
pub struct Parts<T> {
    pub items: Vec<T>,
    pub is_whole: bool,
}

impl<T: Drop> Parts<T> {
    pub fn new(alloc: Global) -> Parts<T>
        ensures { parts_in result ≡ Some [] }
    {
        Parts {
            items: Vec::new(alloc),
            is_whole: true,
        }
    }

    /// Parts that each have a tree.
    pub(crate) fn of(items: Vec<T>) -> Parts<T>
        ensures { parts_in result ≡ Some items.items }
    {
        Parts {
            items,
            is_whole: true,
        }
    }

    /// Adds the next part.
    pub fn add(&mut self, part: Option<T>) -> Result<(), AllocError>
        ensures { OnOk result (parts_in self.new ≡ of_both (λ xs x. xs ++ x ∷ []) (parts_in self.old) part) }
    {
        match part {
            None => self.is_whole = false,
            Some(part) => self.items.push(part)?,
        }
        Ok(())
    }

    /// All of them, where each has a tree.
    pub fn whole(self) -> Option<Vec<T>>
        ensures { option_map (λ v. v.items) result ≡ parts_in self }
    {
        if self.is_whole {
            Some(self.items)
        } else {
            None
        }
    }
}
