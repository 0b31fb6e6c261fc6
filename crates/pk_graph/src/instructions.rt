// Instructions: what an edge of a graph does.

ghost use Rattle.std.specs.Prelude.{◌≡◌};
ghost use Rattle.pk_graph.specs.Trees as tree;
ghost use Rattle.pk_graph.specs.Views.{tree_view, array_view, instr_view};

use crate::trees::{Site, Tree};
use pk_ctypes::IntType;

/// An array by its variable, with the number of its elements.
#[derive(Clone, Copy)]
pub struct Array {
    pub variable: usize,
    pub length: usize,
}

/// What an edge does to the store.
#[derive(Drop)]
pub enum Instr {
    Skip,
    /// A scalar gets a tree's value.
    Set(usize, Tree),
    /// A variable gets any numbers of the type: one, or as many as the array has elements.
    Havoc {
        variable: usize,
        int_type: IntType,
        count: usize,
    },
    /// Each element becomes 0.
    Clear(Array),
    /// A scalar gets the element at an index.
    Load {
        variable: usize,
        array: Array,
        /// The place of the index.
        site: Site,
        /// Whether the index is an access that the report lists.
        is_access: bool,
        index: Tree,
    },
    /// The element at an index gets a tree's value.
    Store {
        array: Array,
        site: Site,
        is_access: bool,
        index: Tree,
        value: Tree,
    },
    /// Passes where the tree's truth is this one.
    Guard(Tree, bool),
    /// An assertion: a fault where the tree is 0.
    Check(Site, Tree),
}

// Each ensures which instruction it makes.
#[tactic(auto, unfolding(crate::specs::Views::instr_view))]
impl Instr {
    pub fn skip() -> Instr
        ensures { instr_view result ≡ tree.Skip }
    {
        Instr::Skip
    }

    pub fn set(variable: usize, value: Tree) -> Instr
        ensures { instr_view result ≡ tree.Set variable (tree_view value) }
    {
        Instr::Set(variable, value)
    }

    pub fn havoc(variable: usize, int_type: IntType, count: usize) -> Instr
        ensures { instr_view result ≡ tree.Havoc variable int_type count }
    {
        Instr::Havoc {
            variable,
            int_type,
            count,
        }
    }

    pub fn clear(array: Array) -> Instr
        ensures { instr_view result ≡ tree.Clear (array_view array) }
    {
        Instr::Clear(array)
    }

    pub fn load(variable: usize, array: Array, site: Site, is_access: bool, index: Tree) -> Instr
        ensures { instr_view result ≡ tree.Load variable (array_view array) site is_access (tree_view index) }
    {
        Instr::Load {
            variable,
            array,
            site,
            is_access,
            index,
        }
    }

    pub fn store(array: Array, site: Site, is_access: bool, index: Tree, value: Tree) -> Instr
        ensures { instr_view result ≡ tree.Store (array_view array) site is_access (tree_view index) (tree_view value) }
    {
        Instr::Store {
            array,
            site,
            is_access,
            index,
            value,
        }
    }

    pub fn guard(condition: Tree, sense: bool) -> Instr
        ensures { instr_view result ≡ tree.Guard (tree_view condition) sense }
    {
        Instr::Guard(condition, sense)
    }

    pub fn check(site: Site, condition: Tree) -> Instr
        ensures { instr_view result ≡ tree.Check site (tree_view condition) }
    {
        Instr::Check(site, condition)
    }
}
