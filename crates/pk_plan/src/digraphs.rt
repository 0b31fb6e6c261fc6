// Digraphs, by lists of successors.

ghost use Rattle.std.specs.Prelude.{◌≡◌, ◌<◌, ◌^◌, ◌++◌, ◌∷◌, [], ℕ, All, IfOk, OnOk, OnErr, length, replicate, slice_set};
ghost use Rattle.std.specs.List.{slice_index_or};
ghost use Rattle.pk_plan.specs.Digraphs.{lists_of, IsClosed};

use std::alloc::{AllocError, Global};
use std::marker::Model;

/// A digraph of vertices numbered from 0, fewer than 2^32: for each the list of its successors, in which one may stand more than once.
#[derive(Drop)]
pub struct Digraph {
    successors: Vec<Vec<u32>>,
}

impl Model for Digraph {
    ghost use Rattle.std.specs.Prelude.{ℕ, List};
    ghost use Rattle.std.specs.Coded.{coded_ℕ, coded_list};

    ghost Value = { List (List ℕ) };

    ghost coded = { coded_list (coded_list coded_ℕ) };

    ghost use Rattle.std.specs.Prelude.{◌<◌, ◌^◌, length};
    ghost use Rattle.pk_plan.specs.Digraphs.{lists_of, IsClosed};

    ghost view = { λ g. lists_of g.successors.items };

    ghost invariant = { λ g. IsClosed (lists_of g.successors.items) × (length g.successors.items < 2 ^ 32) };
}

impl Digraph {
    /// The digraph with these lists of successors.
    pub fn new(successors: Vec<Vec<u32>>) -> Digraph
        requires targets { IsClosed (lists_of successors.items) }
        requires few { length successors.items < 2 ^ 32 }
        ensures { result ≡ lists_of successors.items }
    {
        Digraph { successors }
    }

    /// So many vertices, and no edges.
    pub fn with_vertices(alloc: Global, vertices: u32) -> Result<Digraph, AllocError>
        ensures { IfOk result (λ g. g ≡ replicate vertices []) }
    {
        let mut successors = Vec::new(alloc);
        for _ in 0..vertices {
            successors.push(Vec::new(alloc))?;
        }
        Ok(Digraph { successors })
    }

    /// One edge more, the last in the list of the vertex that it leads from.
    pub fn add_edge(&mut self, from: u32, to: u32) -> Result<(), AllocError>
        requires from { from < length self.old }
        requires to { to < length self.old }
        ensures ok { OnOk result (self.new ≡ slice_set self.old from (slice_index_or self.old from [] ++ to ∷ [])) }
        ensures err { OnErr result (self.new ≡ self.old) }
    {
        let row = &mut self.successors[from as usize];
        row.push(to)?;
        Ok(())
    }

    /// Each edge leads to a vertex.
    pub fn closed(&self)
        ensures { IsClosed self.now }
    {
        let _ = &self.successors;
    }

    /// How many vertices there are.
    pub fn vertices(&self) -> u32
        ensures { result ≡ length self.now }
    {
        self.successors.len() as u32
    }

    /// The successors of a vertex.
    pub fn successors(&self, vertex: u32) -> &[u32]
        requires { vertex < length self.now }
        ensures successors { result.now ≡ slice_index_or self.now vertex [] }
        ensures within { All (λ v. v < length self.now) result.now }
    {
        self.successors[vertex as usize].as_slice()
    }
}
