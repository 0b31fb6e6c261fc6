// What the lowering of a function's body on a call path looks up.

ghost use Rattle.std.specs.Prelude.{◌≡◌, unwrap_or, IfOk};
ghost use Rattle.pk_graph.specs.Views.{array_view};
ghost use Rattle.pk_graph.specs.Kinds as kinds;
ghost use Rattle.pk_draft.specs.Shown.{drafted};
ghost use Rattle.pk_lower_row.specs.Contexts as contexts;
ghost use Rattle.pk_lower_row.specs.Views.{context_in};
ghost use Rattle.pk_typed.specs.Defaults.{length_of_start};

use pk_ctypes::{IntType, Pos};
use pk_draft::{Draft, Size};
use pk_graph::{Array, Site};
use pk_typed::{FileObject, Local, Start, Unit, Variable};
use std::alloc::{AllocError, Global};

/// What the lowering of a function's body on a call path looks up.
#[derive(Clone, Copy)]
pub struct Context<'a> {
    pub alloc: Global,
    pub unit: &'a Unit,
    /// The path's number.
    pub path: usize,
    /// The number of the path that the function's first call leads to; those of its others follow in order.
    pub first: usize,
    /// The function's objects.
    pub locals: &'a [Local],
    pub returns: Option<IntType>,
    /// The sizes of functions, where they are known.
    pub sizes: &'a [Option<Size>],
}

fn size_or_none(size: Option<Size>) -> Size
    ensures { result ≡ unwrap_or size contexts.no_size }
{
    match size {
        Some(size) => size,
        None => Size {
            points: 0,
            variables: 0,
        },
    }
}

/// The number of elements, 1 of a scalar.
pub fn count_of(length: Option<usize>) -> usize
    ensures { result ≡ kinds.count_of length }
{
    match length {
        Some(length) => length,
        None => 1,
    }
}

/// The number of elements of an array of the file.
#[tactic(auto, unfolding(pk_typed::specs::Views::start_tree, pk_typed::specs::Views::file_object_tree))]
pub fn length_of_object(object: &FileObject) -> Option<usize>
    ensures { result ≡ length_of_start (file_object_tree object.now).start }
{
    match &object.start {
        Start::Scalar(_) => None,
        Start::Array { length, items: _ } => Some(*length),
    }
}

ghost use Rattle.pk_typed.specs.Views.{file_object_tree};

#[tactic(auto, unfolding(crate::specs::Views::context_in))]
impl<'a> Context<'a> {
    /// The size of a function's part, where it is known.
    pub fn size(&self, function: usize) -> Size
        ensures { result ≡ contexts.size_in (context_in self.now).sizes function }
    {
        if function < self.sizes.len() {
            size_or_none(self.sizes[function])
        } else {
            size_or_none(None)
        }
    }

    /// The path that a call of the function leads to.
    pub fn callee(&self, call: usize) -> Result<usize, AllocError>
        ensures { IfOk result (λ path. path ≡ contexts.callee (context_in self.now) call) }
    {
        self.first.checked_add(call).ok_or(AllocError)
    }

    pub fn site(&self, at: Pos) -> Site
        ensures { result ≡ contexts.site (context_in self.now) at }
    {
        Site {
            path: self.path,
            at,
        }
    }

    fn length_in_file(&self, object: usize) -> Option<usize>
        ensures { result ≡ contexts.length_in_file (context_in self.now).unit object }
    {
        if object < self.unit.objects.len() {
            length_of_object(&self.unit.objects[object])
        } else {
            None
        }
    }

    /// The number of elements of an object of the function.
    pub fn length_of_local(&self, object: usize) -> Option<usize>
        ensures { result ≡ (contexts.local_at (context_in self.now) object).length }
    {
        if object < self.locals.len() {
            self.locals[object].length
        } else {
            None
        }
    }

    /// The type of an object of the function.
    pub fn type_of_local(&self, object: usize) -> IntType
        ensures { result ≡ (contexts.local_at (context_in self.now) object).int_type }
    {
        if object < self.locals.len() {
            self.locals[object].int_type
        } else {
            IntType::Int
        }
    }

    /// The variable of an object.
    #[tactic(auto, unfolding(crate::specs::Views::context_in, pk_draft::specs::Shown::drafted))]
    pub fn variable(&self, draft: &Draft, object: Variable) -> usize
        ensures { result ≡ contexts.variable_of (context_in self.now) object (drafted draft.now) }
    {
        match object {
            Variable::File(object) => object,
            Variable::Local(object) => draft.object(object),
        }
    }

    fn length(&self, object: Variable) -> Option<usize>
        ensures { result ≡ contexts.length_of (context_in self.now) object }
    {
        match object {
            Variable::File(object) => self.length_in_file(object),
            Variable::Local(object) => self.length_of_local(object),
        }
    }

    /// An array as it is in the graph.
    pub fn array(&self, draft: &Draft, object: Variable) -> Array
        ensures { array_view result ≡ contexts.array_of (context_in self.now) object (drafted draft.now) }
    {
        Array {
            variable: self.variable(draft, object),
            length: count_of(self.length(object)),
        }
    }

    /// The parameters of a function.
    pub fn parameters(&self, function: usize) -> &'a [IntType]
        ensures { result.now ≡ contexts.parameters_of (context_in self.now).unit function }
    {
        if function < self.unit.functions.len() {
            self.unit.functions[function].parameters.as_slice()
        } else {
            &[]
        }
    }
}
