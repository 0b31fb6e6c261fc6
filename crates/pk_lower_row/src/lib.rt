//! The rows of the lowering of expressions: what each form makes of what its parts gave, and which tree it gives.
#![tactic(auto)]

mod boxes;
mod contexts;
mod forms;
mod rows;
mod shapes;

pub use boxes::boxed;
pub use contexts::{Context, count_of, length_of_object};
pub use forms::{makes, shape_of};
pub use rows::{
    Join, Loaded, abort, any, begin_join, binary, check, constant, converted, dropped, end_join,
    end_truth, guards, held, is_not, load, load_between, one, put, put_kept, renew, renew_after,
    renew_kept, set, set_between, set_kept, step, step_after, step_kept, unary, update,
    update_element, update_element_kept, update_kept, variable,
};
pub use shapes::{Shape, Waiting, converted_shape, strong_if, strong_or_weak};
