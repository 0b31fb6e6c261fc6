//! Where a run of a program is: what is looked up, what objects hold, the values that wait.
#![tactic(auto)]

mod objects;
mod programs;
mod states;
mod tables;
mod values;

pub use objects::{Objects, first_objects, zeros};
pub use programs::{
    Program, array_of, callee, closed, count_of, has_name, is_main, items, local_count, local_type,
    name_of, object_of, opened, parameters, returns, visible,
};
pub use states::{
    Answer, State, Visited, come, fail, follow, give, go_on, leave_loop, resume, write, write_all,
    write_element, wrote,
};
pub use tables::{Row, Table, body_scope, reach, with_all_declared, with_declared, with_local};
pub use values::{
    applied, are_chosen, below, is_nonzero, operated, place_of, top, top_three, top_two, without,
    without_at,
};
