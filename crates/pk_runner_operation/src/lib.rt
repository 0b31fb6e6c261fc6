//! Steps of a run on the values that wait.
#![tactic(auto)]

mod operations;

pub use operations::{
    advance, apply, assign, bind, branch, claim, converted, discard, item, load, operate, put,
    reload, renew, renewed, replace, store, store_kept, update,
};
