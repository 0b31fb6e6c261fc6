//! What typing knows of names: scopes (C99 6.2.1), what a name in them stands for, and the type that words name (C99 6.7.2). And failures of rules, with what is noted of them on the way.
#![tactic(auto)]

mod declarations;
mod failures;
mod laws;
mod scopes;
mod specifiers;

pub use declarations::{
    Callee, Declaration, Function, NamedType, Object, Typing, is_array, is_enumerator, is_function,
    is_object, is_scalar,
};
pub use failures::{Failure, Notes};
pub use laws::first_law;
pub use scopes::{Frame, Scope, spelling};
pub use specifiers::{
    has_const, is_const, is_const_among, note_specifiers, type_name_among, type_named,
};
