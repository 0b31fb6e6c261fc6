//! What is told of a text by its certificate: the certificate of an analysis, and the verdicts of one that proves itself.
#![tactic(auto)]

mod causes;
mod checking;
mod laws;
mod writing;

pub use causes::unanalysed_status;
pub use checking::check;
pub use laws::{one_answer_of_checks, one_cause, one_certificate};
pub use writing::certificate_of_text;
