// The steps of a board under both rules, that of its words and that of its slots' kinds.
#![tactic(auto)]

mod laws;

pub use laws::every_board_lets_go;
