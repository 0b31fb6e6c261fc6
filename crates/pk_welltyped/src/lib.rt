//! Typed units whose trees agree with the objects, functions and labels that they name, and in which labels, cases and defaults stand once. Definitions alone.
#![tactic(auto)]
