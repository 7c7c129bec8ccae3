//! The calls that ask no instruction set, save simplification.
//!
//! Each is a function over the tables, and its contract is that its answer and the tables after it are those of the
//! call's definition. The refusals stand in the order of checking, and a refused call changes nothing.
#![tactic(auto)]

pub mod data;
pub mod deferred;
pub mod labels;
pub mod regions;
pub mod tokens;
