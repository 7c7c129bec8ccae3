//! Simplifying the branches at the end of the code.
//!
//! Whoever emits code block by block also writes jumps that turn out to be needless: to the place right behind them,
//! behind another jump, or over a jump that a condition could have taken. These are best removed where they arise, at
//! the end of the code, while nothing stands behind them.
//!
//! `rules` names what may be done to the last standing branch, `attempts` tries it, and `rounds` goes on until no rule
//! applies. Each rule that applies cuts a branch or takes a label from where it stood, so that the rounds end.
#![tactic(auto)]

pub mod attempts;
pub mod rounds;
pub mod rules;
