//! Tests of the buffer: lists of calls, and what each must answer.
#![tactic(auto)]

#[cfg(test)]
mod calls;
#[cfg(test)]
mod data;
#[cfg(test)]
mod deferred;
#[cfg(test)]
mod labels;
#[cfg(test)]
mod questions;
#[cfg(test)]
mod regions;
#[cfg(test)]
mod simplify;
#[cfg(test)]
mod uses;
#[cfg(test)]
mod words;
