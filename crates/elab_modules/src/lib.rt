//! The declarations of an application: those of headers, and behind them those of each instance, in a scope of its own.
#![tactic(auto)]

mod application;
mod around;
mod headers;
mod instances;
mod numbers;

pub use application::all_declared;
