//! Tests of `oi_history`.
#![tactic(auto)]

#[cfg(test)]
mod tests;
#[cfg(test)]
mod trace_tests;
