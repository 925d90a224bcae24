//! Tests of `oi_target`.
#![tactic(auto)]

#[cfg(test)]
mod tests;
