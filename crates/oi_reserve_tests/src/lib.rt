//! Tests of `oi_reserve`.
#![tactic(auto)]

#[cfg(test)]
mod tests;
