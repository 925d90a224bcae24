//! Tests of `oi_solo`.
#![tactic(auto)]

#[cfg(test)]
mod tests;
