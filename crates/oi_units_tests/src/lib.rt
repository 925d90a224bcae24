//! Tests of `oi_units`.
#![tactic(auto)]

#[cfg(test)]
mod tests;
