//! Tests of `oi_names`.
#![tactic(auto)]

#[cfg(test)]
mod tests;
