//! Tests of `oi_nodedb`.
#![tactic(auto)]

#[cfg(test)]
mod tests;
