//! Tests of `oi_tool`.
#![tactic(auto)]

#[cfg(test)]
mod tests;
