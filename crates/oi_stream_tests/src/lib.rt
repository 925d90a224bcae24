//! Tests of `oi_stream`.
#![tactic(auto)]

#[cfg(test)]
mod tests;
