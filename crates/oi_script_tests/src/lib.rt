//! Tests of `oi_script`.
#![tactic(auto)]

#[cfg(test)]
mod tests;
