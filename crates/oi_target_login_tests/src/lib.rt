//! Tests of `oi_target_login`.
#![tactic(auto)]

#[cfg(test)]
mod tests;
