//! Tests of `oi_target_session`.
#![tactic(auto)]

#[cfg(test)]
mod tests;
