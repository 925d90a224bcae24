//! Tests of `oi_settings`.
#![tactic(auto)]

#[cfg(test)]
mod tests;
