//! Tests of `oi_login`.
#![tactic(auto)]

#[cfg(test)]
mod tests;
