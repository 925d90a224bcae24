//! Tests of `oi_admin`.
#![tactic(auto)]

#[cfg(test)]
mod tests;
