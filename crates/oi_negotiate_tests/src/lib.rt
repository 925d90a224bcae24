//! Tests of `oi_negotiate`.
#![tactic(auto)]

#[cfg(test)]
mod tests;
