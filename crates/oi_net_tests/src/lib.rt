//! Tests of `oi_net`.
#![tactic(auto)]

#[cfg(test)]
mod net_tests;
#[cfg(test)]
mod tests;
