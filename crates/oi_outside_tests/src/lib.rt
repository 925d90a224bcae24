//! Tests of `oi_outside`.
#![tactic(auto)]

#[cfg(test)]
mod net_tests;
#[cfg(test)]
mod tests;
