//! Tests of `oi_sendtargets`.
#![tactic(auto)]

#[cfg(test)]
mod tests;
