//! Tests of `oi_pdu`.
#![tactic(auto)]

#[cfg(test)]
mod vectors;
