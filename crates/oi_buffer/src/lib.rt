//! The data of one SCSI command: where the Data-In of a read go, and how a write is cut into Data-Out.
#![tactic(auto)]

mod cut;
mod fault;
mod pieces;
mod placing;
#[cfg(test)]
mod tests;

pub use cut::{FirstCut, Piece, first_cut};
pub use fault::PlaceFault;
pub use pieces::{Pieces, cut_pieces};
pub use placing::Placing;
