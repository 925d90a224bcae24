//! The language of `drive`: its input lines, and the lines that are printed.
#![tactic(auto)]

mod applying;
mod blanks;
mod keys;
mod line;
mod notices;
mod numbers;
mod printing;
mod reading;
mod requests;
mod settings;

pub use line::{DriveLine, LineFault};
pub use notices::{Refusal, lost_line, refused_line, stale_line, status_line, window_line};
pub use printing::{fault_line, idle_line, line_of, login_line, tx_line};
pub use reading::read_drive;
pub use settings::Setting;
