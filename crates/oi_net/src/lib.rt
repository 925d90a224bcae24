//! The real outside of the program: its standard streams, a folder of records, connections over the loopback
//! interface, and the system's clock. These objects tell no content; all but the clock count the calls that failed.
#![tactic(auto)]

mod folder;
mod folder_store;
mod loop_link;
mod loop_net;
mod paths;
mod std_sink;
mod std_source;
mod system_clock;

pub use folder_store::FolderStore;
pub use loop_link::{LoopRead, LoopWrite};
pub use loop_net::LoopNet;
pub use paths::names_record;
pub use std_sink::StdSink;
pub use std_source::StdSource;
pub use system_clock::SystemClock;
