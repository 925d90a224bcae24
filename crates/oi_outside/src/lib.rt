//! The outside of the program: the traits through which it reads and writes, keeps records, reaches other ends and reads
//! the time. Those that can fail have a count of faults, and each tells its content where the object tells it. Beside
//! them stand implementations over memory.
#![tactic(auto)]

mod calls;
mod clock;
mod failed;
mod far_link;
mod far_net;
mod gate;
mod given_back;
mod history;
mod link_name;
mod link_read;
mod link_write;
mod list_clock;
mod mem_net;
mod mem_read;
mod mem_sink;
mod mem_source;
mod mem_store;
mod mem_write;
mod net;
mod net_error;
mod record_store;
mod schedule;
mod sink;
mod source;
mod store_error;
mod waiting_end;
mod writing;

pub use clock::Clock;
pub use failed::Failed;
pub use far_link::{FarRead, FarWrite};
pub use far_net::FarNet;
pub use gate::{Gate, OpenGate, Place};
pub use history::History;
pub use link_name::LinkName;
pub use link_read::{LinkRead, ReadTurn};
pub use link_write::{LinkWrite, WriteTurn};
pub use list_clock::{GREATEST_READING, ListClock};
pub use mem_net::MemNet;
pub use mem_read::MemRead;
pub use mem_sink::MemSink;
pub use mem_source::MemSource;
pub use mem_store::MemStore;
pub use mem_write::MemWrite;
pub use net::{Net, PortalText};
pub use net_error::NetError;
pub use record_store::RecordStore;
pub use schedule::{LinkFail, Schedule};
pub use sink::Sink;
pub use source::Source;
pub use store_error::StoreError;
pub use writing::write_all;
