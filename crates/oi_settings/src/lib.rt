//! Node records: which settings a record has, how a record is written as a text and read again, and the path under
//! which its text is stored.
#![tactic(auto)]

mod key;
mod laws;
mod line;
mod naming;
mod range;
mod record;
mod schema;
mod settings;
mod text;

pub use key::{RecordKey, path_of};
pub use laws::{keys_differ, texts_read_back};
pub use range::takes_value;
pub use record::NodeRecord;
pub use schema::is_open;
pub use text::{RecordFault, read_text};
