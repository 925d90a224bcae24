//! A session for one thread, whole: the calls over its history.
#![tactic(auto)]

mod answers;
mod asking;
mod calls;
mod ending;
mod kept;
mod laws;
mod load;
mod run;
mod solo;
mod turn;

pub use answers::{
    AbortRefused, AlreadyEnded, ControlRefused, LoginRefused, LostDone, Receipt, Received,
    StepRefused, SubmitRefused, Ticked, Transmit,
};
pub use laws::{data_have_tags, no_tag_reuse_while_data_queued};
pub use load::Load;
pub use run::Run;
pub use solo::Solo;
