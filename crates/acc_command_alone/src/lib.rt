//! The commands that ask for no threads: from the words of a command line and the bytes of a document to the text that is written and the
//! status.
#![tactic(auto)]

mod alone;
mod audit;
mod check;
mod generate;
pub mod generated;
mod glance;
mod heal;
pub mod laws;
mod leave;
mod lines;
mod options;
mod reader;
mod reading;
mod remains;
mod reply;
mod respond;
mod resume;
mod run;
mod status;
mod words;

pub use alone::accord_alone;
pub use lines::{limit_line, refusal_line};
pub use options::{seed, txns, workers};
pub use reading::read_plan;
pub use remains::Remains;
pub use reply::Reply;
pub use respond::{read_document, tell};
pub use status::Status;
pub use words::workers_of;
