//! The script shell: commands, the transcript of a script, and the top call from the bytes in to the bytes out.
#![tactic(auto)]

mod asking;
mod bench;
mod changing;
mod constructing;
mod conversation;
mod counting;
mod deciding;
mod edited;
mod edits;
mod exit;
mod label_maps;
mod laws;
mod limits;
mod lists;
mod making;
mod parts;
mod purity;
mod reducing;
mod reply;
mod run;
mod shell;
mod stop;
mod stream;
mod transcript;
mod words;

pub use exit::Exit;
pub use laws::{answers_stay, bench_refuses_nothing, sound_transcripts_replay};
pub use limits::Limits;
pub use reply::Reply;
pub use run::{run_program, run_surely};
pub use shell::Shell;
