//! Worked examples of ends, scripts, names, certificates, their replay and replies, through the public calls of their crates.
#![tactic(auto)]

#[cfg(test)]
mod cert_replay_tests;
#[cfg(test)]
mod flip_certificate_tests;
#[cfg(test)]
mod replay_report_tests;
#[cfg(test)]
mod reply_texts_tests;
#[cfg(test)]
mod run_ends_tests;
#[cfg(test)]
mod samples;
#[cfg(test)]
mod script_text_tests;
#[cfg(test)]
mod shell_names_tests;
