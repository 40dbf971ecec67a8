//! Tests of the crates that make a tool of the machine (`script_core`, `session_core`, `prompt_core`, `worker_core`,
//! `command_line` and `program_core`), by their public calls alone. They stand in a crate of their own, so that those
//! crates are proved once. They test what no clause states and no case of `example_tests` shows: what refused memory
//! leaves, and how streams and threads are used. A test drops large values by name before it ends or asserts, since
//! ways out with many live values are costly to prove.
//!
//! The modules in reading order: `cases`, the assertions of loops over tables; `scripts`, texts of faults; `streams`,
//! how input is read and reports are written; `sessions`, how sessions are carried to the latest version; `prompted`, a
//! prompt; `workers`, races; `program`, words that choose nothing, what the program tells, and how it ends; `pages`,
//! whether a browser runs a page.
#![tactic(auto)]

#[cfg(test)]
mod cases;
#[cfg(test)]
mod pages;
#[cfg(test)]
mod program;
#[cfg(test)]
mod prompted;
#[cfg(test)]
mod scripts;
#[cfg(test)]
mod sessions;
#[cfg(test)]
mod streams;
#[cfg(test)]
mod workers;
