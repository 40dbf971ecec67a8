//! The command line of the program: what its words choose, and the help that teaches it.
//!
//! Stands on `clap`, which reads the words. The modules in reading order: `chosen`, what there is to choose; `help`,
//! the texts of `--help` and `--version`; `subcommands`, what `clap` is to read; `line`, from words to a choice.
#![tactic(auto)]

mod chosen;
mod help;
mod line;
mod subcommands;

pub use chosen::{
    About, Choice, Drawing, ExploreOptions, Form, ImportOptions, Question, Subcommand,
    WhatifOptions,
};
pub use help::LANGUAGE;
pub use line::choice;
