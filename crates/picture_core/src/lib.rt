//! Draws a bench as a picture, in SVG, in which time goes down. Here each recorded call has a row of the picture, and a
//! circle or a cross in that row is the call's mark; neither is a row of an online list or a mark of `order_core`.
//!
//! The crate stands on `bench_core` (the machine), `diff_core` (online lists), `report_core` (what calls changed),
//! `transcript_core` (calls as lines) and `svg_core` (elements), and names the plain types of the crates below.
//!
//! The modules in reading order: `plan`, where things stand; `shade`, whether a step remains, and `kind`, how a call
//! looks; `shapes`, a lane, a message, a mark, words; `range`, which rows are drawn; `words`, the words of a row;
//! `call`, a call that was made again; `online`, where lanes are thick; `sheet`, what is drawn; `rows`, the drawing of
//! one recorded call, and `layers`, that of all; `picture`, the whole picture; `view`, what is asked for; `draw_fault`,
//! why nothing is drawn.
#![tactic(auto)]

mod call;
mod draw_fault;
mod kind;
mod layers;
mod online;
mod picture;
mod plan;
mod range;
mod rows;
mod shade;
mod shapes;
mod sheet;
mod view;
mod words;

pub use draw_fault::DrawFault;
pub use view::{Presence, View, draw, draw_whole};
