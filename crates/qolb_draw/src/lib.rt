//! Draws pictures of schedules and of step scripts, as plain text or as a timeline in SVG.
#![tactic(auto)]

mod bar;
mod call;
mod draw;
mod event;
mod follow;
mod form;
mod grid;
mod heads;
pub mod laws;
mod step_event;
mod step_svg;
mod step_text;
mod step_words;
mod steps;
mod svg;
mod symbol;
mod text;
mod timeline;

pub use draw::draw_schedule;
pub use form::Form;
pub use steps::draw_steps;
