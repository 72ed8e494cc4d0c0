//! Pages and refusals as the lines of text that are written, and pages as JSON.
#![tactic(auto)]

pub mod lines;
pub mod page;
mod page_text;
mod parts;
mod refusal_text;
mod row_json;
mod row_text;
mod type_json;
mod type_text;

pub use lines::{page_line, refusal_line};
pub use page::page_of;
