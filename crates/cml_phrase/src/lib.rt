//! The words in which a run is spoken of: places of statements, names, values, threads and base events.
#![tactic(auto)]

mod cut;
mod diagnosis;
mod event;
mod keyword;
mod name;
mod parts;
mod place;
mod position;
mod shown;
mod statement;
mod thread;
mod value;

pub use cut::{first_characters, push_first, push_shown};
pub use diagnosis::{Diagnosis, Note};
pub use event::{ObjectState, Told, push_event, push_events};
pub use name::{function_name, slot_names};
pub use place::{Place, push_line, push_place, statement_place, statement_places};
pub use position::{column_at, line_at, split_place};
pub use shown::render;
pub use statement::statement_spans;
pub use thread::{Who, push_began, push_thread};
pub use value::{push_giving, push_numbered, push_value, push_variable};
