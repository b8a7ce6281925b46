//! What is wrong with a text, a script or a line of a schedule: facts, as values, and the words that say them.
#![tactic(auto)]

mod hint;
mod keyword;
mod lets;
mod near;
mod piece;
mod say_keyword;
mod say_script;
mod say_text;
mod script;
mod stand;
mod text;
mod trouble;
mod unfit;

pub use hint::{Hint, HintKind};
pub use keyword::Role;
pub use say_script::{explain_script, write_script};
pub use say_text::{explain_text, write_text};
pub use script::{ScriptTrouble, script_trouble};
pub use text::{Found, TextTrouble, text_trouble};
pub use trouble::{Later, Trouble};
pub use unfit::{explain_unfit, unfit_line, write_unfit};
