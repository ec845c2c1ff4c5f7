//! From logs to one text: the events of the logs at the requested targets, and the form in which these are written.
//! [`Render`] is for other texts of the logs too.
//!
//! `specs/Expansion.antt` defines the list of shown events, and `specs/Text.antt` how an event looks. The state has the
//! targets named, the targets whose logs were opened, and the events so far. Opening a log inside another is not a recursion
//! over one log's entries. It is defined with a number of levels, one more than there are logs, and laws remove the levels:
//! [`show_log_equation`] states the recursion itself, [`each_log_once`] which logs are opened, and [`logs_nest`] that they are
//! nested. An inductive relation can't be computed, but examples of whole texts are (`ExpansionRows`).
#![tactic(auto)]

mod entry;
mod event;
mod form;
mod laws;
mod log;
mod plain;
mod render;
mod texts;
mod viewer;

pub use event::{EventRef, Opening};
pub use form::{Form, FormFault};
pub use laws::{
    at_first_mention, each_log_once, entries_in_order, entries_match_log, logs_nest,
    logs_show_their_lines, named_once, show_log_equation, text_is_append_only,
};
pub use plain::PlainText;
pub use redo_options::Options;
pub use render::Render;
pub use viewer::{ViewFault, view, view_as};
