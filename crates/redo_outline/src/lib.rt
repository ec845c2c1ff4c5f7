//! The outline: which logs are opened, in which order, how they are nested, and facts about each one.
//!
//! A page shows at its top, and beside each target, facts that are known only at the end: how many logs are below, how
//! many warnings they have, which targets failed. Therefore the logs are walked once before the page is written, for
//! its [`Outline`].
//!
//! # Terms
//!
//! - *Contents*: the shown events, as a tree. `specs/Contents.antt` makes this tree of events. A law says what the tree of events is
//!   (`IsTreeOf`), and that they have no other.
//! - *Node*: the facts about a log that is opened. Its *position* is the number of nodes before it.
//! - *Stretch*: text lines of a log that are stored together ([`TextLines`]).
//! - *Silent*: a target that printed nothing and didn't fail, and so each target below it.
#![tactic(auto)]

mod collector;
mod facts;
mod laws;
mod node;
mod outline;
mod positions;
mod sweep;
mod text_lines;

pub use facts::target_at;
pub use laws::{
    events_are_in_contents, nodes_count_children, nodes_count_logs, nodes_sum_up_logs_below,
    tree_is_unique,
};
pub use node::{Node, RunTimes};
pub use outline::Outline;
pub use text_lines::{TextLines, without_line_feed};
