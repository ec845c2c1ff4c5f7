//! The page of a build: one HTML file that shows what failed, and all logs.
//!
//! [`write_page`] makes the outline of a table and writes the page that `page_html` defines, or a prefix of it. A page is a list of parts
//! (`Parts` of `redo_html`), and has their bytes. The laws are about parts, and the laws of `redo_html` carry them over to what a browser
//! reads. [`PageRequest`] implements `Render`, so `run_as` can write a page.
//!
//! - The page, in order, with what its head, its header and its end say: `page.rt`, `verdict.rt`, `command.rt`.
//! - Templates: `frame.rt` (head, header and end), `summary.rt`, and `timeline.rt`, around the chart of `redo_chart`. `template.rt` says
//!   what templates consist of, and `scope.rt` what they say about a build.
//! - What failed, a template of lists, and the articles in it: `failed.rt`, `article.rt`, `recipe.rt`, `cause.rt`, `excerpt.rt`.
//! - What is new since an earlier build, a template of lists: `news.rt`.
//! - All logs: `tree.rt`, `step.rt`, `logs.rt`, `items.rt`, `block.rt`, `level.rt`, `texts.rt`. `limits.rt` says how much of each log is
//!   shown.
//! - What several of them use: `build.rt`, `nodes.rt`, `targets.rt`, `words.rt`, `writer.rt`, `labels.rt`.
#![tactic(auto, using(crate::proofs::WriterLemmas::wrote_then))]

mod article;
mod block;
mod build;
mod cause;
mod command;
mod excerpt;
mod failed;
mod frame;
mod items;
mod labels;
mod laws;
mod level;
mod limits;
mod logs;
mod news;
mod nodes;
mod page;
mod recipe;
mod scope;
mod step;
mod summary;
mod targets;
mod template;
mod texts;
mod timeline;
mod tree;
mod verdict;
mod words;
mod writer;

pub use laws::{
    cap_is_highest, command_is_shown_unchanged, failed_builds_are_red, failures_are_listed,
    lines_are_shown, links_lead_to_ids, news_are_shown, numbers_are_shown, page_is_read,
    recipes_are_shown, tags_are_its_own, tags_nest, targets_have_their_names, times_are_shown,
};
pub use page::{PageRequest, page_options, write_page};
pub use redo_view::FormFault;
