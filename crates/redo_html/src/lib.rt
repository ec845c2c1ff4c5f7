//! Text as HTML: how bytes are shown, how a browser reads them, the tags of a page, and charts.
//!
//! The crates above rely on this: [`write_pieces`] writes any bytes of a log or of a name so that they are read as text, in the form
//! that `specs/Shown.antt` defines. No byte of them is in a tag. [`Markup`] has the tags, which have no bytes but numbers of their
//! own. A [`Chart`] has texts, and they are read as text too. The laws say so of any pieces; `specs/Html.antt` models how a browser
//! reads.
//!
//! # Terms
//!
//! - *Code point*: a character of a text, or one byte that is no part of a character, which counts as U+DC00 plus the byte.
//! - *Sequence*: `ESC [`, digits and semicolons, and `m` (SGR, which sets colours) or `K` (which erases a line); or a *link*, which is
//!   `ESC ] 8 ;`, printable ASCII without spaces in which there is a semicolon, and BEL or `ESC \`.
//! - *Unprintable code point*: a code point that a browser would hide, change, reject or act on: a control character, an invalid byte,
//!   a noncharacter, an invisible or bidirectional character. Its *notation* is shown instead: `^M`, `\xff`, `[U+202E]`.
//! - *Passage*: a text that begins with a style. All its highlights end at its end. A *highlight* is an element around unprintable code
//!   points or for a style.
//! - *Markup*: a tag of a page.
//! - *Chart*: bars over time, drawn by one `svg` element. A *meter* is a bar in a cell of a table.
//!
//! # Design
//!
//! **Text** (`Symbols`, `Shown`). From five equal unprintable code points in a row on, one notation and a count are shown. In
//! logs, the sequences by which compilers set colours and write links are consumed, and all other escape characters are unprintable. No
//! byte of a link may be an escape character, so each byte is tested for one link at most, even if links don't end.
//!
//! **Highlights** (`Passage`, `Style`). Unprintable code points, bold text and six hues have elements. The definition of a passage gives
//! each code point its style. Then it groups code points by style, and in each group by whether they are unprintable. An element is
//! around each group, so all elements that are begun in a passage end in it. The code goes through a passage once, with a `Look`: the
//! style of the next code point, and what is open. It writes the highlights between two code points before the second one, so a sequence
//! that changes nothing writes nothing. Background colours and concealed text are ignored, because they can hide what a log says.
//!
//! **Lines** (`Lines`). Each line of a log is a passage, and begins with the style after the line before it.
//! [`write_log_lines`] takes the style at the start of some lines and sets it to the one at their end, so several calls may write
//! the lines of a log. The crates above begin each block of lines with the plain style, and there a style of the log ends.
//! Lines without escape characters are written as one passage, which has the same HTML: no symbol, run of code points or highlight goes
//! past a line feed. Lines with them go through a buffer in one pass (`put_lines`): a line is known to end where its line feed was put.
//!
//! **Reading** (`Html`). The tokenizer of the HTML standard, in the states that a page needs. The laws compose: each part of a
//! page is read from the data state to the data state (`ReadsAs`), before any bytes. A reading that leaves the modelled states
//! is lost, and no law allows that. The model reads tokens, not the tree that a browser builds. It knows three rules of the
//! tree: the text of `title` and `style` is read by other states, a line feed directly after `<pre>` is dropped, and an `svg`
//! is foreign content. There, HTML elements would end the `svg`, and an end tag that ends none of its elements could end HTML
//! around it. Therefore the context of the text has the elements that are open in the `svg`: only elements of SVG may begin,
//! and only the innermost one may end. Nothing may begin in a `title` of SVG, because a browser reads start tags there as HTML.
//! Only elements of a list are read, because others switch the tokenizer to other states. A browser drops an attribute with the
//! name of an earlier one, and all attributes of an end tag, so tags with these are lost. The model reads bytes, and a browser
//! decodes them first: for any bytes of a log, the page is valid UTF-8 (`html_is_utf8`).
//!
//! **Tags** (`Tags`). A tag is a value of an enum that has no bytes, only numbers. By its type, no byte of a log is in a
//! tag.
//!
//! **Style sheet** (`StyleSheet`). The model doesn't read it. A law allows only functions that load nothing, and lists the rules
//! that hide something.
//!
//! **Charts** (`Chart`). A chart is typed data: groups of lines, ticks and bars, with numbers and texts. The definition makes
//! elements of it, whose attributes have text of the program, numbers and percentages. Elements nest by type. The texts are
//! passages without highlights, because a highlight is an HTML element. Three laws about charts depend on one lemma: it computes,
//! from the context before an element, the context after it (`next_context`). The laws also state that the tags of a chart stay
//! the same with other texts, and that only the markup of a page decides whether its tags nest.
//!
//! **Speed.** A stretch of code points that are written as they are (`verbatim_len`) is one write. Sixteen bytes at once are tested
//! for plain ones, and a table says which of the last bytes are plain. A table of states recognizes the letters of most scripts (`STEPS`).
//! After such letters, 32 bytes at once are tested for plain bytes and for letters in blocks whose code points are all visible
//! (`strides_len`). Only other characters are decoded. Each sequence is read in one pass, and the sequences before a stretch are read in
//! a row; those that GCC writes most are compared with constants, two at once (`read_pair`). Every other code point is a write of its own,
//! and so is each number and each fixed text of a chart. The parts of lines with sequences are short, so they are put into a `Buffer`,
//! sixteen bytes at once: what was written, with the bytes in the buffer, is the text so far. What these lines seldom need is in functions
//! that are marked as cold, so that the compiler keeps the look in registers. If a write fails, a prefix of the text was written.
#![tactic(auto)]

mod buffer;
mod chart;
mod cut;
mod laws;
mod lines;
mod look;
mod markup;
mod notation;
mod passage;
mod piece;
mod printable;
mod stride;
mod style;
mod style_sheet;
mod styled;
mod symbol;
mod text_kind;

pub use chart::{Anchor, Bar, Chart, ChartGroup, ChartItem, GroupKind, write_chart, write_meter};
pub use cut::cut_len;
pub use laws::{
    charts_have_no_text_in_tags, html_is_utf8, lines_show_their_text, links_lead_to_their_numbers,
    links_show_nothing, only_markup_decides_nesting, parts_are_read, parts_show_their_text,
    passages_are_read_as_shown, plain_lines_are_one_text, plain_text_is_unchanged,
    printable_names_are_unchanged, style_sheet_is_harmless, titles_have_no_tags,
};
pub use lines::write_log_lines;
pub use markup::{Markup, write_markup, write_number};
pub use passage::{write_log_text, write_text, write_title_text};
pub use piece::{Piece, write_pieces};
pub use printable::is_printable;
pub use style::{Hue, Style};
pub use symbol::{ESCAPE, sequence_size};
