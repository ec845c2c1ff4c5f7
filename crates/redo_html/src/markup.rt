//! The tags of a page.
ghost use Rattle.std.specs.Prelude.{◌≡◌, ◌++◌, codes};
ghost use Rattle.redo_device.specs.Sink.{Writes};
ghost use Rattle.redo_html.specs.Private.Marking.{number_in_tag, with_number};
ghost use Rattle.redo_html.specs.Shown.{number_text};
ghost use Rattle.redo_html.specs.Tags.{markup_html};

use itoa::Buffer;
use redo_device::{Broken, Sink, push_all};

/// A tag of a page. A tag has no bytes of its own except its number: so no byte of a log or of a name is ever in a tag.
#[derive(Clone, Copy)]
pub enum Markup {
    /// The declaration at the head of a page. `<!doctype html>`
    Doctype,
    /// `<html lang="en">`
    Html,
    /// `</html>`
    EndHtml,
    /// `<head>`
    Head,
    /// `</head>`
    EndHead,
    /// `<meta charset="utf-8">`
    Charset,
    /// `<meta name="viewport" content="width=device-width, initial-scale=1">`
    Viewport,
    /// `<meta name="color-scheme" content="light dark">`
    ColorScheme,
    /// Links from the page don't reveal its address. `<meta name="referrer" content="no-referrer">`
    Referrer,
    /// The page may load nothing and run nothing. `<meta http-equiv="Content-Security-Policy" content="default-src 'none'; style-src
    /// 'unsafe-inline'">`
    Policy,
    /// The body of the page of a build without a failure. `<body class="good">`
    BodyGood,
    /// The body of the page of a failed build. `<body class="bad">`
    BodyBad,
    /// The body of the page of a build that hasn't ended. `<body class="open">`
    BodyOpen,
    /// `</body>`
    EndBody,
    /// `<header>`
    Header,
    /// `</header>`
    EndHeader,
    /// The heading of the page. `<h1>`
    Title1,
    /// `</h1>`
    EndTitle1,
    /// The sign before the heading of the page. `<span class="sign" aria-hidden="true">`
    Sign,
    /// `</span>`
    EndSign,
    /// `<nav aria-label="Parts of this page">`
    Nav,
    /// `</nav>`
    EndNav,
    /// `<main>`
    Main,
    /// `</main>`
    EndMain,
    /// `<section id="failed" aria-labelledby="h-failed">`
    FailedSection,
    /// `<section id="new" aria-labelledby="h-new">`
    NewSection,
    /// `<section id="summary" aria-labelledby="h-summary">`
    SummarySection,
    /// `<section id="tree" aria-labelledby="h-tree">`
    TreeSection,
    /// `<section id="timeline" aria-labelledby="h-timeline">`
    TimelineSection,
    /// `</section>`
    EndSection,
    /// `<h2 id="h-failed">`
    FailedHeading,
    /// `<h2 id="h-new">`
    NewHeading,
    /// `<h2 id="h-summary">`
    SummaryHeading,
    /// `<h2 id="h-tree">`
    TreeHeading,
    /// `<h2 id="h-timeline">`
    TimelineHeading,
    /// `</h2>`
    EndHeading,
    /// `<a href="#failed">`
    FailedLink,
    /// `<a href="#new">`
    NewLink,
    /// `<a href="#summary">`
    SummaryLink,
    /// `<a href="#tree">`
    TreeLink,
    /// `<a href="#timeline">`
    TimelineLink,
    /// A link to the target with this number. `<a href="#tN">`
    TargetLink(u64),
    /// A link to the article with this number. `<a href="#fN">`
    OutputLink(u64),
    /// `</a>`
    EndLink,
    /// The output of a failed target, with its number. `<article id="fN">`
    Article(u64),
    /// `</article>`
    EndArticle,
    /// The heading of an article. `<h3>`
    Title3,
    /// `</h3>`
    EndTitle3,
    /// `<p>`
    Paragraph,
    /// A paragraph with details of the article around it. `<p class="meta">`
    MetaParagraph,
    /// A paragraph that explains something. `<p class="quiet">`
    QuietParagraph,
    /// A paragraph at a place where text was left out. `<p class="cut">`
    CutParagraph,
    /// A paragraph with a problem of the whole build. `<p class="problem">`
    ProblemParagraph,
    /// `</p>`
    EndParagraph,
    /// `<ul>`
    Unordered,
    /// `<ul class="tree">`
    Tree,
    /// `</ul>`
    EndUnordered,
    /// `<ol class="list">`
    Ordered,
    /// A list whose first item has this number. `<ol class="list" start="N">`
    OrderedFrom(u64),
    /// `</ol>`
    EndOrdered,
    /// `<li>`
    Item,
    /// `<li class="note">`
    NoteItem,
    /// The target with this number, which has nothing to open. `<li id="tN">`
    TargetItem(u64),
    /// `</li>`
    EndItem,
    /// The target with this number, closed. `<details id="tN">`
    Details(u64),
    /// The target with this number, open. `<details open id="tN">`
    OpenDetails(u64),
    /// `<details class="s">`
    QuietDetails,
    /// `<details class="more">`
    MoreDetails,
    /// `</details>`
    EndDetails,
    /// `<summary>`
    Summary,
    /// `</summary>`
    EndSummary,
    /// A line feed follows the tag: a browser drops the first one. `<pre>`
    Pre,
    /// `</pre>`
    EndPre,
    /// A name, whose letters don't change the direction of the text around it. `<bdi>`
    Bdi,
    /// `</bdi>`
    EndBdi,
    /// `<code>`
    Code,
    /// `</code>`
    EndCode,
    /// `<strong class="x">`
    ExitBadge,
    /// `<strong class="o">`
    OpenBadge,
    /// `</strong>`
    EndBadge,
    /// `<em>`
    Emphasis,
    /// `</em>`
    EndEmphasis,
    /// `<small>`
    Small,
    /// `</small>`
    EndSmall,
    /// `<footer>`
    Footer,
    /// `</footer>`
    EndFooter,
    /// A list of terms and their descriptions. `<dl>`
    DescriptionList,
    /// `</dl>`
    EndDescriptionList,
    /// `<div>`
    Div,
    /// `</div>`
    EndDiv,
    /// `<dt>`
    Term,
    /// `</dt>`
    EndTerm,
    /// `<dd>`
    Description,
    /// `</dd>`
    EndDescription,
    /// Elements next to each other, if there is room. It ends with `EndDiv`. `<div class="cols">`
    Columns,
    /// `<table>`
    Table,
    /// `</table>`
    EndTable,
    /// `<tbody>`
    TableBody,
    /// `</tbody>`
    EndTableBody,
    /// `<tr>`
    TableRow,
    /// `</tr>`
    EndTableRow,
    /// `<th scope="row">`
    RowHeading,
    /// `</th>`
    EndRowHeading,
    /// `<td class="n">`
    NumberCell,
    /// `<td class="m">`
    MeterCell,
    /// `</td>`
    EndCell,
    /// A part that is wider than the page, and can be scrolled. It ends with `EndDiv`. `<div class="scroll" tabindex="0" role="region"
    /// aria-labelledby="h-timeline">`
    TimelineScroll,
}

/// Writes a tag.
pub fn write_markup<W: Sink>(markup: Markup, out: &mut W) -> Result<(), Broken>
    ensures { Writes (W.written out.old) (W.written out.new) (markup_html markup) result }
{
    let text = text_in(markup);
    match number_in(markup) {
        None => push_all(out, text),
        Some(number) => write_numbered(text, number, out),
    }
}

// Returns a tag, up to its number if it has one.
fn text_in(markup: Markup) -> &'static [u8]
    ensures { with_number result.now (number_in_tag markup) ≡ markup_html markup }
{
    match markup {
        Markup::Doctype => b"<!doctype html>",
        Markup::Html => b"<html lang=\"en\">",
        Markup::EndHtml => b"</html>",
        Markup::Head => b"<head>",
        Markup::EndHead => b"</head>",
        Markup::Charset => b"<meta charset=\"utf-8\">",
        Markup::Viewport =>
            b"<meta name=\"viewport\" content=\"width=device-width, initial-scale=1\">",
        Markup::ColorScheme => b"<meta name=\"color-scheme\" content=\"light dark\">",
        Markup::Referrer => b"<meta name=\"referrer\" content=\"no-referrer\">",
        Markup::Policy =>
            b"<meta http-equiv=\"Content-Security-Policy\" content=\"default-src 'none'; style-src 'unsafe-inline'\">",
        Markup::BodyGood => b"<body class=\"good\">",
        Markup::BodyBad => b"<body class=\"bad\">",
        Markup::BodyOpen => b"<body class=\"open\">",
        Markup::EndBody => b"</body>",
        Markup::Header => b"<header>",
        Markup::EndHeader => b"</header>",
        Markup::Title1 => b"<h1>",
        Markup::EndTitle1 => b"</h1>",
        Markup::Sign => b"<span class=\"sign\" aria-hidden=\"true\">",
        Markup::EndSign => b"</span>",
        Markup::Nav => b"<nav aria-label=\"Parts of this page\">",
        Markup::EndNav => b"</nav>",
        Markup::Main => b"<main>",
        Markup::EndMain => b"</main>",
        Markup::FailedSection => b"<section id=\"failed\" aria-labelledby=\"h-failed\">",
        Markup::NewSection => b"<section id=\"new\" aria-labelledby=\"h-new\">",
        Markup::SummarySection => b"<section id=\"summary\" aria-labelledby=\"h-summary\">",
        Markup::TreeSection => b"<section id=\"tree\" aria-labelledby=\"h-tree\">",
        Markup::TimelineSection => b"<section id=\"timeline\" aria-labelledby=\"h-timeline\">",
        Markup::EndSection => b"</section>",
        Markup::FailedHeading => b"<h2 id=\"h-failed\">",
        Markup::NewHeading => b"<h2 id=\"h-new\">",
        Markup::SummaryHeading => b"<h2 id=\"h-summary\">",
        Markup::TreeHeading => b"<h2 id=\"h-tree\">",
        Markup::TimelineHeading => b"<h2 id=\"h-timeline\">",
        Markup::EndHeading => b"</h2>",
        Markup::FailedLink => b"<a href=\"#failed\">",
        Markup::NewLink => b"<a href=\"#new\">",
        Markup::SummaryLink => b"<a href=\"#summary\">",
        Markup::TreeLink => b"<a href=\"#tree\">",
        Markup::TimelineLink => b"<a href=\"#timeline\">",
        Markup::TargetLink(_) => b"<a href=\"#t",
        Markup::OutputLink(_) => b"<a href=\"#f",
        Markup::EndLink => b"</a>",
        Markup::Article(_) => b"<article id=\"f",
        Markup::EndArticle => b"</article>",
        Markup::Title3 => b"<h3>",
        Markup::EndTitle3 => b"</h3>",
        Markup::Paragraph => b"<p>",
        Markup::MetaParagraph => b"<p class=\"meta\">",
        Markup::QuietParagraph => b"<p class=\"quiet\">",
        Markup::CutParagraph => b"<p class=\"cut\">",
        Markup::ProblemParagraph => b"<p class=\"problem\">",
        Markup::EndParagraph => b"</p>",
        Markup::Unordered => b"<ul>",
        Markup::Tree => b"<ul class=\"tree\">",
        Markup::EndUnordered => b"</ul>",
        Markup::Ordered => b"<ol class=\"list\">",
        Markup::OrderedFrom(_) => b"<ol class=\"list\" start=\"",
        Markup::EndOrdered => b"</ol>",
        Markup::Item => b"<li>",
        Markup::NoteItem => b"<li class=\"note\">",
        Markup::TargetItem(_) => b"<li id=\"t",
        Markup::EndItem => b"</li>",
        Markup::Details(_) => b"<details id=\"t",
        Markup::OpenDetails(_) => b"<details open id=\"t",
        Markup::QuietDetails => b"<details class=\"s\">",
        Markup::MoreDetails => b"<details class=\"more\">",
        Markup::EndDetails => b"</details>",
        Markup::Summary => b"<summary>",
        Markup::EndSummary => b"</summary>",
        Markup::Pre => b"<pre>\n",
        Markup::EndPre => b"</pre>",
        Markup::Bdi => b"<bdi>",
        Markup::EndBdi => b"</bdi>",
        Markup::Code => b"<code>",
        Markup::EndCode => b"</code>",
        Markup::ExitBadge => b"<strong class=\"x\">",
        Markup::OpenBadge => b"<strong class=\"o\">",
        Markup::EndBadge => b"</strong>",
        Markup::Emphasis => b"<em>",
        Markup::EndEmphasis => b"</em>",
        Markup::Small => b"<small>",
        Markup::EndSmall => b"</small>",
        Markup::Footer => b"<footer>",
        Markup::EndFooter => b"</footer>",
        Markup::DescriptionList => b"<dl>",
        Markup::EndDescriptionList => b"</dl>",
        Markup::Div => b"<div>",
        Markup::EndDiv => b"</div>",
        Markup::Term => b"<dt>",
        Markup::EndTerm => b"</dt>",
        Markup::Description => b"<dd>",
        Markup::EndDescription => b"</dd>",
        Markup::Columns => b"<div class=\"cols\">",
        Markup::Table => b"<table>",
        Markup::EndTable => b"</table>",
        Markup::TableBody => b"<tbody>",
        Markup::EndTableBody => b"</tbody>",
        Markup::TableRow => b"<tr>",
        Markup::EndTableRow => b"</tr>",
        Markup::RowHeading => b"<th scope=\"row\">",
        Markup::EndRowHeading => b"</th>",
        Markup::NumberCell => b"<td class=\"n\">",
        Markup::MeterCell => b"<td class=\"m\">",
        Markup::EndCell => b"</td>",
        Markup::TimelineScroll =>
            b"<div class=\"scroll\" tabindex=\"0\" role=\"region\" aria-labelledby=\"h-timeline\">",
    }
}

// Returns the number in the last attribute of a tag, if it has one.
fn number_in(markup: Markup) -> Option<u64>
    ensures { result ≡ number_in_tag markup }
{
    match markup {
        Markup::TargetLink(number) => Some(number),
        Markup::OutputLink(number) => Some(number),
        Markup::Article(number) => Some(number),
        Markup::OrderedFrom(number) => Some(number),
        Markup::TargetItem(number) => Some(number),
        Markup::Details(number) => Some(number),
        Markup::OpenDetails(number) => Some(number),
        _ => None,
    }
}

// Writes a tag whose last attribute ends with a number.
fn write_numbered<W: Sink>(begin: &[u8], number: u64, out: &mut W) -> Result<(), Broken>
    ensures { Writes (W.written out.old) (W.written out.new) (begin.now ++ number_text number ++ codes "\">") result }
{
    push_all(out, begin)?;
    write_number(number, out)?;
    push_all(out, b"\">")
}

/// Writes a number in decimal.
pub fn write_number<W: Sink>(number: u64, out: &mut W) -> Result<(), Broken>
    ensures { Writes (W.written out.old) (W.written out.new) (number_text number) result }
{
    let mut buffer = Buffer::new();
    push_all(out, buffer.format(number).as_bytes())
}
