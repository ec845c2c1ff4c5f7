//! Laws, which are theorems about the definitions alone: each contract is a theorem, and the bodies are empty.
ghost use Rattle.std.specs.Prelude.{◌≡◌, ◌++◌, ◌<◌, ℕ, true, [], List, IsUtf8};
ghost use Rattle.std.specs.List.{flat_map, list_all};
ghost use Rattle.redo_line.specs.Lines.{with_line_feed};
ghost use Rattle.redo_html.specs.declared.text_kind.TextKind.{TextKind};
ghost use Rattle.redo_html.specs.declared.text_kind.TextKind.TheVariants.{Log, Monochrome, Title};
ghost use Rattle.redo_html.specs.declared.markup.Markup.TheVariants.{Article, OutputLink, TargetItem, TargetLink};
ghost use Rattle.redo_html.specs.declared.style.Style.{Style};
ghost use Rattle.redo_html.specs.Style.{plain_style};
ghost use Rattle.redo_html.specs.Passage.{passage_html, passage_tokens};
ghost use Rattle.redo_html.specs.Chart.{Drawing};
ghost use Rattle.redo_html.specs.Html.{nests_in, text_of, tags_of};
ghost use Rattle.redo_html.specs.Laws.{HasOwnId, IsLink, LeadsTo, ReadsAs, IsReadAsShown, has_bytes, is_byte, is_plain, is_printable_ascii, markup_tag, reworded};
ghost use Rattle.redo_html.specs.Lines.{is_no_escape, line_parts, lines_html, style_after, style_after_lines};
ghost use Rattle.redo_html.specs.Parts.{Part, part_html, part_tokens, part_text};
ghost use Rattle.redo_html.specs.Parts.Part.{ChartPart};
ghost use Rattle.redo_html.specs.Shown.{is_printable, shown_text};
ghost use Rattle.redo_html.specs.StyleSheet.{HidesNothing, LoadsNothing, style_sheet};

/// All bytes, with any style at their start, are read as the text that is shown. The only tags among them are highlights, which nest.
pub fn passages_are_read_as_shown()
    ensures { (kind : TextKind) (style : Style) (bytes : List ℕ) → IsReadAsShown kind style bytes }
{}

/// A title has no tags.
pub fn titles_have_no_tags()
    ensures { (style : Style) (bytes : List ℕ) → tags_of (passage_tokens Title style bytes) ≡ [] }
{}

/// Printable ASCII without `&`, `<` and `>`, tabs and line feeds are shown and written unchanged.
pub fn plain_text_is_unchanged()
    ensures shown { (kind : TextKind) (bytes : List ℕ) → list_all is_plain bytes ≡ true → shown_text kind bytes ≡ bytes }
    ensures written { (kind : TextKind) (bytes : List ℕ) → list_all is_plain bytes ≡ true → passage_html kind plain_style bytes ≡ bytes }
{}

/// A name is shown unchanged if no notation is shown in it. Printable ASCII has none.
pub fn printable_names_are_unchanged()
    ensures shown { (name : List ℕ) → list_all is_byte name ≡ true → is_printable name ≡ true → shown_text Monochrome name ≡ name }
    ensures ascii { (name : List ℕ) → list_all is_printable_ascii name ≡ true → is_printable name ≡ true }
{}

/// A link before any bytes shows nothing and leaves the style unchanged.
pub fn links_show_nothing()
    ensures shown { (before link more : List ℕ) → list_all is_plain before ≡ true → IsLink link →
        shown_text Log (before ++ (link ++ more)) ≡ before ++ shown_text Log more }
    ensures written { (style : Style) (link more : List ℕ) → IsLink link →
        passage_html Log style (link ++ more) ≡ passage_html Log style more }
    ensures style { (style : Style) (link more : List ℕ) → IsLink link →
        style_after style (link ++ more) ≡ style_after style more }
{}

/// The parts of a page are read as themselves: each tag as this tag, and text as characters.
pub fn parts_are_read()
    ensures { (parts : List Part) → ReadsAs (flat_map part_html parts) (flat_map part_tokens parts) }
{}

/// A link to the target or the output with a number leads to the element that has this number. No two numbers have the same id.
pub fn links_lead_to_their_numbers()
    ensures target { (number : ℕ) → LeadsTo (TargetLink number) (TargetItem number) }
    ensures output { (number : ℕ) → LeadsTo (OutputLink number) (Article number) }
    ensures own_ids { (number : ℕ) → number < 0x10000000000000000 → HasOwnId number }
{}

/// Lines show what all their bytes show, and the style at their end is the style after all their bytes.
pub fn lines_show_their_text()
    ensures text { (style : Style) (lines : List (List ℕ)) →
        flat_map part_text (line_parts style lines) ≡ shown_text Log (flat_map with_line_feed lines) }
    ensures style { (style : Style) (lines : List (List ℕ)) →
        style_after_lines style lines ≡ style_after style (flat_map with_line_feed lines) }
{}

/// Without escape characters, lines that begin with the plain style are written as one text.
pub fn plain_lines_are_one_text()
    ensures { (lines : List (List ℕ)) → list_all is_no_escape (flat_map with_line_feed lines) ≡ true →
        lines_html plain_style lines ≡ passage_html Log plain_style (flat_map with_line_feed lines) }
{}

/// The text that is shown of any bytes is valid UTF-8, and so is the HTML of a page.
pub fn html_is_utf8()
    ensures shown { (kind : TextKind) (bytes : List ℕ) → list_all is_byte bytes ≡ true → IsUtf8 (shown_text kind bytes) }
    ensures passages { (kind : TextKind) (style : Style) (bytes : List ℕ) → list_all is_byte bytes ≡ true →
        IsUtf8 (passage_html kind style bytes) }
    ensures parts { (parts : List Part) → list_all has_bytes parts ≡ true → IsUtf8 (flat_map part_html parts) }
{}

/// The characters of a page are the text that its parts show, in order.
pub fn parts_show_their_text()
    ensures { (parts : List Part) → text_of (flat_map part_tokens parts) ≡ flat_map part_text parts }
{}

/// Whether the tags of parts nest depends only on the parts that are tags: each element that begins in another part ends in it.
pub fn only_markup_decides_nesting()
    ensures { (parts : List Part) (around tags : List (List ℕ)) →
        nests_in around (tags_of (flat_map part_tokens parts) ++ tags) ≡ nests_in around (flat_map markup_tag parts ++ tags) }
{}

/// The tags of a chart stay the same if its texts are replaced: no byte of a tooltip, a label or a tick is in a tag.
pub fn charts_have_no_text_in_tags()
    ensures { (replace : List ℕ → List ℕ) (drawing : Drawing) →
        tags_of (part_tokens (ChartPart (reworded replace drawing))) ≡ tags_of (part_tokens (ChartPart drawing)) }
{}

/// The style sheet loads nothing, and hides nothing but what `hiding_rules` says.
pub fn style_sheet_is_harmless()
    ensures loads { LoadsNothing style_sheet }
    ensures hides { HidesNothing style_sheet }
{}
