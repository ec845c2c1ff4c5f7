//! Which highlights are open in a passage.
ghost use Rattle.std.specs.Prelude.{◌≡◌};
ghost use Rattle.redo_html.specs.Private.Highlighting.{start_look, after_code_point};

use crate::style::Style;

/// The style of the next code point, and the open highlights of the passage: the highlight of a style, and within it, if `unprintable`
/// is set, the highlight for unprintable code points.
#[derive(Clone, Copy)]
pub struct Look {
    pub wanted: Style,
    pub current: Style,
    pub unprintable: bool,
}

/// Returns the look at the start of a passage that begins with this style: no highlight is open.
pub fn at_start(style: Style) -> Look
    ensures { result ≡ start_look style }
{
    Look {
        wanted: style,
        current: Style::PLAIN,
        unprintable: false,
    }
}

/// Sets the look to the one after a code point.
pub fn pass_code_point(look: &mut Look, unprintable: bool)
    ensures { look.new ≡ after_code_point look.old unprintable }
{
    look.current = look.wanted;
    look.unprintable = unprintable;
}
