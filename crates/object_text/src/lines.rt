//! Lines of the text.
ghost use Rattle.std.specs.Prelude.{◌≡◌, ◌++◌, OnOk, string_bytes, replicate};
ghost use Rattle.object_text.specs.Text.{line, opening, closing};

use std::alloc::AllocError;

/// Puts so many spaces.
pub(crate) fn put_indent(out: &mut String, indent: usize) -> Result<(), AllocError>
    ensures { OnOk result (string_bytes out.new ≡ string_bytes out.old ++ replicate indent 32) }
{
    for _space in 0..indent {
        out.push_str(" ")?;
    }
    Ok(())
}

/// Puts the line that opens an element with a name.
#[tactic(auto, unfolding(crate::specs::Text::line, crate::specs::Text::opening))]
pub(crate) fn put_opening(
    out: &mut String,
    indent: usize,
    element: &str,
    name: &str,
) -> Result<(), AllocError>
    ensures { OnOk result (string_bytes out.new ≡ string_bytes out.old ++ line indent (opening element.now name.now)) }
{
    put_indent(out, indent)?;
    writeln!(out, "<{element} name=\"{name}\">")?;
    Ok(())
}

/// Puts the line that closes an element.
#[tactic(auto, unfolding(crate::specs::Text::line, crate::specs::Text::closing))]
pub(crate) fn put_closing(out: &mut String, indent: usize, element: &str) -> Result<(), AllocError>
    ensures { OnOk result (string_bytes out.new ≡ string_bytes out.old ++ line indent (closing element.now)) }
{
    put_indent(out, indent)?;
    writeln!(out, "</{element}>")?;
    Ok(())
}
