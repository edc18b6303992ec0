//! A text within a page.
ghost use Rattle.std.specs.Prelude.{◌≡◌, ◌++◌, OnOk};
ghost use Rattle.review.specs.Escape.{escape, escaped};

use crate::label::put;
use std::alloc::AllocError;

fn put_escape(out: &mut Vec<u8>, octet: u8) -> Result<(), AllocError>
    ensures { OnOk result (out.new.items ≡ out.old.items ++ escape octet) }
{
    if octet == b'&' {
        put(out, b"&amp;")
    } else if octet == b'<' {
        put(out, b"&lt;")
    } else if octet == b'>' {
        put(out, b"&gt;")
    } else if octet == b'"' {
        put(out, b"&quot;")
    } else if octet == b'\'' {
        put(out, b"&#39;")
    } else {
        Ok(out.push(octet)?)
    }
}

/// Appends a text so that a browser shows it as it is: with references in place of `&`, `<`, `>`,
/// `"` and `'`.
pub(crate) fn put_escaped(out: &mut Vec<u8>, text: &[u8]) -> Result<(), AllocError>
    ensures { OnOk result (out.new.items ≡ out.old.items ++ escaped text.now) }
{
    for octet in text {
        put_escape(out, *octet)?;
    }
    Ok(())
}
