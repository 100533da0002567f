// A wide field's four bytes, written low byte first.
ghost use Rattle.writer.specs.Layout.{wide_bytes};
ghost use Rattle.notation_buffers.specs.Code.Pages.{Puts};

use notation_buffers::pages::Page;

// Writes a wide field.
pub fn put_wide(page: &mut Page, x: u32)
    ensures { Puts page.old (wide_bytes x) page.new }
{
    page.put_word(&x.to_le_bytes());
}
