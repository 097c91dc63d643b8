// The two calls on a heap's text image: writing it, and reading it back.

#![tactic(auto)]

ghost use Rattle.std.specs.Prelude.{◌≡◌};
ghost use Rattle.rules.specs.Memory.{store};
ghost use Rattle.rules.specs.Refusals.{outcome};
ghost use Rattle.rules.specs.Image.{written, write_image, read_image};

use limits::admit;
use pages::all_zero;
use reading::{fill_pages, fill_part, judge, lengths_fit};
use rules::{Control, Lent, Refusal, Refused};
use writing::{text_length, write_text};

// Writes the image's text and answers its length. The length is counted first, so that a refusal leaves every byte.
pub fn write_image(lent: Lent<'_>, bytes: &mut [u8]) -> Result<(u32, Control), Refused>
    ensures { written result bytes.new ≡ write_image (store lent.entry) bytes.old }
{
    let heap = admit(lent)?;
    let c = lent.control;
    let rows = 4 * c.regions as usize;
    if !all_zero(&lent.table[rows..]) {
        return Err(Refused {
            why: Refusal::Broken(0),
            control: c,
        });
    }
    let length = text_length(heap);
    if bytes.len() < length {
        return Err(Refused {
            why: Refusal::Limits,
            control: c,
        });
    }
    write_text(bytes, heap);
    Ok((length as u32, c))
}

// Reads an image's text into the lent parts and answers its record. The whole text is judged before any word is written.
pub fn read_image(
    text: &[u8],
    heap: &mut [u32],
    table: &mut [u32],
    roots: &mut [u32],
    consts: &mut [u32],
) -> Result<Control, Refusal>
    ensures { outcome result heap.new table.new roots.new consts.new
        ≡ read_image text.now heap.old table.old roots.old consts.old }
{
    let h = judge(text)?;
    if !lengths_fit(h, heap.len(), table.len(), roots.len(), consts.len()) {
        return Err(Refusal::Limits);
    }
    let after_table = fill_part(text, 71, table);
    let after_roots = fill_part(text, after_table, roots);
    let after_consts = fill_part(text, after_roots, consts);
    fill_pages(text, after_consts, heap, h.n, h.pages as usize);
    Ok(Control::from(h))
}
