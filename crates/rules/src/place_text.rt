// The place text call: it answers how long the text is.
ghost use Rattle.std.specs.Prelude.{◌≡◌, length};
ghost use Rattle.pack.specs.Meaning.{pack_of};
ghost use Rattle.pack.specs.Placing.{Stored};
ghost use Rattle.rules.specs.Locs.{loc_text};
ghost use Rattle.rules.specs.PlaceCall.{named, text_left, Places};
ghost use Rattle.rules.specs.PlaceText.{place_text};

use crate::locs::Loc;
use crate::places::find_loc;
use crate::text_out::TextOut;
use pack::load::{Refusal, load};
use pack::loaded::Pack;

// Puts the text from the buffer's beginning on; answers how long it is.
fn write_loc(loc: Loc, pack: &Pack, text: &mut [u8]) -> usize
    ensures { Stored text.old 0 (loc_text pack.now.bytes.now loc) text.new result }
{
    let mut out = TextOut::new(text);
    loc.put(&mut out, pack.bytes);
    out.count
}

// Place and tree are the C interface's numbers. Over an empty part of the buffer the text is only measured: after 24 it has not changed.
fn write_named(
    pack: &Pack,
    place: u32,
    tree: u32,
    item: u32,
    text: &mut [u8],
) -> Result<usize, Refusal>
    ensures { record {
      answer : result ≡ named (place_text (pack_of pack.now.bytes.now) place tree item) (length text.old);
      text : text.new ≡ text_left
          (named (place_text (pack_of pack.now.bytes.now) place tree item) (length text.old))
          (place_text (pack_of pack.now.bytes.now) place tree item) text.old;
    } }
{
    let Some(loc) = find_loc(pack, place, tree, item) else {
        return Err(Refusal::Absent);
    };
    let needed = write_loc(loc, pack, &mut text[..0]);
    if text.len() < needed {
        return Err(Refusal::Place(needed));
    }
    write_loc(loc, pack, text);
    Ok(needed)
}

// The place text call, by the C interface's numbers. It makes its `Pack` itself (see there).
pub fn place_text(
    pack: &[u8],
    work: &mut [u32],
    place: u32,
    tree: u32,
    item: u32,
    text: &mut [u8],
) -> Result<usize, Refusal>
    ensures { Places pack.now place tree item work.old text.old work.new text.new result }
{
    let index = load(pack, work)?;
    let loaded = Pack {
        bytes: pack,
        work,
        index,
    };
    write_named(&loaded, place, tree, item, text)
}
