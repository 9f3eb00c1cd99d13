// The fields that other fields name by their ids. Where a caller has a field type's view at hand, that is taken, so that it is not read twice.
ghost use Rattle.std.specs.Prelude.{◌≡◌, ◌||◌, ◌≤◌};
ghost use Rattle.pack.specs.Notation.{◌≐◌};
ghost use Rattle.pack.specs.Items.{bytes_of};
ghost use Rattle.pack.specs.Loaded.{pgn_value};
ghost use Rattle.pack.specs.Value.{field_at};
ghost use Rattle.rules.specs.Search.{first_below};
ghost use Rattle.rules.specs.Model.{target};
ghost use Rattle.rules.specs.Texts.{NUMBER, LOOKUP};

use crate::of;
use pack::field_type::FieldTypeView;
use pack::loaded::PgnRef;
use pack::text::{Text, text_is};

// The first of n fields of a PGN with that id.
pub(crate) fn first_with_id(pgn: &PgnRef, n: u32, id: Text) -> Option<u32>
    requires { n ≤ pgn.now.view.fields }
    ensures { result ≡ first_below (λ j. (field_at (pgn_value pgn.now) j).id ≐ bytes_of pgn.now.pack.bytes.now id) n }
{
    of::first_with_id(
        pgn.pack.bytes,
        pgn.pack.work,
        pgn.protocol.tree(),
        pgn.item,
        pgn.place,
        n,
        id,
    )
}

// "A target is the first field with that id", of a PGN's fields.
pub fn target(pgn: &PgnRef, id: Text) -> Option<u32>
    ensures { result ≡ target (pgn_value pgn.now) (bytes_of pgn.now.pack.bytes.now id) }
{
    of::target(
        pgn.pack.bytes,
        pgn.pack.work,
        pgn.protocol.tree(),
        pgn.item,
        pgn.place,
        pgn.view.fields,
        id,
    )
}

// `integer`: NUMBER or LOOKUP, by the root's name of a field type.
pub(crate) fn integer(s: &[u8], v: FieldTypeView) -> bool
    ensures { result ≡ ((bytes_of s.now v.root ≐ NUMBER) || (bytes_of s.now v.root ≐ LOOKUP)) }
{
    text_is(s, v.root, b"NUMBER") || text_is(s, v.root, b"LOOKUP")
}
