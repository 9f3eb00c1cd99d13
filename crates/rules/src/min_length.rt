// R16
ghost use Rattle.std.specs.Prelude.{◌≡◌};
ghost use Rattle.std.specs.Prelude.{Some};
ghost use Rattle.pack.specs.Loaded.{tree_of, pgn_value};
ghost use Rattle.rules.specs.Emit.{Emitted};
ghost use Rattle.rules.specs.MinLength.{lands_on_boundary, min_length_at, check_min_length};

use crate::emit::{Findings, pgn_error};
use pack::loaded::PgnRef;

// Whether the bits up to and with some field are the minimum times 8.
#[tactic(auto, using(crate::specs::SearchLaws::any_turn, crate::specs::SearchLaws::sum_turn), unfolding(crate::specs::MinLength::lands_on_boundary))]
fn lands_on_boundary(pgn: &PgnRef, least: u32) -> bool
    ensures { result ≡ lands_on_boundary (pgn_value pgn.now) least }
{
    let fields = pgn.view.fields;
    let boundary = least as u64 * 8;
    let mut bits: u64 = 0;
    for k in 0..fields {
        let f = pgn.field(k);
        bits += f.scaling.bits as u64;
        if bits == boundary {
            return true;
        }
    }
    false
}

#[tactic(auto, unfolding(crate::specs::MinLength::min_length_at))]
fn min_length_at(out: &mut Findings, pgn: &PgnRef, least: u32)
    ensures { Emitted out.old (min_length_at (tree_of pgn.now) pgn.now.item (pgn_value pgn.now) (Some least)) out.new }
{
    if pgn.view.flags.variable {
        out.put(pgn_error(16, 1, pgn, 0, 0));
        return;
    }
    if least == 0 || pgn.view.length <= least {
        out.put(pgn_error(16, 2, pgn, 0, 0));
        return;
    }
    let lands = lands_on_boundary(pgn, least);
    out.put_if(!lands, pgn_error(16, 3, pgn, 0, 0));
}

// R16: an authored minLength names a shorter payload that ends between two fields.
#[tactic(auto, unfolding(crate::specs::MinLength::check_min_length, crate::specs::MinLength::min_length_at))]
pub fn check_min_length(out: &mut Findings, pgn: &PgnRef)
    ensures { Emitted out.old (check_min_length (tree_of pgn.now) pgn.now.item (pgn_value pgn.now)) out.new }
{
    if let Some(least) = pgn.view.minimum {
        min_length_at(out, pgn, least);
    }
}
