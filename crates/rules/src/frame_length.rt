// R04
ghost use Rattle.pack.specs.Loaded.{tree_of, pgn_value};
ghost use Rattle.rules.specs.Emit.{Emitted};
ghost use Rattle.rules.specs.FrameLength.{check_frame_length};

use crate::emit::{Findings, pgn_error};
use pack::kinds::MessageType;
use pack::loaded::PgnRef;

// R04: fixed single-frame PGNs are exactly 8 bytes (ISO Request 59904 excepted); a variable one's fixed part must fit the frame.
#[tactic(auto, unfolding(crate::specs::FrameLength::check_frame_length))]
pub fn check_frame_length(out: &mut Findings, pgn: &PgnRef)
    ensures { Emitted out.old (check_frame_length (tree_of pgn.now) pgn.now.item (pgn_value pgn.now)) out.new }
{
    if pgn.view.kind != MessageType::Single {
        return;
    }
    let variable = pgn.view.flags.variable;
    let not_eight = !variable && pgn.view.length != 8 && pgn.view.pgn != 59904;
    out.put_if(not_eight, pgn_error(4, 1, pgn, 0, 0));
    let too_long = variable && 8 < pgn.view.length;
    out.put_if(too_long, pgn_error(4, 2, pgn, 0, 0));
}
