// R23
ghost use Rattle.std.specs.Prelude.{◌<◌, length, get_or};
ghost use Rattle.pack.specs.Meaning.{pack_of};
ghost use Rattle.pack.specs.Value.{no_field_type};
ghost use Rattle.rules.specs.Emit.{Emitted};
ghost use Rattle.rules.specs.Fieldtypes.{fieldtype_at, check_fieldtypes};

use crate::emit::{Findings, fieldtype_error};
use pack::loaded::Pack;

#[tactic(auto, unfolding(crate::specs::Fieldtypes::fieldtype_at))]
fn fieldtype_at(out: &mut Findings, pack: &Pack, i: u32)
    requires { i < length (pack_of pack.now.bytes.now).fieldtypes }
    ensures { Emitted out.old (fieldtype_at i (get_or (pack_of pack.now.bytes.now).fieldtypes i no_field_type)) out.new }
{
    let ft = pack.field_type(i);
    let report = !ft.base && !ft.print;
    out.put_if(report, fieldtype_error(23, 1, i));
}

// R23: every root field type can print.
#[tactic(auto, unfolding(crate::specs::Fieldtypes::check_fieldtypes))]
pub fn check_fieldtypes(out: &mut Findings, pack: &Pack)
    ensures { Emitted out.old (check_fieldtypes (pack_of pack.now.bytes.now).fieldtypes) out.new }
{
    for i in 0..pack.index.types.count {
        fieldtype_at(out, pack, i);
    }
}
