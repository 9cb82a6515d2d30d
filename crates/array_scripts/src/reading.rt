//! Reading a script from a source.

ghost use Rattle.std.specs.Prelude.{◌≡◌, map, [], IfOk, IfErr, OnOk};
ghost use Rattle.exit_statuses.specs.Sides.{sides};
ghost use Rattle.array_scripts.specs.scripts.Scripts.{Reads};
ghost use Rattle.array_scripts.specs.Kinds.{language, IsHeader, Fits};
ghost use Rattle.array_scripts.specs.JobsOfScripts.{IsReadAs, IsCause};

use crate::header::Header;
use crate::kinds::Scripted;
use crate::script::script_of;
use exit_statuses::{Refusal, text_of};
use std::alloc::Global;
use trace_text::{INPUT_LIMIT, Source};

/// Reads a source to its end, and then the script that its bytes are.
pub fn read_script<K: Scripted, S: Source>(
    alloc: Global,
    source: &mut S,
) -> Result<(Header, Vec<Vec<K::Operation>>), Refusal>
    requires { Reads (language K.kind) (IsHeader K.kind) (Fits K.kind) }
    ensures read { IfOk result (λ x. IsReadAs K.kind (sides S.left S.faults source.old source.new)
        x.0 (map (λ ops. ops.items) x.1.items)) }
    ensures still { OnOk result (S.faults source.new ≡ S.faults source.old) }
    ensures refused { IfErr result (IsCause K.kind []
        (sides S.left S.faults source.old source.new)) }
{
    let text = text_of(alloc, source, INPUT_LIMIT)?;
    let script = script_of::<K>(alloc, &text)?;
    Ok(script)
}
