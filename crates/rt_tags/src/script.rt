//! A whole script.

ghost use Rattle.std.specs.Prelude.{◌<◌, ◌^◌, length, map, IfOk, IfErr};
ghost use Rattle.trace_text.specs.Reading.{tokenized};
ghost use Rattle.array_scripts.specs.Parts.{Blames, IsFirstBad};
ghost use Rattle.rt_tags.specs.Lines.{tag_kind, IsTagScript};

use crate::kind::Tags;
use array_scripts::{Fault, Header};
use array_tables::tag_table::Operation;
use std::alloc::Global;

/// The script that an input is.
pub fn script_of(alloc: Global, input: &[u8]) -> Result<(Header, Vec<Vec<Operation>>), Fault>
    requires { length input.now < 2 ^ 39 }
    ensures script { IfOk result (λ x. IsTagScript (tokenized input.now) x.0
        (map (λ ops. ops.items) x.1.items)) }
    ensures bad { IfErr result (Blames (IsFirstBad tag_kind (tokenized input.now))) }
{
    array_scripts::script_of::<Tags>(alloc, input)
}
