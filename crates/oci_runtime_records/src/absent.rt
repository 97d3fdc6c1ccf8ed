//! A state as a member, which may be absent.
ghost use Rattle.std.specs.Prelude.{None, option_map, IfOk, IfErr};
ghost use Rattle.serde_json.specs.View.{view};
ghost use Rattle.oci_base.specs.Refused.{IsSchema, IsMemoryOrSchema};
ghost use Rattle.oci_model.specs.Shape as presence;
ghost use Rattle.oci_model.specs.Means.{Means, MeansMember};
ghost use Rattle.oci_model.specs.Refused.{IsMemberRefused};
ghost use Rattle.oci_model.specs.Types.{given};
ghost use Rattle.oci_shapes.specs.State.{state, default_state};
ghost use Rattle.oci_runtime_records.specs.State.{state_plain};

use crate::state::State;
use oci_base::Result;
use oci_model::fault::placed;
use oci_model::{MemberReader, OciMember};
use serde_json::Value;
use std::alloc::Global;

/// A member that may be absent, and then is the default state. Null is judged as any other value.
pub(crate) struct DefaultState;

impl MemberReader<State> for DefaultState {
    ghost presence = { presence.defaulted default_state };

    ghost shape = { state };

    ghost slot = { given state_plain };

    #[tactic(auto, using(oci_model::proofs::Presences::defaulted_refused, oci_model::proofs::Presences::absent_means))]
    fn read(
        alloc: Global,
        found: Option<Value>,
        owner: &'static str,
        name: &'static str,
    ) -> Result<State> {
        match found {
            Some(value) => match State::read(alloc, value) {
                Ok(x) => Ok(x),
                Err(fault) => Err(placed(fault, owner, name)),
            },
            None => State::try_default(alloc),
        }
    }
}
