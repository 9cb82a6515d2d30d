//! Configurations that are raised to what a saved heap needs.

ghost use Rattle.std.specs.Prelude.{◌≡◌, IfOk, IfErr};
ghost use Rattle.control_heap_c.specs.Needs.{BecameRaised, HasRaised, IsNotRaised, raise_status, raised_limits};
ghost use Rattle.control_heap_c.specs.Outcomes.{config_of, width_of};

use crate::handle::width_of;
use crate::saves::{LoadRefusal, load_told};
use block_store::Config;
use saved_heap::{LoadFault, needs_of, raised_is_enough};
use std::alloc::Global;

/// The limits of a configuration.
#[repr(C)]
#[derive(Clone, Copy, Debug, PartialEq, Eq)]
pub struct Limits {
    pub blocks: u32,
    pub live: u32,
    pub object: u32,
}

/// Why limits were not raised.
#[derive(Clone, Copy, Debug, PartialEq, Eq)]
pub enum RaiseRefusal {
    /// There is no such version.
    Version,
    /// The shared array is to have more than 65,535 elements.
    Shared,
    /// What the bytes need is not known.
    Bytes(LoadFault),
    /// A limit would be too large.
    TooLarge,
}

/// Raises a configuration to what a saved heap needs.
pub fn raise(
    alloc: Global,
    bytes: &[u8],
    version: u32,
    shared: u32,
    limits: Limits,
) -> Result<Config, RaiseRefusal>
    ensures { BecameRaised bytes.now (width_of version)
        (λ w. config_of w limits.blocks limits.live limits.object shared) result }
{
    match width_of(version) {
        None => Err(RaiseRefusal::Version),
        Some(width) => {
            let config = Config {
                width,
                threads: 1,
                blocks: limits.blocks,
                live: limits.live,
                object: limits.object,
                shared,
            };
            raised(alloc, bytes, config)
        }
    }
}

fn raised(alloc: Global, bytes: &[u8], config: Config) -> Result<Config, RaiseRefusal>
    ensures raised { IfOk result (HasRaised bytes.now config) }
    ensures refused { IfErr result (IsNotRaised bytes.now config) }
{
    raised_is_enough();
    if config.shared > 65_535 {
        return Err(RaiseRefusal::Shared);
    }
    match needs_of(alloc, bytes, config.width, config.shared) {
        Err(fault) => Err(RaiseRefusal::Bytes(fault)),
        Ok(needs) => match needs.raise(config) {
            Some(config) => Ok(config),
            None => Err(RaiseRefusal::TooLarge),
        },
    }
}

/// Writes the raised limits, if there are such, and returns the status.
pub fn raise_told(outcome: Result<Config, RaiseRefusal>, limits: &mut Limits) -> u32
    ensures status { result ≡ raise_status outcome }
    ensures limits { limits.new ≡ raised_limits outcome limits.old }
{
    match outcome {
        Ok(config) => {
            *limits = Limits {
                blocks: config.blocks,
                live: config.live,
                object: config.object,
            };
            0
        }
        Err(RaiseRefusal::Shared) => 2,
        Err(RaiseRefusal::Version) => 5,
        Err(RaiseRefusal::Bytes(fault)) => {
            let mut number = 0;
            load_told(Some(LoadRefusal::Heap(fault)), &mut number)
        }
        Err(RaiseRefusal::TooLarge) => 31,
    }
}
