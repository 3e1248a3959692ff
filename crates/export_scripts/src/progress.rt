// What a builder has been through.
ghost use Rattle.std.specs.Prelude.{◌≡◌};
ghost use Rattle.std.specs.Result.{result_unwrap_or};
ghost use Rattle.export_scripts.specs.Script.{refusals};

use base_builder::ConsensusBaseBuilder;
use refusals::Refusal;

// A builder, and how many of its events were refused; at most 255 are counted.
// kept: no plainer: nothing compares or prints it
#[derive(Clone, Copy)]
pub struct Progress {
    pub builder: ConsensusBaseBuilder,
    pub refused: u8,
}

impl Progress {
    // After what a call gave: one that is refused leaves the builder as it was, and is counted.
    pub fn after(self, answer: Result<ConsensusBaseBuilder, Refusal>) -> Self
        ensures { result ≡ record { builder = result_unwrap_or answer self.builder; refused = refusals answer self.refused } }
    {
        match answer {
            Ok(builder) => Self { builder, ..self },
            Err(_) => Self {
                refused: self.refused.saturating_add(1),
                ..self
            },
        }
    }
}
