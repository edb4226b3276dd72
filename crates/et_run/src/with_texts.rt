//! A machine and the texts beside it.

use et_state::Machine;
use et_strings::Texts;

/// What runs: a machine, and the texts of its strings and string builders, which stand beside it.
#[derive(Drop)]
pub struct MachineWithTexts {
    pub machine: Machine,
    pub texts: Texts,
}
