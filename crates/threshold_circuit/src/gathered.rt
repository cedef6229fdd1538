// The entries of a gate, as they are gathered.

ghost use Rattle.std.specs.Prelude.{◌≡◌, ◌-◌, IfOk};
ghost use Rattle.threshold_circuit.specs.Circuits.{input, end_of_gate};
ghost use Rattle.threshold_circuit.specs.Simplified.{always_count, undecided, threshold_over};
ghost use Rattle.threshold_circuit.specs.Views.{circuit_view, inputs_view};
ghost use Rattle.threshold_circuit.specs.Gathering.{joined};

use super::Circuit;
use std::alloc::AllocError;

/// The undecided entries of a gate so far, and the threshold that is left for them.
#[derive(Drop)]
pub struct Gathered {
    pub threshold: u64,
    pub entries: Vec<Circuit>,
}

impl Gathered {
    /// Takes one more entry.
    pub fn add(self, circuit: Circuit) -> Result<Gathered, AllocError>
        ensures threshold { IfOk result (λ g. g.threshold ≡ self.threshold - always_count (input (circuit_view circuit) end_of_gate)) }
        ensures entries { IfOk result (λ g. inputs_view g.entries.items ≡ joined (inputs_view self.entries.items) (undecided (input (circuit_view circuit) end_of_gate))) }
    {
        let mut entries = self.entries;
        match circuit {
            Circuit::Always => Ok(Gathered {
                threshold: self.threshold.saturating_sub(1),
                entries,
            }),
            Circuit::Never => Ok(Gathered {
                threshold: self.threshold,
                entries,
            }),
            other => {
                entries.push(other)?;
                Ok(Gathered {
                    threshold: self.threshold,
                    entries,
                })
            }
        }
    }

    /// The gate over the entries.
    pub fn circuit(self) -> Circuit
        ensures { circuit_view result ≡ threshold_over self.threshold (inputs_view self.entries.items) }
    {
        if self.threshold == 0 {
            Circuit::Always
        } else if self.threshold > self.entries.len() as u64 {
            Circuit::Never
        } else {
            Circuit::AtLeast(self.threshold, self.entries)
        }
    }
}
