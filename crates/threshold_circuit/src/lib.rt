//! The circuit of a quorum set: which sets of nodes satisfy it, once the faulty nodes count as present and only the nodes
//! of the greatest quorum may be present beside them.
#![tactic(auto)]

ghost use Rattle.std.specs.Prelude.{◌≡◌, ℕ, ◌-◌, ◌<◌, ◌≤◌, ◌↔◌, IsTrue, IfOk, All, length, []};
ghost use Rattle.fbas_model.specs.Nodes.{Nodes, members, ◌⊆◌, ◌∪◌};
ghost use Rattle.fbas_model.specs.Trees.{QuorumSet as Tree};
ghost use Rattle.fbas_model.specs.QuorumSets.{HasChoiceWithin, IsBelow, all_entries};
ghost use Rattle.fbas_model.specs.Lists.{entries_of};
ghost use Rattle.fbas_model.specs.declared.TheConstants.{MOST_ENTRIES};
ghost use Rattle.threshold_circuit.specs.Circuits.{Circuit as Tree_of, Inputs, input, at_least, NodesBelow, HasThresholds, IsReduced, all_inputs};
ghost use Rattle.threshold_circuit.specs.Gathering.{joined};
ghost use Rattle.threshold_circuit.specs.Gates.{gate_variables, own_variables};
ghost use Rattle.threshold_circuit.specs.Simplified.{simplified, simplified_entries, validator_circuit, always_count, undecided};
ghost use Rattle.threshold_circuit.specs.Same.{same_circuit};
ghost use Rattle.threshold_circuit.specs.Value.{circuit_value};
ghost use Rattle.threshold_circuit.specs.Views.{circuit_view, inputs_view};
ghost use Rattle.threshold_circuit.specs.Ordered.{ordered, compared};
ghost use Rattle.std.specs.Cmp.{IsTotalOrder};
ghost use Rattle.std.specs.declared.cmp.Ordering.TheVariants.{Equal};

mod gathered;

use gathered::Gathered;
use name_set::NodeSet;
use quorum_set::QuorumSet;
use std::alloc::{AllocError, Global};

/// A circuit over the nodes, without negation.
#[derive(Debug, Drop, PartialEq, Eq, PartialOrd, Ord, Hash)]
pub enum Circuit {
    /// True.
    Always,
    /// False.
    Never,
    /// Whether the node is present.
    Node(u32),
    /// Whether at least this many of the entries are true.
    AtLeast(u64, Vec<Circuit>),
}

impl Circuit {
    /// Whether the circuits are equal, as `==` says: equal thresholds, and equal entries in order.
    pub fn same(&self, other: &Circuit) -> bool
        ensures { result ≡ same_circuit (circuit_view self.now) (circuit_view other.now) }
    {
        self == other
    }

    /// The same circuit once more: O(e) for e entries at all depths.
    pub fn copy(&self, alloc: Global) -> Result<Circuit, AllocError>
        ensures { IfOk result (λ c. circuit_view c ≡ circuit_view self.now) }
    {
        match self {
            Circuit::Always => Ok(Circuit::Always),
            Circuit::Never => Ok(Circuit::Never),
            Circuit::Node(node) => Ok(Circuit::Node(*node)),
            Circuit::AtLeast(threshold, entries) => {
                let mut copies = Vec::new(alloc);
                for entry in entries {
                    copies.push(entry.copy(alloc)?)?;
                }
                Ok(Circuit::AtLeast(*threshold, copies))
            }
        }
    }

    /// The same with the inputs of each gate in order, as `<` says, so that circuits which differ in no more than the order of
    /// their inputs become equal: O(e log e) comparisons for e entries at all depths.
    pub fn ordered(&self, alloc: Global) -> Result<Circuit, AllocError>
        ensures { IfOk result (λ c. circuit_view c ≡ ordered (circuit_view self.now)) }
    {
        match self {
            Circuit::Always => Ok(Circuit::Always),
            Circuit::Never => Ok(Circuit::Never),
            Circuit::Node(node) => Ok(Circuit::Node(*node)),
            Circuit::AtLeast(threshold, entries) => {
                let mut sorted = Vec::new(alloc);
                for entry in entries {
                    sorted.push(entry.ordered(alloc)?)?;
                }
                sorted.sort()?;
                Ok(Circuit::AtLeast(*threshold, sorted))
            }
        }
    }

    /// The value where exactly the nodes of the set are present: O(e) for e entries at all depths.
    pub fn value(&self, set: &NodeSet) -> bool
        requires { NodesBelow (length set.now) (circuit_view self.now) }
        ensures value { result ≡ circuit_value (members set.now) (circuit_view self.now) }
        ensures law { (greatest faulty : Nodes) (q : Tree) → circuit_view self.now ≡ simplified greatest faulty q → members set.now ⊆ greatest → IsTrue result ↔ HasChoiceWithin q (members set.now ∪ faulty) }
    {
        match self {
            Circuit::Always => true,
            Circuit::Never => false,
            Circuit::Node(node) => set.has(*node),
            Circuit::AtLeast(threshold, entries) => {
                let mut count: u64 = 0;
                for entry in entries {
                    if entry.value(set) {
                        count += 1;
                    }
                }
                *threshold <= count
            }
        }
    }

    /// How many variables its gates have in its clauses: O(e) for e entries at all depths.
    pub fn gate_vars(&self) -> u64
        requires thresholds { HasThresholds (circuit_view self.now) }
        requires few { all_inputs (circuit_view self.now) ≤ MOST_ENTRIES }
        ensures { result ≡ gate_variables (circuit_view self.now) }
    {
        match self {
            Circuit::Always => 0,
            Circuit::Never => 0,
            Circuit::Node(_) => 0,
            Circuit::AtLeast(threshold, entries) => {
                let mut count: u64 = 0;
                for entry in entries {
                    count += entry.gate_vars();
                }
                count + own_vars(*threshold, entries.len() as u64)
            }
        }
    }
}

/// How many variables a gate has for itself that wants `k` of `n` inputs.
pub fn own_vars(k: u64, n: u64) -> u64
    requires some { 1 ≤ k }
    requires within { k ≤ n }
    requires few { n ≤ MOST_ENTRIES }
    ensures { result ≡ own_variables k n }
{
    if k == n {
        1
    } else if k == 1 {
        1
    } else {
        k * (k + 1) / 2 + (n - k) * k
    }
}

/// The circuit of a validator.
fn validator_circuit(node: u32, greatest: &NodeSet, faulty: &NodeSet) -> Circuit
    requires greatest { node < length greatest.now }
    requires faulty { node < length faulty.now }
    ensures { circuit_view result ≡ validator_circuit (members greatest.now) (members faulty.now) node }
{
    if faulty.has(node) {
        Circuit::Always
    } else if greatest.has(node) {
        Circuit::Node(node)
    } else {
        Circuit::Never
    }
}

/// Adds the circuits of the validators.
fn with_validators(
    gathered: Gathered,
    validators: &[u32],
    greatest: &NodeSet,
    faulty: &NodeSet,
) -> Result<Gathered, AllocError>
    requires same_n { length greatest.now ≡ length faulty.now }
    requires below { All (λ v. v < length greatest.now) validators.now }
    ensures threshold { IfOk result (λ g. g.threshold ≡ gathered.threshold - always_count (simplified_entries (members greatest.now) (members faulty.now) (entries_of validators.now []))) }
    ensures entries { IfOk result (λ g. inputs_view g.entries.items ≡ joined (inputs_view gathered.entries.items) (undecided (simplified_entries (members greatest.now) (members faulty.now) (entries_of validators.now [])))) }
{
    let mut gathered = gathered;
    for node in validators {
        gathered = gathered.add(validator_circuit(*node, greatest, faulty))?;
    }
    Ok(gathered)
}

/// The circuit of a quorum set, where the faulty nodes count as present and the other nodes outside the greatest quorum as
/// absent.
///
/// A quorum set whose threshold is 0 or above the number of its entries is `Never`. Entries keep their order, the
/// validators first. One that is always true lowers the threshold by 1 and goes, one that never is goes. Where the
/// threshold comes to 0 the circuit is `Always`, where it is above the number of entries left `Never`. O(e) for e entries
/// at all depths.
pub fn circuit_of(
    alloc: Global,
    set: &QuorumSet,
    greatest: &NodeSet,
    faulty: &NodeSet,
) -> Result<Circuit, AllocError>
    requires same_n { length greatest.now ≡ length faulty.now }
    requires below { IsBelow (length greatest.now) set.now }
    ensures circuit { IfOk result (λ c. circuit_view c ≡ simplified (members greatest.now) (members faulty.now) set.now) }
    ensures below { IfOk result (λ c. NodesBelow (length greatest.now) (circuit_view c)) }
    ensures reduced { IfOk result (λ c. IsReduced (members greatest.now) (circuit_view c)) }
    ensures thresholds { IfOk result (λ c. HasThresholds (circuit_view c)) }
    ensures few { IfOk result (λ c. all_inputs (circuit_view c) ≤ all_entries set.now) }
{
    let count = set.validators.len() as u64 + set.inner.len() as u64;
    if set.threshold == 0 || set.threshold > count {
        return Ok(Circuit::Never);
    }
    let start = Gathered {
        threshold: set.threshold,
        entries: Vec::new(alloc),
    };
    let mut gathered = with_validators(start, &set.validators, greatest, faulty)?;
    for inner in &set.inner {
        let circuit = circuit_of(alloc, inner, greatest, faulty)?;
        gathered = gathered.add(circuit)?;
    }
    Ok(gathered.circuit())
}

/// The same value, sizes, nodes and thresholds: what the laws of the formula ask of a circuit.
pub fn a_circuit_in_order_is_as_good()
    ensures value { (u : Nodes) (c : Tree_of) → circuit_value u (ordered c) ≡ circuit_value u c }
    ensures reduced { (nodes : Nodes) (c : Tree_of) → IsReduced nodes c → IsReduced nodes (ordered c) }
    ensures below { (n : ℕ) (c : Tree_of) → NodesBelow n c → NodesBelow n (ordered c) }
    ensures thresholds { (c : Tree_of) → HasThresholds c → HasThresholds (ordered c) }
    ensures inputs { (c : Tree_of) → all_inputs (ordered c) ≡ all_inputs c }
    ensures gates { (c : Tree_of) → gate_variables (ordered c) ≡ gate_variables c }
    ensures order { IsTotalOrder compared }
    ensures swapped { (k : ℕ) (before after : Inputs) (c d : Tree_of) → ordered (at_least k (joined before (input c (input d after)))) ≡ ordered (at_least k (joined before (input d (input c after)))) }
    ensures deep { (k : ℕ) (before after : Inputs) (c d : Tree_of) → ordered c ≡ ordered d → ordered (at_least k (joined before (input c after))) ≡ ordered (at_least k (joined before (input d after))) }
    ensures different { (c d : Tree_of) → compared c d ≡ Equal → c ≡ d }
{}
