//! The formula of a system.
ghost use Rattle.std.specs.Prelude.{◌≡◌, ℕ, Bool, true, false, ◌+◌, ◌*◌, ◌<◌, ◌≤◌, ◌^◌, ◌↔◌, All, IfOk, Err, length};
ghost use Rattle.fbas_model.specs.Nodes.{Nodes, Table, members, size, listed_from, Meets, ◌∈◌};
ghost use Rattle.fbas_model.specs.Fbas.{Fbas, Quorum, Intersects, IsGreatestQuorum, all_nodes};
ghost use Rattle.fbas_model.specs.declared.TheConstants.{MOST_NODES};
ghost use Rattle.lrat_model.specs.Literal.{formula_true};
ghost use Rattle.lrat_model.specs.Clauses.{numbered, Satisfies, IsUnsatisfiable};
ghost use Rattle.lrat_model.specs.Ranges.{AreInRange};
ghost use Rattle.lrat_model.specs.Runs.{formula_database};
ghost use Rattle.clause_encoder.specs.declared.limits.TheConstants.{MOST_CLAUSES, MOST_VARS};
ghost use Rattle.clause_encoder.specs.declared.encoder.EncodeError.TheVariants.{TooLarge};
ghost use Rattle.clause_encoder.specs.Formula.{side_a, side_b, formula_over, formula_clauses as clauses_in, formula_vars};
ghost use Rattle.clause_encoder.specs.Meaning.{told, Tells, AreDisjointQuorums};
ghost use Rattle.clause_encoder.specs.Written.{circuit_in, AreWritable};
ghost use Rattle.clause_encoder.specs.declared.version.Version.{Version};

use crate::circuits::Circuits;
use crate::clauses::Clauses;
use crate::count::count_vars;
use crate::limits::MOST_VARS;
use crate::marks::Marks;
use crate::nodes::{members_of, variables_of};
use crate::sides::{ClauseWriter, formula_clauses};
use crate::var_map::VarMap;
use crate::version::Version;
use clause_store::Store;
use fbas_core::System;
use name_set::NodeSet;
use std::alloc::{AllocError, Global};
use thiserror::Error;

/// Why there is no formula.
#[derive(Clone, Copy, Debug, Error)]
pub enum EncodeError {
    /// It would have this many variables, more than `MOST_VARS`.
    #[error("the formula has {0} variables")]
    TooLarge(u64),
    /// No memory for it.
    #[error("out of memory")]
    Memory,
}

impl From<AllocError> for EncodeError {
    ghost use Rattle.clause_encoder.specs.declared.limits.TheConstants.{MOST_CLAUSES, MOST_VARS};
    ghost use Rattle.clause_encoder.specs.declared.encoder.EncodeError.TheVariants.{Memory};
    ghost use Rattle.std.specs.Prelude.{◌≡◌};

    ghost from_gives = { λ _ e. e ≡ Memory };

    fn from(_: AllocError) -> EncodeError {
        EncodeError::Memory
    }
}

/// The store of a formula whose variables are counted: O(n and the formula).
fn encode_within(
    alloc: Global,
    version: Version,
    greatest: &NodeSet,
    n: u32,
    vars: u32,
    nodes: &[u32],
    circuits: &Circuits,
) -> Result<Store, AllocError>
    requires n { n ≡ length greatest.now }
    requires few { n ≤ MOST_NODES }
    requires nodes { nodes.now ≡ listed_from 0 greatest.now }
    requires same_n { length circuits.now.kinds ≡ n }
    requires writable { AreWritable n circuits.now.different }
    requires small { vars ≤ MOST_VARS }
    requires members { 2 * length nodes.now ≤ vars }
    requires vars { vars + 1 ≡ (formula_over version (λ v. v) (λ v. v) (1 + length nodes.now + length nodes.now) (circuit_in circuits.now) nodes.now).after.next }
    ensures few { IfOk result (λ s. s.last ≤ MOST_CLAUSES) }
    ensures clauses { IfOk result (λ s. s ≡ formula_database (formula_over version (side_a greatest.now) (side_b greatest.now) (1 + size greatest.now + size greatest.now) (circuit_in circuits.now) nodes.now).clauses) }
{
    let members = nodes.len() as u32;
    let first = variables_of(alloc, greatest, n, 1)?;
    let second = variables_of(alloc, greatest, n, 1 + members)?;
    let marks = Marks::new(alloc, vars + 2)?;
    let start = 1 + members + members;
    let clauses = Clauses::new(alloc);
    let mut writer = ClauseWriter {
        alloc,
        clauses,
        marks,
    };
    formula_clauses(
        version,
        &mut writer,
        &first,
        &second,
        start,
        nodes,
        circuits,
    )?;
    Ok(writer.clauses.into_store())
}

/// The formula over these nodes and circuits, and what its variables stand for: O(n and the formula).
fn encode_over(
    alloc: Global,
    version: Version,
    greatest: &NodeSet,
    n: u32,
    nodes: &[u32],
    circuits: &Circuits,
) -> Result<(Store, VarMap), EncodeError>
    requires n { n ≡ length greatest.now }
    requires few { n ≤ MOST_NODES }
    requires nodes { nodes.now ≡ listed_from 0 greatest.now }
    requires same_n { length circuits.now.kinds ≡ n }
    requires writable { AreWritable n circuits.now.different }
    ensures store { IfOk result (λ r. r.0 ≡ formula_database (formula_over version (side_a greatest.now) (side_b greatest.now) (1 + size greatest.now + size greatest.now) (circuit_in circuits.now) nodes.now).clauses) }
    ensures variables { IfOk result (λ r. (r.1.greatest ≡ greatest.now) × (r.1.count + 1 ≡ (formula_over version (λ v. v) (λ v. v) (1 + length nodes.now + length nodes.now) (circuit_in circuits.now) nodes.now).after.next)) }
    ensures small { IfOk result (λ r. r.1.count ≤ MOST_VARS) }
    ensures few { IfOk result (λ r. r.0.last ≤ MOST_CLAUSES) }
    ensures too_large { (vars : ℕ) → result ≡ Err (TooLarge vars) → (vars + 1 ≡ (formula_over version (λ v. v) (λ v. v) (1 + length nodes.now + length nodes.now) (circuit_in circuits.now) nodes.now).after.next) × (MOST_VARS < vars) }
{
    let vars = count_vars(alloc, version, nodes, circuits)?;
    if vars > MOST_VARS {
        return Err(EncodeError::TooLarge(vars));
    }
    let store = encode_within(alloc, version, greatest, n, vars as u32, nodes, circuits)?;
    let map = VarMap::of(greatest, vars);
    Ok((store, map))
}

/// The intersection formula of a system after deletion of its faulty nodes, and what its variables stand for. It is
/// satisfiable exactly where two quorums share no node; a satisfying assignment tells two such quorums, and every two such
/// quorums are told by one.
///
/// The members of the greatest quorum in order have the variables from 1 on, and after them those of side b. The clauses
/// have the ids from 1 on: some node of side a, some of side b, for each member that it is not on both, then on each side
/// for each member whose circuit is not always true its gates, and that it is only true with them. A circuit's gates are
/// written after those of their entries: where all inputs are wanted a clause for each, where one is wanted one clause, and
/// else a sequential counter (Sinz 2005). From version 2 on a side writes each gate once: a circuit that is equal to one whose
/// gate is written stands for that gate. In version 3 the inputs of each gate stand in one order, those of inner gates first: nodes
/// by their numbers, then gates by their thresholds, and those of equal thresholds by their inputs. So what differs in no more than
/// the order of a quorum set's entries, at any depth, is one gate.
///
/// `TooLarge` comes where the formula has more than `MOST_VARS` variables, which are counted before anything is written.
/// Linear in n, in the entries of the members' quorum sets and in the formula, on average over the hashes of circuits. A quorum
/// set is read once: of nodes with equal circuits one circuit is kept, and its gate is found again without a look at it.
pub fn encode(
    alloc: Global,
    version: Version,
    system: &System,
    faulty: &NodeSet,
    greatest: &NodeSet,
) -> Result<(Store, VarMap), EncodeError>
    requires same_faulty { length faulty.now ≡ length system.now.sets }
    requires same_n { length greatest.now ≡ length system.now.sets }
    requires greatest { IsGreatestQuorum system.now.sets (members faulty.now) (all_nodes system.now.sets) (members greatest.now) }
    ensures store { IfOk result (λ r. r.0 ≡ formula_database (clauses_in version system.now.sets faulty.now greatest.now)) }
    ensures variables { IfOk result (λ r. r.1 ≡ record { greatest = greatest.now; count = formula_vars version system.now.sets faulty.now greatest.now }) }
    ensures small { IfOk result (λ r. formula_vars version system.now.sets faulty.now greatest.now ≤ MOST_VARS) }
    ensures few { IfOk result (λ r. r.0.last ≤ MOST_CLAUSES) }
    ensures too_large { (vars : ℕ) → result ≡ Err (TooLarge vars) → (vars ≡ formula_vars version system.now.sets faulty.now greatest.now) × (MOST_VARS < vars) }
    ensures in_range { IfOk result (λ r. AreInRange r.1.count r.0.held) }
    ensures exact { IfOk result (λ r. IsUnsatisfiable r.0.held ↔ Intersects system.now.sets (members faulty.now)) }
    ensures tells { (v : ℕ → Bool) → IfOk result (λ r. Satisfies v r.0.held → AreDisjointQuorums system.now.sets (members faulty.now) (told (side_a greatest.now) greatest.now v) (told (side_b greatest.now) greatest.now v)) }
    ensures told { (u w : Nodes) → AreDisjointQuorums system.now.sets (members faulty.now) u w → IfOk result (λ r. Tells r.0.held greatest.now u w) }
{
    let n = system.len();
    let nodes = members_of(alloc, greatest)?;
    let circuits = Circuits::of(alloc, version, system, faulty, greatest)?;
    encode_over(alloc, version, greatest, n, &nodes, &circuits)
}

/// In both versions: where the greatest quorum is that which the deletion of the faulty nodes leaves, no assignment makes
/// the formula's clauses true exactly where every two quorums share a node.
pub fn the_formula_says_whether_quorums_intersect()
    ensures held { (version : Version) (f : Fbas) (faulty greatest : Table) → IsGreatestQuorum f (members faulty) (all_nodes f) (members greatest) → IsUnsatisfiable (numbered 1 (clauses_in version f faulty greatest)) ↔ Intersects f (members faulty) }
    ensures formula { (version : Version) (f : Fbas) (faulty greatest : Table) → IsGreatestQuorum f (members faulty) (all_nodes f) (members greatest) → ((v : ℕ → Bool) → formula_true v (clauses_in version f faulty greatest) ≡ false) ↔ Intersects f (members faulty) }
{}
