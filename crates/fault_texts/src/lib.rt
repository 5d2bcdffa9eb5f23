//! The faults of instances and solutions in the words that are printed, for all commands that read them.
#![tactic(auto)]

ghost use Rattle.std.specs.Prelude.{◌≡◌, string_bytes, IfOk};
ghost use Rattle.fault_texts.specs.Texts.{pair_text, points_fault_text, instance_fault_text, solution_fault_text};

use instance_io::InstanceFault;
use plane::{BadPoints, Pair};
use solution_io::SolutionFault;
use std::alloc::{AllocError, Global};

/// A pair by its two indices.
pub fn pair_text(alloc: Global, e: Pair) -> Result<String, AllocError>
    ensures { IfOk result (λ text. string_bytes text ≡ pair_text e) }
{
    let (lo, hi) = (e.lo(), e.hi());
    format!(in alloc; "{lo}-{hi}")
}

/// The fault of a list of points, in words.
pub fn points_fault_text(alloc: Global, bad: BadPoints) -> Result<String, AllocError>
    ensures { IfOk result (λ text. string_bytes text ≡ points_fault_text bad) }
{
    match bad {
        BadPoints::TooFew(n) => format!(in alloc; "TooFew {n}"),
        BadPoints::TooMany(n) => format!(in alloc; "TooMany {n}"),
        BadPoints::TooFar(i) => format!(in alloc; "TooFar {i}"),
        BadPoints::SamePlace(i, j) => format!(in alloc; "SamePlace {i} {j}"),
        BadPoints::OneLine => format!(in alloc; "OneLine"),
    }
}

/// The fault of an instance, in words.
pub fn instance_fault_text(alloc: Global, fault: InstanceFault) -> Result<String, AllocError>
    ensures { IfOk result (λ text. string_bytes text ≡ instance_fault_text fault) }
{
    match fault {
        InstanceFault::NotJson => format!(in alloc; "NotJson"),
        InstanceFault::NoName => format!(in alloc; "NoName"),
        InstanceFault::LongName(l) => format!(in alloc; "LongName {l}"),
        InstanceFault::NoPoints => format!(in alloc; "NoPoints"),
        InstanceFault::BadPoint(k) => format!(in alloc; "BadPoint {k}"),
        InstanceFault::NotWhole(k) => format!(in alloc; "NotWhole {k}"),
        InstanceFault::MixedIndex(k) => format!(in alloc; "MixedIndex {k}"),
        InstanceFault::BadIndex(k) => format!(in alloc; "BadIndex {k}"),
        InstanceFault::Bad(bad) => points_fault_text(alloc, bad),
        InstanceFault::BadCosts => format!(in alloc; "BadCosts"),
        InstanceFault::TooManyCosts(k) => format!(in alloc; "TooManyCosts {k}"),
        InstanceFault::BadCost(k) => format!(in alloc; "BadCost {k}"),
        InstanceFault::NoMemory => format!(in alloc; "NoMemory"),
    }
}

/// The fault of a solution, in words.
pub fn solution_fault_text(alloc: Global, fault: &SolutionFault) -> Result<String, AllocError>
    ensures { IfOk result (λ text. string_bytes text ≡ solution_fault_text fault.now) }
{
    match fault {
        SolutionFault::NotJson => format!(in alloc; "NotJson"),
        SolutionFault::NoEdges => format!(in alloc; "NoEdges"),
        SolutionFault::TooManyEdges(c) => format!(in alloc; "TooManyEdges {c}"),
        SolutionFault::BadEdge(k) => format!(in alloc; "BadEdge {k}"),
        SolutionFault::NoMemory => format!(in alloc; "NoMemory"),
    }
}
