//! The parameters of NSEC3 records in their order.
ghost use Rattle.std.specs.Prelude.{◌↔◌, Contains, IfOk, map};
ghost use Rattle.std.specs.List.Sorted.{IsStrictlySortedBy};
ghost use Rattle.dnsv_records.specs.declared.nsec3.Nsec3Parameters.{Nsec3Parameters};
ghost use Rattle.dnsv_zones.specs.chains.Rdata.{parameters_of};
ghost use Rattle.dnsv_proof_forms.specs.records.ParametersOrder.{parameters_cmp};

use dnsv_records::Nsec3Parameters;
use std::alloc::{AllocError, Global};

/// Parameters of NSEC3 records where they stand, in the order of what they are.
#[derive(Debug, PartialEq, Eq, PartialOrd, Ord, Drop)]
pub struct OrderedParameters<'a> {
    /// The parameters.
    pub parameters: &'a Nsec3Parameters<'a>,
}

/// The parameters in their order, by iterations and then by salt, each once.
pub fn parameters_in_order<'a>(
    alloc: Global,
    all: &'a [Nsec3Parameters<'a>],
) -> Result<Vec<OrderedParameters<'a>>, AllocError>
    ensures order { IfOk result (λ ordered. IsStrictlySortedBy parameters_cmp
        (map parameters_of (map (λ each. each.parameters.now) ordered.items))) }
    ensures members { IfOk result (λ ordered. (each : Nsec3Parameters) → Contains all.now each
        ↔ Contains (map (λ each. each.parameters.now) ordered.items) each) }
{
    let mut ordered = Vec::new(alloc);
    for parameters in all {
        ordered.push(OrderedParameters { parameters })?;
    }
    ordered.sort_unstable();
    ordered.dedup();
    Ok(ordered)
}
