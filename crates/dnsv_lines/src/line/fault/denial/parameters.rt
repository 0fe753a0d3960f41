//! Parameters of NSEC3 records, as a line tells them.
ghost use Rattle.std.specs.Prelude.{◌≡◌, IfOk};

use dnsv_records::{Iterations, Nsec3Parameters};
use std::alloc::{AllocError, Global};
use std::marker::Model;

/// What the hashes of a zone's NSEC3 records are made with (RFC 5155 3.1.3, 3.1.5), its octets its own.
#[derive(Debug, Drop)]
pub struct SourceParameters {
    iterations: Iterations,
    salt: Vec<u8>,
}

impl Model for SourceParameters {
    ghost use Rattle.dnsv_records.specs.declared.nsec3.Nsec3Parameters.{Nsec3Parameters};

    ghost Value = { Nsec3Parameters };

    ghost view = { λ told. record { iterations = told.iterations; salt = told.salt.items } };
}

impl SourceParameters {
    /// A copy of the parameters.
    pub fn copy_of(
        alloc: Global,
        parameters: &Nsec3Parameters<'_>,
    ) -> Result<SourceParameters, AllocError>
        ensures { IfOk result (λ copy. copy ≡ parameters.now) }
    {
        Ok(SourceParameters {
            iterations: parameters.iterations,
            salt: Vec::from_slice(alloc, parameters.salt.as_slice())?,
        })
    }

    /// How many more times than once a name is hashed.
    pub fn iterations(&self) -> Iterations
        ensures { result ≡ self.now.iterations }
    {
        self.iterations
    }

    /// The octets that each hash is made with besides.
    pub fn salt(&self) -> &[u8]
        ensures { result.now ≡ self.now.salt }
    {
        &self.salt
    }
}
