//! What is kept of a way beside the verdict at its end.
ghost use Rattle.std.specs.Prelude.{◌≡◌, IsFalse, Ok, OnOk};
ghost use Rattle.dnsv_verdict.specs.Trail.{AddsHashes, IsEmpty, SetsHope};

use crate::at_name::Hope;
use dnsv_proof_forms::Hashes;
use std::alloc::{AllocError, Global};
use std::rc::Rc;

/// What the verdicts on a way are found by, if it is kept.
#[derive(Drop)]
pub struct Trail<'a> {
    /// Whether anything is.
    keeps: bool,
    /// The hashes for each name of the way, in order.
    pub hashes: Vec<Rc<Hashes<'a>>>,
    /// What a Pending verdict is hoped by.
    pub hope: Option<Hope<'a>>,
}

impl<'a> Trail<'a> {
    /// Nothing yet.
    pub fn new(alloc: Global, keeps: bool) -> Trail<'a>
        ensures keeps { result.keeps ≡ keeps }
        ensures empty { IsEmpty result }
    {
        Trail {
            keeps,
            hashes: Vec::new(alloc),
            hope: None,
        }
    }

    /// Adds the hashes for one name more, if they are kept.
    pub fn add(&mut self, hashes: Rc<Hashes<'a>>) -> Result<(), AllocError>
        ensures added { OnOk result (AddsHashes hashes.entry.value self.old self.new) }
        // Nothing fails where nothing is kept.
        ensures unkept { IsFalse self.old.keeps → result ≡ Ok tt }
    {
        if !self.keeps {
            return Ok(());
        }
        self.hashes.push(hashes)?;
        Ok(())
    }

    /// Takes what the last verdict is hoped by, if it is kept.
    pub fn set_hope(&mut self, hope: Hope<'a>)
        ensures { SetsHope hope.entry self.old self.new }
    {
        if !self.keeps {
            return;
        }
        self.hope = Some(hope);
    }
}
