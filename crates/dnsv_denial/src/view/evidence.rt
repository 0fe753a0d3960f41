//! What a view is of.
ghost use Rattle.std.specs.Prelude.{◌≡◌};

use crate::view::View;
use dnsv_canonical::Capture;
use dnsv_chain::Trust;
use dnsv_names::Name;

impl<'c, 't> View<'c, 't> {
    /// The capture whose records it looks through.
    pub fn capture(&self) -> &'c Capture<'c>
        ensures { result.now.rrsets ≡ self.now.rrsets }
    {
        self.capture
    }

    /// The trust by which those records are secured.
    pub fn trust(&self) -> &'t Trust<'t>
        ensures { result.now ≡ self.now.trust }
    {
        self.trust
    }

    /// The question's name.
    pub fn name(&self) -> &Name
        ensures { result.now ≡ self.now.name }
    {
        &self.name
    }
}
