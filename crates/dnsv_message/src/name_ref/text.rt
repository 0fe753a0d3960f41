//! The text of a name where it stands.
ghost use Rattle.std.specs.Prelude.{◌≡◌, ◌+◌, ◌≤◌, ◌++◌};
ghost use Rattle.arrayvec.specs.ArrayString.{array_string_len};
ghost use Rattle.dnsv_names.specs.Text.{text_of};

use crate::name_ref::NameRef;
use crate::name_ref::following::{label, next_label};
use arrayvec::ArrayString;
use dnsv_names::{TEXT_LIMIT, push_label};

impl<'b> NameRef<'b> {
    /// Adds the text of the name, as a `Name` writes it. A name isn't made for it.
    pub fn push_text<const N: usize>(&self, text: &mut ArrayString<N>)
        requires { array_string_len text.old + TEXT_LIMIT ≤ N }
        ensures text { text.new.bytes ≡ text.old.bytes ++ text_of self.now }
        ensures length { array_string_len text.new ≤ array_string_len text.old + TEXT_LIMIT }
    {
        let octets = self.octets;
        let mut place = self.place;
        if octets[place] == 0 {
            text.push('.');
            return;
        }
        while octets[place] != 0 {
            push_label(text, label(octets, place));
            place = next_label(octets, place);
        }
    }
}
