//! The links of a way over aliases.
ghost use Rattle.std.specs.Prelude.{◌≡◌, ◌<◌, ◌≤◌, ◌++◌, [], ◌∷◌, length};
ghost use Rattle.dnsv_verdict.specs.Way.{most_links};

use arrayvec::ArrayVec;
use dnsv_names::Name;
use std::marker::Model;

/// How many links a way over aliases has at most.
pub const LINK_LIMIT: usize = 8;

/// A name that is a secure alias of another. RRsets, and the signatures of each, are numbered from 1.
#[derive(Debug, Drop)]
pub struct Link {
    /// The name, spelled as it was asked for; the target of a link before is in lower case.
    pub name: Name,
    /// The CNAME RRset that makes it an alias (RFC 1034 3.6.2).
    pub rrset: usize,
    /// The signature that secures the RRset (RFC 4035 5.3).
    pub signature: usize,
}

/// A link that stands for none, at the root.
impl Default for Link {
    ghost use Rattle.std.specs.Prelude.{◌≡◌, []};

    ghost is_default = { λ link. link ≡ record { name = []; rrset = 0; signature = 0 } };

    fn default() -> Link {
        Link {
            name: root(),
            rrset: 0,
            signature: 0,
        }
    }
}

/// The name of no labels.
fn root() -> Name
    ensures { result ≡ [] }
{
    let Some((root, _length)) = Name::read(&[0]) else {
        unreachable!();
    };
    root
}

/// The links of a way in order, at most eight. They lie in the value itself and take no memory.
#[derive(Debug, Drop)]
pub struct Links {
    links: ArrayVec<Link, LINK_LIMIT>,
}

impl Model for Links {
    ghost use Rattle.std.specs.Prelude.{List};
    ghost use Rattle.dnsv_verdict.specs.declared.link.Link.{Link};

    ghost Value = { List Link };

    ghost view = { λ links. links.links.items };
}

impl Links {
    /// No links.
    pub fn new() -> Links
        ensures { result ≡ [] }
    {
        Links {
            links: ArrayVec::new(),
        }
    }

    /// The links, in order.
    pub fn as_slice(&self) -> &[Link]
        ensures value { result.now ≡ self.now }
        ensures few { length self.now ≤ most_links }
    {
        &self.links
    }

    /// Adds a link behind the others.
    pub fn push(&mut self, link: Link)
        requires { length self.now < most_links }
        ensures { self.new ≡ self.old ++ link ∷ [] }
    {
        self.links.push(link);
    }
}
