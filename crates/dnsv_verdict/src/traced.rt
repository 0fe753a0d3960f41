//! What a question leads to, also where its way stops.
ghost use Rattle.std.specs.Prelude.{◌≡◌, ◌<◌, get_or, length};
ghost use Rattle.dnsv_verdict.specs.Traced.{hashes_on_way};

use crate::error::VerdictError;
use crate::link::{Link, Links};
use crate::report::Judged;
use dnsv_proof_forms::Hashes;
use std::rc::Rc;

/// What a question of a case leads to, with what each verdict on its way was found by.
#[derive(Drop)]
pub enum Traced<'a> {
    /// The verdict at the end of its way.
    Reached(Judged<'a>),
    /// An alias that can't be followed.
    Stopped(StoppedWay<'a>),
}

/// A way over secure aliases that can't be followed to a verdict, and what its aliases were found by beside the case. A
/// view of what the evidence says at a name of the way is made of its hashes and the trust of the case.
#[derive(Drop)]
pub struct StoppedWay<'a> {
    /// The secure aliases that lead from the name that was asked for to the name of the last alias.
    pub links: Links,
    /// The secure alias behind them, which can't be followed. Its name is the one that was asked for where there are no
    /// links, else the target of the last of them.
    pub alias: Link,
    /// Why not: `AliasTargets` where it has no one target, `AliasLoop` where the target is a name of the way, its own
    /// among them, `TooManyLinks` where it would be the ninth link, `BadQuestion` where the type can't be asked at the
    /// target; the first of these, in this order.
    pub error: VerdictError,
    /// Those for the name of each link, in order, and for the name of the alias, which other questions may share. They
    /// are empty where nothing is kept.
    pub hashes: Vec<Rc<Hashes<'a>>>,
}

impl<'a> StoppedWay<'a> {
    /// The hashes for the name of the link with so many before it, or with all of them for the name of the alias.
    pub fn hashes_at(&self, place: usize) -> &Hashes<'a>
        requires { place < length (hashes_on_way self.now) }
        ensures { result.now ≡ get_or (hashes_on_way self.now) place result.now }
    {
        self.hashes[place].as_ref()
    }
}
