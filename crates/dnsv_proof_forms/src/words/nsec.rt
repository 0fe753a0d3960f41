//! What forms ask of NSEC records.
ghost use Rattle.std.specs.Prelude.{◌≡◌, ◌⊎◌};
ghost use Rattle.dnsv_names.specs.Name.{SameName};
ghost use Rattle.dnsv_zones.specs.chains.NsecChain.{IsInBitmap};
ghost use Rattle.dnsv_zones.specs.forms.Nsec.{IsAbsentBy, IsEmptyNonTerminalBy, IsNodeBy};
ghost use Rattle.dnsv_proof_forms.specs.records.Record.{read_entry};
ghost use Rattle.dnsv_proof_forms.specs.declared.records.entry.NsecEntry.{NsecEntry};
ghost use Rattle.dnsv_proof_forms.specs.words.Asked.{said_types};

use crate::records::entry::NsecEntry;
use crate::words::asked::AskedTypes;
use crate::words::search::Word;
use dnsv_names::Name;
use dnsv_zones::{is_absent, is_empty_non_terminal, is_node};

/// The word that a name is no node.
#[derive(Drop)]
pub struct Absent<'a>(pub &'a Name);

impl Word<NsecEntry<'_>> for Absent<'_> {
    ghost says = { λ word entry. IsAbsentBy (read_entry entry) word.0.now };

    fn is_said_by(&self, entry: &NsecEntry<'_>) -> bool {
        is_absent(entry.owner, entry.nsec, self.0)
    }
}

/// The word that a name is an empty non-terminal.
#[derive(Drop)]
pub struct EmptyNonTerminal<'a>(pub &'a Name);

impl Word<NsecEntry<'_>> for EmptyNonTerminal<'_> {
    ghost says = { λ word entry. IsEmptyNonTerminalBy (read_entry entry) word.0.now };

    fn is_said_by(&self, entry: &NsecEntry<'_>) -> bool {
        is_empty_non_terminal(entry.owner, entry.nsec, self.0)
    }
}

/// The word that a name is no node or an empty non-terminal.
#[derive(Drop)]
pub struct RuledOut<'a>(pub &'a Name);

impl Word<NsecEntry<'_>> for RuledOut<'_> {
    ghost says = { λ word entry. IsAbsentBy (read_entry entry) word.0.now
        ⊎ IsEmptyNonTerminalBy (read_entry entry) word.0.now };

    fn is_said_by(&self, entry: &NsecEntry<'_>) -> bool {
        if Absent(self.0).is_said_by(entry) {
            return true;
        }
        EmptyNonTerminal(self.0).is_said_by(entry)
    }
}

/// The word that a name is a node.
#[derive(Drop)]
pub struct Node<'a>(pub &'a Name);

impl Word<NsecEntry<'_>> for Node<'_> {
    ghost says = { λ word entry. IsNodeBy (read_entry entry) word.0.now };

    fn is_said_by(&self, entry: &NsecEntry<'_>) -> bool {
        is_node(entry.owner, entry.nsec, self.0)
    }
}

/// The word that a name is an owner, and its types are such.
#[derive(Drop)]
pub struct Owner<'a> {
    /// The owner.
    pub name: &'a Name,
    /// What its types are to be.
    pub types: AskedTypes,
}

impl Word<NsecEntry<'_>> for Owner<'_> {
    ghost says = { λ word entry. SameName entry.owner.now word.name.now
        × said_types word.types (IsInBitmap (read_entry entry).types) };

    fn is_said_by(&self, entry: &NsecEntry<'_>) -> bool {
        if *entry.owner == *self.name {
            return self.types.are(&entry.nsec.types);
        }
        false
    }
}
