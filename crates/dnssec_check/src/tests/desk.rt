//! The program on a machine that tells what it has.
ghost use Rattle.std.specs.Prelude.{◌≡◌, IfOk, None, Some, codes, map, string_bytes};
ghost use Rattle.std.specs.Prelude.{if◌then◌else◌};
ghost use Rattle.std.specs.Str.{bytes_eq};

use dnsv_message::Counted;
use dnsv_program::{CommandLineError, Machine, exit_status};
use std::alloc::{AllocError, Global};
use std::io;

// A machine in memory, which tells its words, and the octets of its one file, `host.cap`.
#[derive(Drop)]
struct Desk<'a> {
    alloc: Global,
    words: &'a [&'a str],
    has_room: bool,
    octets: &'a [u8],
}

impl<'a> Machine for Desk<'a> {
    type File = &'a [u8];

    ghost given_words = { λ desk. Some (map (λ word. word.now) desk.words.now) };

    ghost octets_at = { λ desk path. if bytes_eq path (codes "host.cap") then Some desk.octets.now else None };

    ghost opens = { λ desk path. Some (bytes_eq path (codes "host.cap")) };

    fn alloc(&self) -> Global {
        self.alloc
    }

    fn words(&self) -> Result<Vec<String>, CommandLineError> {
        if !self.has_room {
            return Err(CommandLineError::OutOfMemory);
        }
        Ok(words_of(self.alloc, self.words)?)
    }

    fn open(&self, path: &str) -> io::Result<&'a [u8]> {
        if path == "host.cap" {
            Ok(self.octets)
        } else {
            Err(io::Error::other("there is no such file"))
        }
    }
}

fn words_of(alloc: Global, given: &[&str]) -> Result<Vec<String>, AllocError>
    ensures { IfOk result (λ words. map string_bytes words.items ≡ map (λ word. word.now) given.now) }
{
    let mut words = Vec::new(alloc);
    for word in given {
        words.push(String::from_str(alloc, word)?)?;
    }
    Ok(words)
}

// What the program ends with on a machine that tells what it has, and what it writes to its two streams.
fn ended(desk: &Desk<'_>) -> (u8, Vec<u8>, Vec<u8>) {
    let mut output = Counted::new(Vec::new(desk.alloc));
    let mut errors = Counted::new(Vec::new(desk.alloc));
    let code = exit_status(desk, &mut output, &mut errors);
    (code, output.into_inner(), errors.into_inner())
}

// Whether the program ends so on the machine, with nothing on its output, and this on its errors.
fn ends(desk: &Desk<'_>, status: u8, told: &[u8]) -> bool {
    let (code, output, errors) = ended(desk);
    code == status && output.is_empty() && errors.as_slice() == told
}

#[test]
fn tells_want_of_memory_at_the_words(rt: HostRuntime) {
    let mut desk = Desk {
        alloc: rt.alloc(),
        words: &["dnssec_check", "show", "--capture", "host.cap"],
        has_room: false,
        octets: &[],
    };
    assert!(rt; ends(&desk, 1, b"fault 90\n"));
    desk.has_room = true;
    assert!(rt; ends(&desk, 0, b""));
}
