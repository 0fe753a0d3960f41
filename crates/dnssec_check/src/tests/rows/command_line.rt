//! Command lines.

/// A file of captured messages, and an empty one.
pub const SHARED: &str = "\
a < HOST
b = ";

pub const ROWS: &str = "\
# Options in any order, joined to their values or not; a value may look like an option, and a number may have a sign.
# Beside --all no statements are opened.
--all < HOST
$ ./check list --all --moment=+281474976710655 --capture=--all --statements z
=> 0
data 1 1 00010d0200000e10000007d0000003e8080f076578616d706c650004686f7374076578616d706c65000001000100000e100004c0000201

$ dnssec_check list --moment 0 --capture a
=> 0

--moment < HOST
$ ./check show --capture=--moment
=> 0
message 1 0002 8400 1 3 0 0
question Host.Example. 1 1
record 1 Host.Example. 1 1 5 c0000201
record 2 Host.Example. 1 1 5 c0000201
record 3 Host.Example. 46 1 5 00010d0200000e10000007d0000003e8080f074578616d706c6500aabb

a < KEYS HOST
said = good 13 010203 00010d0200000e10000007d0000003e8080f076578616d706c650004686f7374076578616d706c65000001000100000e100004c0000201 aabb
$ dnssec_check list --statements said --capture a --moment 1000
=> 0
todo 13 010203 00300d0100000e10000007d0000003e8080f076578616d706c6500076578616d706c65000030000100000e1000070100030d010203 cc

a = 
$ dnssec_check check --capture a --anchors b --moment 1 --name c. --type 65535
=> 6
Indeterminate c. 65535

a = 
d = 
e = 
f = 
$ dnssec_check check --macs e --statements f --keys d --type 65535 --name c. --moment 1 --anchors b --capture a
=> 6
Indeterminate c. 65535

a = 
$ dnssec_check explain --capture a --anchors b --moment 1 --name c. --type 65536
=> 2
! 
~ help

$ dnssec_check explain --capture a --anchors b --moment 1 --name c. --type 1 --all
=> 2
! 
~ help

# The first moment is not behind the last.
a = 
$ dnssec_check list --to 4 --capture a --compact --from 5
=> 7
! refused 821

a = 
$ dnssec_check timeline --to 4 --capture a --anchors b --name c. --type 1 --from 5 --kinds --json
=> 7
! refused 821

# Words that are all taken are 19; one more has no place.
a = 
$ dnssec_check check --capture a --anchors a --moment 1 --name c. --type 1 --statements a --keys a --macs a --json
=> 6
{\"command\":\"check\",\"name\":\"c.\",\"type\":1,\"moment\":1,\"verdict\":\"Indeterminate\",\"status\":6,\"aliases\":[]}

a = 
$ dnssec_check check --capture a --anchors a --moment 1 --name c. --type 1 --statements a --keys a --macs a --json a
=> 2
! 
~ help

# A path is taken as it is, with a blank at its end too.
a  < HOST
octets 64 73686f77 2d2d63617074757265 6120
=> 0
~ record 3 Host.Example. 46 1 5 

octets 64 73686f77 2d2d63617074757265 6120
=> 1
! fault 811 capture

# A word that is no UTF-8.
octets 64 73686f77 2d2d63617074757265 61ff
=> 2
! error: a word of the command line is not UTF-8

# Help: status 0, on the output; each subcommand's tells its statuses and what comes next.
$ dnssec_check --help
=> 0
~ Says what captured DNS messages prove
~ list
~ show
~ check
~ explain
~ timeline
~ dnssec_check-judge does all three

$ dnssec_check show --help
=> 0
~ --capture <FILE>
~ Exit status: 0 where every message is shown, 7 where the file or a message is refused,
~ 2 for words that are no command, 1 where memory, the file or the output failed
~ dnssec_check list --capture

$ dnssec_check list --help
=> 0
~ Lists the signatures that a verifier still has to check
~ --capture <FILE>
~ --moment <N>
~ --from <N>
~ --to <N>
~ --all
~ --statements <FILE>
~ Exit status: 0 where the list is whole, also where it is empty, 7 where a file is refused,
~ 2 for words that are no command, 1 where memory, a file or the output failed
~ dnssec_check-verify todo > statements

$ dnssec_check check --help
=> 0
~ --anchors <FILE>
~ Exit status: 0 for SecureAnswer, SecureNoName and SecureNoData, 3 for Insecure,
~ 4 for Pending, 5 for Bogus, 6 for Indeterminate, 7 where the question or a file is refused,
~ 2 for words that are no command, 1 where memory, a file or the output failed
~ --keys <FILE>
~ --macs <FILE>
~ dnssec_check-verify --from-check pending >> statements

$ dnssec_check explain --help
=> 0
~ Says what check says, and then why that stands
~ --anchors <FILE>
~ --json
~ Exit status: that of check
~ dnssec_check explain --capture

$ dnssec_check timeline --help
=> 0
~ Says what check says at each moment of a range
~ --from <N>
~ --to <N>
~ --kinds
~ Exit status: 0 where the timeline is whole, 7 where the question, the range or a file is refused,
~ dnssec_check timeline --capture

# The version: status 0, on the output, in a line; no subcommand has one.
$ dnssec_check --version
=> 0
dnssec_check 0.10.0

$ dnssec_check -V
=> 0
dnssec_check 0.10.0

$ dnssec_check list --version
=> 2
! error: unexpected argument '--version'
~ help

# Help that can't be written is a fault as a text's is.
full
$ dnssec_check --help
=> 1
! fault 812

full
$ dnssec_check check --help
=> 1
! fault 812

full
$ dnssec_check --version
=> 1
! fault 812";
