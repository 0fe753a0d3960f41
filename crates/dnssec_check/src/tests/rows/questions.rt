//! Many questions at once.

/// A chain of trust, and what a verifier says of it.
pub const SHARED: &str = "\
c < KEYS HOST
a = KEY example. 256 3 13 AQID;
s = good 13 010203 00010d0200000e10000007d0000003e8080f076578616d706c650004686f7374076578616d706c65000001000100000e100004c0000201 aabb;good 13 010203 00300d0100000e10000007d0000003e8080f076578616d706c6500076578616d706c65000030000100000e1000070100030d010203 cc;";

pub const ROWS: &str = "\
# Each question has the text that it has alone, in the file's order; one that is refused by itself is told so, and the
# status is the greatest.
q = # asked;Host.example. 1;;. 43;none.example. 1;host.example. 1;
$ dnssec_check check --capture c --anchors a --statements s --moment 1500 --questions q
=> 7
SecureAnswer host.example. 1
rrset 2 signature 1
refused 701 . 43
Bogus none.example. 1
SecureAnswer host.example. 1
rrset 2 signature 1

q = none.example. 1;host.example. 1
$ dnssec_check check --capture c --anchors a --statements s --moment 1500 --questions q
=> 5
Bogus none.example. 1
SecureAnswer host.example. 1
rrset 2 signature 1

# As JSON, an object on each line.
q = . 43;host.example. 1
$ dnssec_check check --capture c --anchors a --statements s --moment 1500 --questions q --json
=> 7
{\"command\":\"check\",\"name\":\".\",\"type\":43,\"moment\":1500,\"refused\":701,\"status\":7}
{\"command\":\"check\",\"name\":\"host.example.\",\"type\":1,\"moment\":1500,\"verdict\":\"SecureAnswer\",\"status\":0,\"aliases\":[],\"rrset\":2,\"signature\":1}

q = . 43
$ dnssec_check explain --capture c --anchors a --statements s --moment 1500 --questions q --json
=> 7
{\"command\":\"explain\",\"name\":\".\",\"type\":43,\"moment\":1500,\"refused\":701,\"status\":7}

# Why a verdict stands, of each.
q = host.example. 1;host.example. 0;host.example. 1
$ dnssec_check explain --capture c --anchors a --statements s --moment 1500 --questions q
=> 7
SecureAnswer host.example. 1
rrset 2 signature 1
trusted example. rrset 1 signature 1 key 2063 13 anchor 1
signed host.example. 1 rrset 2 signature 1 key 2063 13 zone example. keys 1
holds from 1000 to 2000
rrset 1 message 1 section 1 example. 48
rrset 2 message 2 section 1 host.example. 1
refused 701 host.example. 0
SecureAnswer host.example. 1
rrset 2 signature 1
trusted example. rrset 1 signature 1 key 2063 13 anchor 1
signed host.example. 1 rrset 2 signature 1 key 2063 13 zone example. keys 1
holds from 1000 to 2000
rrset 1 message 1 section 1 example. 48
rrset 2 message 2 section 1 host.example. 1

# Nothing is asked.
q = 
$ dnssec_check check --capture c --anchors a --statements s --moment 1500 --questions q --json
=> 0

q = # nothing;;
$ dnssec_check explain --capture c --anchors a --statements s --moment 1500 --questions q
=> 0

# A line that is no question is told by its number, before any other file is read.
q = # a word for the type;host.example. A
a = nothing
$ dnssec_check check --capture c --anchors a --statements s --moment 1500 --questions q
=> 7
! refused 803 line 2

q = host.example. 1;host.example. 01
$ dnssec_check check --capture c --anchors a --statements s --moment 1500 --questions q
=> 7
! refused 803 line 2

q = host.example 1
$ dnssec_check check --capture c --anchors a --statements s --moment 1500 --questions q
=> 7
! refused 803 line 1

q = host.example. 65536
$ dnssec_check check --capture c --anchors a --statements s --moment 1500 --questions q
=> 7
! refused 803 line 1

# Where questions are in order the other files are refused as ever, and nothing is told of a question.
q = host.example. 1
a = nothing
$ dnssec_check check --capture c --anchors a --statements s --moment 1500 --questions q
=> 7
! refused 601 line 1

# Questions are opened last, and read first.
$ dnssec_check check --capture c --anchors a --statements s --moment 1500 --questions q
=> 1
! fault 811 questions

$ dnssec_check check --capture c --anchors a --statements s --moment 1500 --keys k --questions q
=> 1
! fault 811 keys

q < 61 !
a = nothing
$ dnssec_check check --capture c --anchors a --statements s --moment 1500 --questions q
=> 1
! fault 210 questions

# A text that can't be written.
full
q = host.example. 1
$ dnssec_check check --capture c --anchors a --statements s --moment 1500 --questions q
=> 1
! fault 812

# One question, or a file of them, and nothing in between.
$ dnssec_check check --capture c --anchors a --statements s --moment 1500 --name host.example. --type 1 --questions q
=> 2
! error: a question is --name and --type, and many are --questions

$ dnssec_check check --capture c --anchors a --statements s --moment 1500 --name host.example. --questions q
=> 2
! error: a question is --name and --type, and many are --questions

$ dnssec_check explain --capture c --anchors a --statements s --moment 1500 --type 1 --questions q
=> 2
! error: a question is --name and --type, and many are --questions

$ dnssec_check explain --capture c --anchors a --statements s --moment 1500 --name host.example.
=> 2
! error: a question is --name and --type, and many are --questions

$ dnssec_check check --capture c --anchors a --statements s --moment 1500 --type 1
=> 2
! error: a question is --name and --type, and many are --questions

$ dnssec_check check --capture c --anchors a --statements s --moment 1500
=> 2
! error: a question is --name and --type, and many are --questions

$ dnssec_check check --capture c --anchors a --statements s --moment 1500 --questions q --questions q
=> 2
! 
~ help";
