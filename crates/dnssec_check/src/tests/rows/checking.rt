//! `check`, without keys.

pub const ROWS: &str = "\
# A secure answer.
c < KEYS HOST
a = KEY example. 256 3 13 AQID;
s = good 13 010203 00010d0200000e10000007d0000003e8080f076578616d706c650004686f7374076578616d706c65000001000100000e100004c0000201 aabb;good 13 010203 00300d0100000e10000007d0000003e8080f076578616d706c6500076578616d706c65000030000100000e1000070100030d010203 cc;
$ dnssec_check check --capture c --anchors a --statements s --moment 1500 --name Host.example. --type 1
=> 0
SecureAnswer host.example. 1
rrset 2 signature 1

# What is still to check.
c < KEYS HOST
a = KEY example. 256 3 13 AQID;
$ dnssec_check check --capture c --anchors a --moment 1500 --name host.example. --type 1
=> 4
Pending host.example. 1
todo 13 010203 00010d0200000e10000007d0000003e8080f076578616d706c650004686f7374076578616d706c65000001000100000e100004c0000201 aabb
todo 13 010203 00300d0100000e10000007d0000003e8080f076578616d706c6500076578616d706c65000030000100000e1000070100030d010203 cc

# The same as JSON.
c < KEYS HOST
a = KEY example. 256 3 13 AQID;
$ dnssec_check check --capture c --anchors a --moment 1500 --name host.example. --type 1 --json
=> 4
{\"command\":\"check\",\"name\":\"host.example.\",\"type\":1,\"moment\":1500,\"verdict\":\"Pending\",\"status\":4,\"aliases\":[],\"todo\":[{\"algorithm\":13,\"key\":\"010203\",\"data\":\"00010d0200000e10000007d0000003e8080f076578616d706c650004686f7374076578616d706c65000001000100000e100004c0000201\",\"signature\":\"aabb\"},{\"algorithm\":13,\"key\":\"010203\",\"data\":\"00300d0100000e10000007d0000003e8080f076578616d706c6500076578616d706c65000030000100000e1000070100030d010203\",\"signature\":\"cc\"}]}

# In a name a quotation mark and a backslash are behind a backslash (RFC 8259 7); all else stands as in the text.
c = 
a = 
$ dnssec_check check --capture c --anchors a --moment 7 --json --name A\\.\"b\\\\\\032. --type 65535
=> 6
{\"command\":\"check\",\"name\":\"a\\\\.\\\"b\\\\\\\\\\\\032.\",\"type\":65535,\"moment\":7,\"verdict\":\"Indeterminate\",\"status\":6,\"aliases\":[]}

# A bad signature.
c < KEYS HOST
a = KEY example. 256 3 13 AQID;
s = bad 13 010203 00010d0200000e10000007d0000003e8080f076578616d706c650004686f7374076578616d706c65000001000100000e100004c0000201 aabb
$ dnssec_check check --capture c --anchors a --statements s --moment 1500 --name host.example. --type 1
=> 5
Bogus host.example. 1

# No messages, with an anchor and without.
c = 
a = KEY . 256 3 13 AQID
$ dnssec_check check --capture c --anchors a --moment 1500 --name a.example. --type 1
=> 5
Bogus a.example. 1

c = 
a = 
$ dnssec_check check --capture c --anchors a --moment 1500 --name a.example. --type 1
=> 6
Indeterminate a.example. 1

# A secure alias leads on to its target, where the verdict is. It is told before what carries the verdict.
c < KEYS 005d0003840000010002000000000143076578616d706c650000010001c00c0005000100000e10000e04486f7374076578616d706c6500c00c002e000100000e10001c00050d0200000e10000007d0000003e8080f076578616d706c6500dd HOST
a = KEY example. 256 3 13 AQID;
s = good 13 010203 00050d0200000e10000007d0000003e8080f076578616d706c65000163076578616d706c65000005000100000e10000e04686f7374076578616d706c6500 dd;good 13 010203 00010d0200000e10000007d0000003e8080f076578616d706c650004686f7374076578616d706c65000001000100000e100004c0000201 aabb;good 13 010203 00300d0100000e10000007d0000003e8080f076578616d706c6500076578616d706c65000030000100000e1000070100030d010203 cc;
$ dnssec_check check --capture c --anchors a --statements s --moment 1500 --name C.example. --type 1
=> 0
SecureAnswer c.example. 1
alias c.example. rrset 2 signature 1
rrset 3 signature 1

c < KEYS 005d0003840000010002000000000143076578616d706c650000010001c00c0005000100000e10000e04486f7374076578616d706c6500c00c002e000100000e10001c00050d0200000e10000007d0000003e8080f076578616d706c6500dd HOST
a = KEY example. 256 3 13 AQID;
s = good 13 010203 00050d0200000e10000007d0000003e8080f076578616d706c65000163076578616d706c65000005000100000e10000e04686f7374076578616d706c6500 dd;good 13 010203 00300d0100000e10000007d0000003e8080f076578616d706c6500076578616d706c65000030000100000e1000070100030d010203 cc;
$ dnssec_check check --capture c --anchors a --statements s --moment 1500 --name c.example. --type 1
=> 4
Pending c.example. 1
alias c.example. rrset 2 signature 1
todo 13 010203 00010d0200000e10000007d0000003e8080f076578616d706c650004686f7374076578616d706c65000001000100000e100004c0000201 aabb

c < KEYS 005d0003840000010002000000000143076578616d706c650000010001c00c0005000100000e10000e04486f7374076578616d706c6500c00c002e000100000e10001c00050d0200000e10000007d0000003e8080f076578616d706c6500dd HOST
a = KEY example. 256 3 13 AQID;
s = good 13 010203 00050d0200000e10000007d0000003e8080f076578616d706c65000163076578616d706c65000005000100000e10000e04686f7374076578616d706c6500 dd;good 13 010203 00300d0100000e10000007d0000003e8080f076578616d706c6500076578616d706c65000030000100000e1000070100030d010203 cc;
$ dnssec_check check --capture c --anchors a --statements s --moment 1500 --name c.example. --type 5
=> 0
SecureAnswer c.example. 5
rrset 2 signature 1

# An alias that leads back is refused without a place, and only where all files are in order.
c < KEYS 005a0003840000010002000000000143076578616d706c650000010001c00c0005000100000e10000b0163074578616d706c6500c00c002e000100000e10001c00050d0200000e10000007d0000003e8080f076578616d706c6500dd
a = KEY example. 256 3 13 AQID;
s = good 13 010203 00050d0200000e10000007d0000003e8080f076578616d706c65000163076578616d706c65000005000100000e10000b0163076578616d706c6500 dd;good 13 010203 00300d0100000e10000007d0000003e8080f076578616d706c6500076578616d706c65000030000100000e1000070100030d010203 cc;
$ dnssec_check check --capture c --anchors a --statements s --moment 1500 --name c.example. --type 1
=> 7
! refused 702

c < KEYS 005a0003840000010002000000000143076578616d706c650000010001c00c0005000100000e10000b0163074578616d706c6500c00c002e000100000e10001c00050d0200000e10000007d0000003e8080f076578616d706c6500dd
a = KEY example. 256 3 13 AQID;
s = good 13 010203 00050d0200000e10000007d0000003e8080f076578616d706c65000163076578616d706c65000005000100000e10000b0163076578616d706c6500 dd;good 13 010203 00300d0100000e10000007d0000003e8080f076578616d706c6500076578616d706c65000030000100000e1000070100030d010203 cc;x
$ dnssec_check check --capture c --anchors a --statements s --moment 1500 --name c.example. --type 1
=> 7
! refused 501 line 3

# The first fault in the order of the work: the question, the capture, the anchors, the statements.
c < KEYS 006700028400000100030000000004486f7374074578616d706c650000010001c00c00010001000000050004c0000201c00c00010001000000050004c0000201c00c002e000100000005001d00010d0200000e10000007d0000003e8080f074578616d706c6500aa
a = x
s = x
$ dnssec_check check --capture c --anchors a --statements s --moment 1500 --name a --type 255
=> 7
! refused 105

c < KEYS 006700028400000100030000000004486f7374074578616d706c650000010001c00c00010001000000050004c0000201c00c00010001000000050004c0000201c00c002e000100000005001d00010d0200000e10000007d0000003e8080f074578616d706c6500aa
a = x
s = x
$ dnssec_check check --capture c --anchors a --statements s --moment 1500 --name example. --type 255
=> 7
! refused 701

c < KEYS 006700028400000100030000000004486f7374074578616d706c650000010001c00c00010001000000050004c0000201c00c00010001000000050004c0000201c00c002e000100000005001d00010d0200000e10000007d0000003e8080f074578616d706c6500aa
a = x
s = x
$ dnssec_check check --capture c --anchors a --statements s --moment 1500 --name . --type 43
=> 7
! refused 701

c < KEYS 006700028400000100030000000004486f7374074578616d706c650000010001c00c00010001000000050004c0000201c00c00010001000000050004c0000201c00c002e000100000005001d00010d0200000e10000007d0000003e8080f074578616d706c6500aa
a = x
s = x
$ dnssec_check check --capture c --anchors a --statements s --moment 1500 --name example. --type 1
=> 7
! refused 209

c < KEYS HOST
a = x
s = x
$ dnssec_check check --capture c --anchors a --statements s --moment 1500 --name example. --type 1
=> 7
! refused 601 line 1

c < KEYS HOST
a = KEY example. 256 3 13 AQID;
s = x
$ dnssec_check check --capture c --anchors a --statements s --moment 1500 --name example. --type 1
=> 7
! refused 501 line 1

# Reads that fail, and files that don't open.
c < KEYS HOST
a < 23 !
$ dnssec_check check --capture c --anchors a --moment 1500 --name a. --type 1
=> 1
! fault 210 anchors

c < KEYS HOST
a = 
s < 23 !
$ dnssec_check check --capture c --anchors a --statements s --moment 1500 --name a. --type 1
=> 1
! fault 210 statements

c < KEYS HOST
$ dnssec_check check --capture c --anchors a --moment 1500 --name a. --type 1
=> 1
! fault 811 anchors";
