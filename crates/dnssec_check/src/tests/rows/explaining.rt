//! `explain`: the text of `check`, and why the verdict stands.

pub const ROWS: &str = "\
# A secure answer, and why it stands; the same as JSON.
c < KEYS HOST
a = KEY example. 256 3 13 AQID;
s = good 13 010203 00010d0200000e10000007d0000003e8080f076578616d706c650004686f7374076578616d706c65000001000100000e100004c0000201 aabb;good 13 010203 00300d0100000e10000007d0000003e8080f076578616d706c6500076578616d706c65000030000100000e1000070100030d010203 cc;
$ dnssec_check explain --capture c --anchors a --statements s --moment 1500 --name Host.example. --type 1
=> 0
SecureAnswer host.example. 1
rrset 2 signature 1
trusted example. rrset 1 signature 1 key 2063 13 anchor 1
signed host.example. 1 rrset 2 signature 1 key 2063 13 zone example. keys 1
holds from 1000 to 2000
rrset 1 message 1 section 1 example. 48
rrset 2 message 2 section 1 host.example. 1

c < KEYS HOST
a = KEY example. 256 3 13 AQID;
s = good 13 010203 00010d0200000e10000007d0000003e8080f076578616d706c650004686f7374076578616d706c65000001000100000e100004c0000201 aabb;good 13 010203 00300d0100000e10000007d0000003e8080f076578616d706c6500076578616d706c65000030000100000e1000070100030d010203 cc;
$ dnssec_check explain --capture c --anchors a --statements s --moment 1500 --name Host.example. --type 1 --json
=> 0
{\"command\":\"explain\",\"name\":\"host.example.\",\"type\":1,\"moment\":1500,\"verdict\":\"SecureAnswer\",\"status\":0,\"aliases\":[],\"rrset\":2,\"signature\":1,\"why\":[{\"line\":\"trusted\",\"zone\":\"example.\",\"rrset\":1,\"signature\":1,\"tag\":2063,\"algorithm\":13,\"anchor\":1},{\"line\":\"signed\",\"owner\":\"host.example.\",\"type\":1,\"rrset\":2,\"signature\":1,\"tag\":2063,\"algorithm\":13,\"signer\":\"example.\",\"keys\":1},{\"line\":\"holds\",\"from\":1000,\"to\":2000},{\"line\":\"rrset\",\"rrset\":1,\"message\":1,\"section\":1,\"owner\":\"example.\",\"type\":48},{\"line\":\"rrset\",\"rrset\":2,\"message\":2,\"section\":1,\"owner\":\"host.example.\",\"type\":1}]}

# What is still to check, what is hoped for, and why that would stand.
c < KEYS HOST
a = KEY example. 256 3 13 AQID;
$ dnssec_check explain --capture c --anchors a --moment 1500 --name host.example. --type 1
=> 4
Pending host.example. 1
todo 13 010203 00010d0200000e10000007d0000003e8080f076578616d706c650004686f7374076578616d706c65000001000100000e100004c0000201 aabb
todo 13 010203 00300d0100000e10000007d0000003e8080f076578616d706c6500076578616d706c65000030000100000e1000070100030d010203 cc
hope SecureAnswer
trusted example. rrset 1 signature 1 key 2063 13 anchor 1 todo 2
signed host.example. 1 rrset 2 signature 1 key 2063 13 zone example. keys 1 todo 1
rrset 1 message 1 section 1 example. 48
rrset 2 message 2 section 1 host.example. 1

c < KEYS HOST
a = KEY example. 256 3 13 AQID;
$ dnssec_check explain --capture c --anchors a --moment 1500 --name host.example. --type 1 --json
=> 4
{\"command\":\"explain\",\"name\":\"host.example.\",\"type\":1,\"moment\":1500,\"verdict\":\"Pending\",\"status\":4,\"aliases\":[],\"todo\":[{\"algorithm\":13,\"key\":\"010203\",\"data\":\"00010d0200000e10000007d0000003e8080f076578616d706c650004686f7374076578616d706c65000001000100000e100004c0000201\",\"signature\":\"aabb\"},{\"algorithm\":13,\"key\":\"010203\",\"data\":\"00300d0100000e10000007d0000003e8080f076578616d706c6500076578616d706c65000030000100000e1000070100030d010203\",\"signature\":\"cc\"}],\"why\":[{\"line\":\"hope\",\"kind\":\"SecureAnswer\"},{\"line\":\"trusted\",\"zone\":\"example.\",\"rrset\":1,\"signature\":1,\"tag\":2063,\"algorithm\":13,\"anchor\":1,\"todo\":2},{\"line\":\"signed\",\"owner\":\"host.example.\",\"type\":1,\"rrset\":2,\"signature\":1,\"tag\":2063,\"algorithm\":13,\"signer\":\"example.\",\"keys\":1,\"todo\":1},{\"line\":\"rrset\",\"rrset\":1,\"message\":1,\"section\":1,\"owner\":\"example.\",\"type\":48},{\"line\":\"rrset\",\"rrset\":2,\"message\":2,\"section\":1,\"owner\":\"host.example.\",\"type\":1}]}

# Where nothing answers, that, and how far trust holds.
c < KEYS
a = KEY example. 256 3 13 AQID;
s = good 13 010203 00300d0100000e10000007d0000003e8080f076578616d706c6500076578616d706c65000030000100000e1000070100030d010203 cc;
$ dnssec_check explain --capture c --anchors a --statements s --moment 1500 --name host.example. --type 1
=> 5
Bogus host.example. 1
reason 12 answer-missing host.example. 1 zone example.
trusted example. rrset 1 signature 1 key 2063 13 anchor 1
rrset 1 message 1 section 1 example. 48

# An anchor that matches no key: the signature of the answer is good, and that proves nothing.
c < KEYS HOST
a = KEY example. 256 3 13 AQIE;
s = good 13 010203 00010d0200000e10000007d0000003e8080f076578616d706c650004686f7374076578616d706c65000001000100000e100004c0000201 aabb;good 13 010203 00300d0100000e10000007d0000003e8080f076578616d706c6500076578616d706c65000030000100000e1000070100030d010203 cc;
$ dnssec_check explain --capture c --anchors a --statements s --moment 1500 --name host.example. --type 1
=> 5
Bogus host.example. 1
reason 9 key-missing example. anchor 1 wants 2319 13
follows untrusted host.example. 1 rrset 2 signature 1 key 2063 13 zone example.
key example. rrset 1 record 1 tag 2063 algorithm 13 flags 256 signature 1
rrset 1 message 1 section 1 example. 48
rrset 2 message 2 section 1 host.example. 1

c < KEYS HOST
a = KEY example. 256 3 13 AQIE;
s = good 13 010203 00010d0200000e10000007d0000003e8080f076578616d706c650004686f7374076578616d706c65000001000100000e100004c0000201 aabb;good 13 010203 00300d0100000e10000007d0000003e8080f076578616d706c6500076578616d706c65000030000100000e1000070100030d010203 cc;
$ dnssec_check explain --capture c --anchors a --statements s --moment 1500 --name host.example. --type 1 --json
=> 5
{\"command\":\"explain\",\"name\":\"host.example.\",\"type\":1,\"moment\":1500,\"verdict\":\"Bogus\",\"status\":5,\"aliases\":[],\"why\":[{\"line\":\"reason\",\"word\":\"key-missing\",\"ede\":9,\"zone\":\"example.\",\"anchor\":1,\"tag\":2319,\"algorithm\":13},{\"line\":\"follows\",\"word\":\"untrusted\",\"owner\":\"host.example.\",\"type\":1,\"rrset\":2,\"signature\":1,\"tag\":2063,\"algorithm\":13,\"signer\":\"example.\"},{\"line\":\"key\",\"zone\":\"example.\",\"rrset\":1,\"record\":1,\"tag\":2063,\"algorithm\":13,\"flags\":256,\"signature\":1},{\"line\":\"rrset\",\"rrset\":1,\"message\":1,\"section\":1,\"owner\":\"example.\",\"type\":48},{\"line\":\"rrset\",\"rrset\":2,\"message\":2,\"section\":1,\"owner\":\"host.example.\",\"type\":1}]}

# Signatures that are over, by how long, and the key that the anchor matches.
c < KEYS HOST
a = KEY example. 256 3 13 AQID;
$ dnssec_check explain --capture c --anchors a --moment 2500 --name host.example. --type 1
=> 5
Bogus host.example. 1
reason 7 expired example. 48 rrset 1 signature 1 key 2063 13 zone example. from 1000 to 2000 by 500
reason 7 expired host.example. 1 rrset 2 signature 1 key 2063 13 zone example. from 1000 to 2000 by 500
key example. rrset 1 record 1 tag 2063 algorithm 13 flags 256 anchor 1
rrset 1 message 1 section 1 example. 48
rrset 2 message 2 section 1 host.example. 1

c < KEYS HOST
a = KEY example. 256 3 13 AQID;
$ dnssec_check explain --capture c --anchors a --moment 2500 --name host.example. --type 1 --json
=> 5
{\"command\":\"explain\",\"name\":\"host.example.\",\"type\":1,\"moment\":2500,\"verdict\":\"Bogus\",\"status\":5,\"aliases\":[],\"why\":[{\"line\":\"reason\",\"word\":\"expired\",\"ede\":7,\"owner\":\"example.\",\"type\":48,\"rrset\":1,\"signature\":1,\"tag\":2063,\"algorithm\":13,\"signer\":\"example.\",\"inception\":1000,\"expiration\":2000,\"by\":500},{\"line\":\"reason\",\"word\":\"expired\",\"ede\":7,\"owner\":\"host.example.\",\"type\":1,\"rrset\":2,\"signature\":1,\"tag\":2063,\"algorithm\":13,\"signer\":\"example.\",\"inception\":1000,\"expiration\":2000,\"by\":500},{\"line\":\"key\",\"zone\":\"example.\",\"rrset\":1,\"record\":1,\"tag\":2063,\"algorithm\":13,\"flags\":256,\"anchor\":1},{\"line\":\"rrset\",\"rrset\":1,\"message\":1,\"section\":1,\"owner\":\"example.\",\"type\":48},{\"line\":\"rrset\",\"rrset\":2,\"message\":2,\"section\":1,\"owner\":\"host.example.\",\"type\":1}]}

# Without an anchor nothing more is said of zones, and what is good isn't told as a consequence.
c < KEYS HOST
a = KEY other. 256 3 13 AQID;
s = good 13 010203 00010d0200000e10000007d0000003e8080f076578616d706c650004686f7374076578616d706c65000001000100000e100004c0000201 aabb;good 13 010203 00300d0100000e10000007d0000003e8080f076578616d706c6500076578616d706c65000030000100000e1000070100030d010203 cc;
$ dnssec_check explain --capture c --anchors a --statements s --moment 1500 --name host.example. --type 1
=> 6
Indeterminate host.example. 1
reason 5 no-anchor host.example.

c < KEYS HOST
a = KEY other. 256 3 13 AQID;
s = good 13 010203 00010d0200000e10000007d0000003e8080f076578616d706c650004686f7374076578616d706c65000001000100000e100004c0000201 aabb;good 13 010203 00300d0100000e10000007d0000003e8080f076578616d706c6500076578616d706c65000030000100000e1000070100030d010203 cc;
$ dnssec_check explain --capture c --anchors a --statements s --moment 1500 --name host.example. --type 1 --json
=> 6
{\"command\":\"explain\",\"name\":\"host.example.\",\"type\":1,\"moment\":1500,\"verdict\":\"Indeterminate\",\"status\":6,\"aliases\":[],\"why\":[{\"line\":\"reason\",\"word\":\"no-anchor\",\"ede\":5,\"zone\":\"host.example.\"}]}

# The question is refused as `check` refuses it: by its name, by its type, and by an alias that leads back.
c < KEYS HOST
a = KEY example. 256 3 13 AQID;
$ dnssec_check explain --capture c --anchors a --moment 1500 --name host --type 1
=> 7
! refused 105

c < KEYS HOST
a = KEY example. 256 3 13 AQID;
$ dnssec_check explain --capture c --anchors a --moment 1500 --name . --type 43 --json
=> 7
! refused 701

c < KEYS 005a0003840000010002000000000143076578616d706c650000010001c00c0005000100000e10000b0163074578616d706c6500c00c002e000100000e10001c00050d0200000e10000007d0000003e8080f076578616d706c6500dd
a = KEY example. 256 3 13 AQID;
s = good 13 010203 00050d0200000e10000007d0000003e8080f076578616d706c65000163076578616d706c65000005000100000e10000b0163076578616d706c6500 dd;good 13 010203 00300d0100000e10000007d0000003e8080f076578616d706c6500076578616d706c65000030000100000e1000070100030d010203 cc;
$ dnssec_check explain --capture c --anchors a --statements s --moment 1500 --name c.example. --type 1
=> 7
! refused 702

# So are messages that none of the keys has signed.
c < KEYS HOST
a = KEY example. 256 3 13 AQID;
k = k. AQID;
$ dnssec_check explain --capture c --anchors a --keys k --moment 1500 --name host.example. --type 1
=> 7
! refused 310 message 1

# A read that fails, a file that doesn't open, and an output that takes nothing.
c < KEYS HOST
a < 23 !
$ dnssec_check explain --capture c --anchors a --moment 1500 --name host.example. --type 1
=> 1
! fault 210 anchors

c < KEYS HOST
$ dnssec_check explain --capture c --anchors a --moment 1500 --name host.example. --type 1
=> 1
! fault 811 anchors

full
c < KEYS HOST
a = KEY example. 256 3 13 AQID;
s = good 13 010203 00010d0200000e10000007d0000003e8080f076578616d706c650004686f7374076578616d706c65000001000100000e100004c0000201 aabb;good 13 010203 00300d0100000e10000007d0000003e8080f076578616d706c6500076578616d706c65000030000100000e1000070100030d010203 cc;
$ dnssec_check explain --capture c --anchors a --statements s --moment 1500 --name Host.example. --type 1
=> 1
! fault 812";
