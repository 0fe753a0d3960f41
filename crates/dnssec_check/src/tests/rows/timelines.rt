//! The verdict at each moment of a range, and what a verifier still has to check for one. The signatures of both RRsets are
//! valid from 1000 to 2000; the intervals, the words and the lines between them follow from that by the definitions.

/// A chain of trust, and answers to the compact list of a range.
pub const SHARED: &str = "\
c < KEYS HOST
a = KEY example. 256 3 13 AQID;
f = of 6c4b4d1c83e750b18efe86c3edb737e5960d372065637ffac59584f981f218d0 500 2500;good;good;";

pub const ROWS: &str = "\
# Not yet, proved, and over. In front of an interval stands what ends, and then what begins.
$ dnssec_check timeline --capture c --anchors a --answers f --from 500 --to 2500 --name Host.Example. --type 1
=> 0
timeline host.example. 1
500 999 Bogus
begins 1000 example. 48 rrset 1 signature 1 key 2063 13 zone example. from 1000 to 2000
begins 1000 host.example. 1 rrset 2 signature 1 key 2063 13 zone example. from 1000 to 2000
1000 2000 SecureAnswer rrset 2 signature 1
ends 2000 example. 48 rrset 1 signature 1 key 2063 13 zone example. from 1000 to 2000
ends 2000 host.example. 1 rrset 2 signature 1 key 2063 13 zone example. from 1000 to 2000
2001 2500 Bogus

$ dnssec_check timeline --capture c --anchors a --answers f --from 500 --to 2500 --name host.example. --type 1 --kinds --json
=> 0
{\"command\":\"timeline\",\"name\":\"host.example.\",\"type\":1,\"from\":500,\"to\":2500,\"intervals\":[{\"from\":500,\"to\":999,\"verdict\":\"Bogus\",\"status\":5},{\"from\":1000,\"to\":2000,\"verdict\":\"SecureAnswer\",\"status\":0},{\"from\":2001,\"to\":2500,\"verdict\":\"Bogus\",\"status\":5}],\"edges\":[{\"edge\":\"begins\",\"moment\":1000,\"owner\":\"example.\",\"type\":48,\"rrset\":1,\"signature\":1,\"tag\":2063,\"algorithm\":13,\"signer\":\"example.\",\"inception\":1000,\"expiration\":2000},{\"edge\":\"begins\",\"moment\":1000,\"owner\":\"host.example.\",\"type\":1,\"rrset\":2,\"signature\":1,\"tag\":2063,\"algorithm\":13,\"signer\":\"example.\",\"inception\":1000,\"expiration\":2000},{\"edge\":\"ends\",\"moment\":2000,\"owner\":\"example.\",\"type\":48,\"rrset\":1,\"signature\":1,\"tag\":2063,\"algorithm\":13,\"signer\":\"example.\",\"inception\":1000,\"expiration\":2000},{\"edge\":\"ends\",\"moment\":2000,\"owner\":\"host.example.\",\"type\":1,\"rrset\":2,\"signature\":1,\"tag\":2063,\"algorithm\":13,\"signer\":\"example.\",\"inception\":1000,\"expiration\":2000}]}

# Pending has no list of what is still to be checked.
$ dnssec_check timeline --capture c --anchors a --from 1999 --to 2000 --name host.example. --type 1 --kinds
=> 0
timeline host.example. 1
1999 2000 Pending

# All answers repeat each 2^32 seconds.
$ dnssec_check timeline --capture c --anchors a --from 4294968000 --to 4294969000 --name host.example. --type 1 --kinds
=> 0
~ 4294968000 4294968295 Bogus
~ 4294968296 4294969000 Pending

# A range of one moment is no moment: its answers are those to its own list.
f = of 6c4b4d1c83e750b18efe86c3edb737e5960d372065637ffac59584f981f218d0 1500 1500;good;good;
$ dnssec_check timeline --capture c --anchors a --answers f --from 1500 --to 1500 --name host.example. --type 1
=> 0
timeline host.example. 1
1500 1500 SecureAnswer rrset 2 signature 1

f = of 6c4b4d1c83e750b18efe86c3edb737e5960d372065637ffac59584f981f218d0 1500;good;good;
$ dnssec_check timeline --capture c --anchors a --answers f --from 1500 --to 1500 --name host.example. --type 1
=> 7
! refused 806 line 1

$ dnssec_check timeline --capture c --anchors a --answers f --from 500 --to 2499 --name host.example. --type 1
=> 7
! refused 806 line 1

f = of 6c4b4d1c83e750b18efe86c3edb737e5960d372065637ffac59584f981f218d0 500 2500;good;
$ dnssec_check timeline --capture c --anchors a --answers f --from 500 --to 2500 --name host.example. --type 1
=> 7
! refused 807

# A bad range is told behind the question, and before what any file holds.
c < 00
a = nothing
$ dnssec_check timeline --capture c --anchors a --from 2 --to 1 --name host.example. --type 1
=> 7
! refused 821

$ dnssec_check timeline --capture c --anchors a --from 1 --to 4294967297 --name host.example. --type 1
=> 7
! refused 821

$ dnssec_check timeline --capture c --anchors a --from 2 --to 1 --name host.example --type 1
=> 7
! refused 105

$ dnssec_check timeline --capture c --anchors a --from 2 --to 1 --name . --type 43
=> 7
! refused 701

$ dnssec_check timeline --capture none --anchors a --from 2 --to 1 --name host.example. --type 1
=> 1
! fault 811 capture

# A fault of a file is no word of an interval.
a = nothing
$ dnssec_check timeline --capture c --anchors a --from 500 --to 2500 --name host.example. --type 1
=> 7
! refused 601 line 1

# What may be checked at some moment of a range is listed.
$ dnssec_check list --capture c --from 0 --to 1000
=> 0
todo 13 010203 00010d0200000e10000007d0000003e8080f076578616d706c650004686f7374076578616d706c65000001000100000e100004c0000201 aabb
todo 13 010203 00300d0100000e10000007d0000003e8080f076578616d706c6500076578616d706c65000030000100000e1000070100030d010203 cc

$ dnssec_check list --capture c --from 2001 --to 3000 --json
=> 0
{\"command\":\"list\",\"from\":2001,\"to\":3000,\"todo\":[]}

$ dnssec_check list --capture c --from 2000 --to 2000 --compact
=> 0
key 1 13 010203
rrset 1 076578616d706c6500 48 0100030d010203
signature 1 1 00300d0100000e10000007d0000003e8080f076578616d706c6500 cc
rrset 2 04686f7374076578616d706c6500 1 c0000201
signature 2 1 00010d0200000e10000007d0000003e8080f076578616d706c6500 aabb
todo 1 1 2 1
todo 2 1 1 1

c < 00
$ dnssec_check list --capture c --from 2 --to 1
=> 7
! refused 821

full
$ dnssec_check timeline --capture c --anchors a --answers f --from 500 --to 2500 --name host.example. --type 1
=> 1
! fault 812";
