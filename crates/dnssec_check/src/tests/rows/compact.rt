//! `list --compact`: each octet of keys, records and signatures once. The outputs are put together by hand from the
//! captures' records, whose signed data stands in the rows of `list`.

pub const ROWS: &str = "\
# The key, both RRsets with their signatures, and the entries in the order of the list.
c < KEYS HOST
$ dnssec_check list --capture c --moment 1500 --compact
=> 0
key 1 13 010203
rrset 1 076578616d706c6500 48 0100030d010203
signature 1 1 00300d0100000e10000007d0000003e8080f076578616d706c6500 cc
rrset 2 04686f7374076578616d706c6500 1 c0000201
signature 2 1 00010d0200000e10000007d0000003e8080f076578616d706c6500 aabb
todo 1 1 2 1
todo 2 1 1 1

c < KEYS HOST
$ dnssec_check list --capture c --moment 1500 --compact --json
=> 0
{\"command\":\"list\",\"moment\":1500,\"keys\":[{\"algorithm\":13,\"key\":\"010203\"}],\"rrsets\":[{\"rrset\":1,\"owner\":\"076578616d706c6500\",\"type\":48,\"rdata\":[\"0100030d010203\"],\"signatures\":[{\"signature\":1,\"front\":\"00300d0100000e10000007d0000003e8080f076578616d706c6500\",\"octets\":\"cc\"}]},{\"rrset\":2,\"owner\":\"04686f7374076578616d706c6500\",\"type\":1,\"rdata\":[\"c0000201\"],\"signatures\":[{\"signature\":1,\"front\":\"00010d0200000e10000007d0000003e8080f076578616d706c6500\",\"octets\":\"aabb\"}]}],\"todo\":[{\"key\":1,\"rrset\":2,\"signature\":1},{\"key\":1,\"rrset\":1,\"signature\":1}]}

# What comes twice is named by its lowest RRset.
c < KEYS HOST KEYS HOST
$ dnssec_check list --capture c --moment 1500 --compact
=> 0
key 1 13 010203
rrset 1 076578616d706c6500 48 0100030d010203
signature 1 1 00300d0100000e10000007d0000003e8080f076578616d706c6500 cc
rrset 2 04686f7374076578616d706c6500 1 c0000201
signature 2 1 00010d0200000e10000007d0000003e8080f076578616d706c6500 aabb
todo 1 1 2 1
todo 2 1 1 1

# What the statements say is left out, and entries are numbered from 1.
c < KEYS HOST
s = good 13 010203 00010d0200000e10000007d0000003e8080f076578616d706c650004686f7374076578616d706c65000001000100000e100004c0000201 aabb
$ dnssec_check list --capture c --moment 1500 --statements s --compact
=> 0
key 1 13 010203
rrset 1 076578616d706c6500 48 0100030d010203
signature 1 1 00300d0100000e10000007d0000003e8080f076578616d706c6500 cc
todo 1 1 1 1

# Nothing holds at the moment; nothing is captured.
c < KEYS HOST
$ dnssec_check list --capture c --moment 2001 --compact
=> 0

c = 
$ dnssec_check list --json --capture c --moment 0 --compact
=> 0
{\"command\":\"list\",\"moment\":0,\"keys\":[],\"rrsets\":[],\"todo\":[]}

# Faults of the files are those of `list`.
c < KEYS HOST
s = good 13 01 02
$ dnssec_check list --capture c --moment 1500 --statements s --compact
=> 7
! refused 501 line 1

c < KEYS HOST
s < 23 !
$ dnssec_check list --capture c --moment 1500 --statements s --compact
=> 1
! fault 210 statements

# Two lists are asked for.
c < KEYS HOST
$ dnssec_check list --capture c --moment 1500 --all --compact
=> 2
! error: a list is --all or --compact

c < KEYS HOST
$ dnssec_check list --compact --json --capture d --all --moment 1500 --statements s
=> 2
! error: a list is --all or --compact

# An output that takes nothing.
full
c < KEYS HOST
$ dnssec_check list --capture c --moment 1500 --compact
=> 1
! fault 812";
