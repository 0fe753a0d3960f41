//! `check --keys`: messages that are signed with a shared key.

/// Two signed messages, their keys and the MACs of their requests. The statements are at fault.
pub const SHARED: &str = "\
c < SIGNED_KEYS SIGNED_HOST
a = KEY example. 256 3 13 AQID;
s = x
k = K. AQID;
m = 1111111111111111111111111111111111111111111111111111111111111111;-;
$ dnssec_check check --capture c --anchors a --statements s --keys k --macs m --moment 1500 --name host.example. --type 1";

pub const ROWS: &str = "\
# Each message is opened for its request; without keys the MACs are neither opened nor read.
s = good 13 010203 00010d0200000e10000007d0000003e8080f076578616d706c650004686f7374076578616d706c65000001000100000e100004c0000201 aabb;good 13 010203 00300d0100000e10000007d0000003e8080f076578616d706c6500076578616d706c65000030000100000e1000070100030d010203 cc;
=> 0
SecureAnswer host.example. 1
rrset 2 signature 1

c < KEYS HOST
s = good 13 010203 00010d0200000e10000007d0000003e8080f076578616d706c650004686f7374076578616d706c65000001000100000e100004c0000201 aabb;good 13 010203 00300d0100000e10000007d0000003e8080f076578616d706c6500076578616d706c65000030000100000e1000070100030d010203 cc;
$ dnssec_check check --capture c --anchors a --statements s --macs z --moment 1500 --name host.example. --type 1
=> 0
SecureAnswer host.example. 1
rrset 2 signature 1

# The moment lies within the fudge of the signing, or not.
s = good 13 010203 00010d0200000e10000007d0000003e8080f076578616d706c650004686f7374076578616d706c65000001000100000e100004c0000201 aabb;good 13 010203 00300d0100000e10000007d0000003e8080f076578616d706c6500076578616d706c65000030000100000e1000070100030d010203 cc;
$ dnssec_check check --capture c --anchors a --statements s --keys k --macs m --moment 1200 --name host.example. --type 1
=> 0
SecureAnswer host.example. 1
rrset 2 signature 1

s = good 13 010203 00010d0200000e10000007d0000003e8080f076578616d706c650004686f7374076578616d706c65000001000100000e100004c0000201 aabb;good 13 010203 00300d0100000e10000007d0000003e8080f076578616d706c6500076578616d706c65000030000100000e1000070100030d010203 cc;
$ dnssec_check check --capture c --anchors a --statements s --keys k --macs m --moment 1800 --name host.example. --type 1
=> 0
SecureAnswer host.example. 1
rrset 2 signature 1

$ dnssec_check check --capture c --anchors a --statements s --keys k --macs m --moment 1199 --name host.example. --type 1
=> 7
! refused 314 message 1

$ dnssec_check check --capture c --anchors a --statements s --keys k --macs m --moment 1801 --name host.example. --type 1
=> 7
! refused 314 message 1

# The first fault in the order of the work.
c < KEYS HOST
$ dnssec_check check --capture c --anchors a --statements s --keys k --moment 1500 --name host.example. --type 1
=> 7
! refused 310 message 1

c < 00
a = x
k = x
m = x
$ dnssec_check check --capture c --anchors a --statements s --keys k --macs m --moment 1500 --name a --type 1
=> 7
! refused 105

c < 00
a = x
k = x
m = x
=> 7
! refused 301 line 1

c < 00
a = x
m = x
=> 7
! refused 801 line 1

c < 00
a = x
m = -;
=> 7
! refused 209

c < 000100 KEYS
a = x
m = -;
=> 7
! refused 802

c < 000100 KEYS
a = x
$ dnssec_check check --capture c --anchors a --statements s --keys k --moment 1500 --name host.example. --type 1
=> 7
! refused 201 message 1

a = x
=> 7
! refused 601 line 1

# Nothing comes before the fault of the statements.
=> 7
! refused 501 line 1

# A message that was changed, no MACs, another key's name, another key, a key twice, a MAC too many.
c < SIGNED_KEYS 00b100028400000100030000000104486f7374074578616d706c650000010001c00c00010001000000050004c0000201c00c00010101000000050004c0000201c00c002e000100000005001d00010d0200000e10000007d0000003e8080f074578616d706c6500aabb014b0000fa00ff00000000003d0b686d61632d736861323536000000000005dc012c00204338420759f9c5e9f19bdb29a427a9e48bad3d2baac83972992e7e2510cd8cb1000200000000
=> 7
! refused 313 message 2

$ dnssec_check check --capture c --anchors a --statements s --keys k --moment 1500 --name host.example. --type 1
=> 7
! refused 313 message 1

k = L. AQID;
=> 7
! refused 312 message 1

k = K. AQIE;
=> 7
! refused 313 message 1

k = K. AQID;k. AQID;
=> 7
! refused 302 line 2

m = -;-;-;
=> 7
! refused 802";
