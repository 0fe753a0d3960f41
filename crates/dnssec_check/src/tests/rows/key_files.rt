//! The files of `--keys` and `--macs`, besides those that the rows of `signed` share.

pub const ROWS: &str = "\
# Lines of the MACs that are neither 64 hex digits nor `-`, and comments and empty lines, which are passed over.
m = -;# ;00102030405060708090a0B0c0D0e0F101112131415161718191A1b1C1d1E1f;00102030405060708090a0B0c0D0e0F101112131415161718191A1b1C1d1E1f;
=> 7
! refused 801 line 3

m = -;# ;000102030405060708090a0B0c0D0e0F101112131415161718191A1b1C1d1E1f00;000102030405060708090a0B0c0D0e0F101112131415161718191A1b1C1d1E1f00;
=> 7
! refused 801 line 3

m = -;# ;000102030405060708090a0B0c0D0e0F101112131415161718191A1b1C1d1E1f ;000102030405060708090a0B0c0D0e0F101112131415161718191A1b1C1d1E1f ;
=> 7
! refused 801 line 3

m = -;# ;g00102030405060708090a0B0c0D0e0F101112131415161718191A1b1C1d1E1f;g00102030405060708090a0B0c0D0e0F101112131415161718191A1b1C1d1E1f;
=> 7
! refused 801 line 3

m = -;# ;--;--;
=> 7
! refused 801 line 3

m = -;# ; -; -;
=> 7
! refused 801 line 3

m = -;# ;00;00;
=> 7
! refused 801 line 3

m < 2d0a23200a2d0d0a2d0d0a
=> 7
! refused 801 line 3

s = good 13 010203 00010d0200000e10000007d0000003e8080f076578616d706c650004686f7374076578616d706c65000001000100000e100004c0000201 aabb;good 13 010203 00300d0100000e10000007d0000003e8080f076578616d706c6500076578616d706c65000030000100000e1000070100030d010203 cc;
m = # what was asked;1111111111111111111111111111111111111111111111111111111111111111;;-
=> 0
SecureAnswer host.example. 1
rrset 2 signature 1

# Lines of the keys that are refused; the keys are found in any case, behind comments.
k = x
=> 7
! refused 301 line 1

k = k. AQID;k AQID;
=> 7
! refused 301 line 2

k = k. AQID;;K. BA==;x;
=> 7
! refused 302 line 3

k = k. AQI;
=> 7
! refused 301 line 1

s = good 13 010203 00010d0200000e10000007d0000003e8080f076578616d706c650004686f7374076578616d706c65000001000100000e100004c0000201 aabb;good 13 010203 00300d0100000e10000007d0000003e8080f076578616d706c6500076578616d706c65000030000100000e1000070100030d010203 cc;
k = # shared;other.k. BA==;;k. AQID
=> 0
SecureAnswer host.example. 1
rrset 2 signature 1

# Files of more octets than one read gives: the key stands behind 40,000 lines that are passed over; 2,200 MACs.
s = good 13 010203 00010d0200000e10000007d0000003e8080f076578616d706c650004686f7374076578616d706c65000001000100000e100004c0000201 aabb;good 13 010203 00300d0100000e10000007d0000003e8080f076578616d706c6500076578616d706c65000030000100000e1000070100030d010203 cc;
k < 230a^40000 4b2e2041514944
=> 0
SecureAnswer host.example. 1
rrset 2 signature 1

m < 313131313131313131313131313131313131313131313131313131313131313131313131313131313131313131313131313131313131313131313131313131310a2d0a^1100
=> 7
! refused 802

# Reads that fail, and files that don't open.
k < 4b2e20415149440a !
=> 1
! fault 210 keys

k < 780a !
=> 1
! fault 210 keys

m < 2d0a !
=> 1
! fault 210 macs

m < 780a !
=> 1
! fault 210 macs

# Of what is refused and what can't be read the first in the order of the work is told. Each file fails within a line or
# a frame, and at its end.
k < 4b !
m = x
=> 1
! fault 210 keys

k = x
m < 2d0a !
=> 7
! refused 301 line 1

m < 31 !
c < 0000
=> 1
! fault 210 macs

m = x
c < SIGNED_KEYS !
=> 7
! refused 801 line 1

c < SIGNED_KEYS 00 !
a = x
=> 1
! fault 210 capture

c < SIGNED_KEYS SIGNED_HOST !
a = x
=> 1
! fault 210 capture

c < SIGNED_KEYS 0000
a < 23 !
=> 7
! refused 208

a < 4b45 !
=> 1
! fault 210 anchors

a < 4b4559206578616d706c652e20323536203320313320415149440a !
=> 1
! fault 210 anchors

a = x
s < 23 !
=> 7
! refused 601 line 1

s < 676f !
=> 1
! fault 210 statements

s < 230a !
=> 1
! fault 210 statements

$ dnssec_check check --capture c --anchors a --statements s --keys z --macs m --moment 1500 --name host.example. --type 1
=> 1
! fault 811 keys

$ dnssec_check check --capture c --anchors a --statements s --keys k --macs z --moment 1500 --name host.example. --type 1
=> 1
! fault 811 macs";
