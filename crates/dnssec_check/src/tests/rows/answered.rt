//! Answers by number, in place of statements. The digests are those that `sha256sum` prints of the captures, and the texts
//! those of the rows of `check`, `explain` and many questions.

/// A chain of trust.
pub const SHARED: &str = "\
c < KEYS HOST
a = KEY example. 256 3 13 AQID;";

pub const ROWS: &str = "\
# Both are good.
f = of 6c4b4d1c83e750b18efe86c3edb737e5960d372065637ffac59584f981f218d0 1500;good;good;
$ dnssec_check check --capture c --anchors a --answers f --moment 1500 --name host.example. --type 1
=> 0
SecureAnswer host.example. 1
rrset 2 signature 1

f = of 6c4b4d1c83e750b18efe86c3edb737e5960d372065637ffac59584f981f218d0 1500;good;good;
$ dnssec_check check --capture c --anchors a --answers f --moment 1500 --name host.example. --type 1 --json
=> 0
{\"command\":\"check\",\"name\":\"host.example.\",\"type\":1,\"moment\":1500,\"verdict\":\"SecureAnswer\",\"status\":0,\"aliases\":[],\"rrset\":2,\"signature\":1}

f = of 6c4b4d1c83e750b18efe86c3edb737e5960d372065637ffac59584f981f218d0 1500;good;good;
$ dnssec_check explain --capture c --anchors a --answers f --moment 1500 --name host.example. --type 1
=> 0
SecureAnswer host.example. 1
rrset 2 signature 1
trusted example. rrset 1 signature 1 key 2063 13 anchor 1
signed host.example. 1 rrset 2 signature 1 key 2063 13 zone example. keys 1
holds from 1000 to 2000
rrset 1 message 1 section 1 example. 48
rrset 2 message 2 section 1 host.example. 1

# The first entry of the list is the signature of the address, and the second that of the key.
f = of 6c4b4d1c83e750b18efe86c3edb737e5960d372065637ffac59584f981f218d0 1500;bad;good;
$ dnssec_check check --capture c --anchors a --answers f --moment 1500 --name host.example. --type 1
=> 5
Bogus host.example. 1

f = of 6c4b4d1c83e750b18efe86c3edb737e5960d372065637ffac59584f981f218d0 1500;good;bad;
$ dnssec_check check --capture c --anchors a --answers f --moment 1500 --name host.example. --type 1
=> 5
Bogus host.example. 1

# What is open is told by no line, and where lines say why, by its number in the compact list.
f = of 6c4b4d1c83e750b18efe86c3edb737e5960d372065637ffac59584f981f218d0 1500;-;-;
$ dnssec_check check --capture c --anchors a --answers f --moment 1500 --name host.example. --type 1
=> 4
Pending host.example. 1

f = of 6c4b4d1c83e750b18efe86c3edb737e5960d372065637ffac59584f981f218d0 1500;good;-;
$ dnssec_check check --capture c --anchors a --answers f --moment 1500 --name host.example. --type 1 --json
=> 4
{\"command\":\"check\",\"name\":\"host.example.\",\"type\":1,\"moment\":1500,\"verdict\":\"Pending\",\"status\":4,\"aliases\":[]}

f = of 6c4b4d1c83e750b18efe86c3edb737e5960d372065637ffac59584f981f218d0 1500;good;-;
$ dnssec_check explain --capture c --anchors a --answers f --moment 1500 --name host.example. --type 1
=> 4
Pending host.example. 1
hope SecureAnswer
trusted example. rrset 1 signature 1 key 2063 13 anchor 1 todo 2
signed host.example. 1 rrset 2 signature 1 key 2063 13 zone example. keys 1
rrset 1 message 1 section 1 example. 48
rrset 2 message 2 section 1 host.example. 1

f = of 6c4b4d1c83e750b18efe86c3edb737e5960d372065637ffac59584f981f218d0 1500;-;-;
$ dnssec_check explain --capture c --anchors a --answers f --moment 1500 --name host.example. --type 1 --json
=> 4
{\"command\":\"explain\",\"name\":\"host.example.\",\"type\":1,\"moment\":1500,\"verdict\":\"Pending\",\"status\":4,\"aliases\":[],\"why\":[{\"line\":\"hope\",\"kind\":\"SecureAnswer\"},{\"line\":\"trusted\",\"zone\":\"example.\",\"rrset\":1,\"signature\":1,\"tag\":2063,\"algorithm\":13,\"anchor\":1,\"todo\":2},{\"line\":\"signed\",\"owner\":\"host.example.\",\"type\":1,\"rrset\":2,\"signature\":1,\"tag\":2063,\"algorithm\":13,\"signer\":\"example.\",\"keys\":1,\"todo\":1},{\"line\":\"rrset\",\"rrset\":1,\"message\":1,\"section\":1,\"owner\":\"example.\",\"type\":48},{\"line\":\"rrset\",\"rrset\":2,\"message\":2,\"section\":1,\"owner\":\"host.example.\",\"type\":1}]}

# Many questions by the same answers.
f = of 6c4b4d1c83e750b18efe86c3edb737e5960d372065637ffac59584f981f218d0 1500;good;-;
q = host.example. 1;. 43;host.example. 1;
$ dnssec_check check --capture c --anchors a --answers f --moment 1500 --questions q
=> 7
Pending host.example. 1
refused 701 . 43
Pending host.example. 1

f = of 6c4b4d1c83e750b18efe86c3edb737e5960d372065637ffac59584f981f218d0 1500;good;good;
q = host.example. 1;none.example. 1;
$ dnssec_check check --questions q --capture c --anchors a --answers f --moment 1500
=> 5
SecureAnswer host.example. 1
rrset 2 signature 1
Bogus none.example. 1

f = of 6c4b4d1c83e750b18efe86c3edb737e5960d372065637ffac59584f981f218d0 1500;-;good;
q = host.example. 1;
$ dnssec_check explain --capture c --anchors a --answers f --moment 1500 --questions q
=> 4
Pending host.example. 1
hope SecureAnswer
trusted example. rrset 1 signature 1 key 2063 13 anchor 1
signed host.example. 1 rrset 2 signature 1 key 2063 13 zone example. keys 1 todo 1
rrset 1 message 1 section 1 example. 48
rrset 2 message 2 section 1 host.example. 1

# A file as people write it: digits of either case, comments, empty lines, and no end of the last one.
f = # checked;;of 6C4B4D1C83E750B18EFE86C3EDB737E5960D372065637FFAC59584F981F218D0 1500;# the address;good;;good
$ dnssec_check check --capture c --anchors a --answers f --moment 1500 --name host.example. --type 1
=> 0
SecureAnswer host.example. 1
rrset 2 signature 1

# A message that comes twice gives no entry more, and the digest is that of the whole file.
c < KEYS HOST KEYS HOST
f = of 9d195ea4becd0ec5df7d24960afa5c8bc9c495db168214b8db6654f58ccae904 1500;good;good;
$ dnssec_check check --capture c --anchors a --answers f --moment 1500 --name host.example. --type 1
=> 0
SecureAnswer host.example. 1
rrset 2 signature 1

# Nothing is captured, so nothing is asked.
c = 
f = of e3b0c44298fc1c149afbf4c8996fb92427ae41e4649b934ca495991b7852b855 1500;
$ dnssec_check check --capture c --anchors a --answers f --moment 1500 --name host.example. --type 1
=> 5
Bogus host.example. 1

# The first line is no heading, another no answer, or there is none.
f = 
$ dnssec_check check --capture c --anchors a --answers f --moment 1500 --name host.example. --type 1
=> 7
! refused 805

f = # nothing;;
$ dnssec_check check --capture c --anchors a --answers f --moment 1500 --name host.example. --type 1
=> 7
! refused 805

f = good;good;
$ dnssec_check check --capture c --anchors a --answers f --moment 1500 --name host.example. --type 1
=> 7
! refused 805 line 1

f = # short;of 6c4b4d1c83e750b18efe86c3edb737e5960d372065637ffac59584f981f218 1500;good;good;
$ dnssec_check check --capture c --anchors a --answers f --moment 1500 --name host.example. --type 1
=> 7
! refused 805 line 2

f = of 6c4b4d1c83e750b18efe86c3edb737e5960d372065637ffac59584f981f218d0 01500;good;good;
$ dnssec_check check --capture c --anchors a --answers f --moment 1500 --name host.example. --type 1
=> 7
! refused 805 line 1

f = of 6c4b4d1c83e750b18efe86c3edb737e5960d372065637ffac59584f981f218d0 1500;good;Good;
$ dnssec_check check --capture c --anchors a --answers f --moment 1500 --name host.example. --type 1
=> 7
! refused 805 line 3

f = of 6c4b4d1c83e750b18efe86c3edb737e5960d372065637ffac59584f981f218d0 1500;good;good good;
$ dnssec_check check --capture c --anchors a --answers f --moment 1500 --name host.example. --type 1
=> 7
! refused 805 line 3

# Lines end with LF alone.
f < 6f66203663346234643163383365373530623138656665383663336564623733376535393630643337323036353633376666616335393538346639383166323138643020313530300d0a676f6f640a676f6f640a
$ dnssec_check check --capture c --anchors a --answers f --moment 1500 --name host.example. --type 1
=> 7
! refused 805 line 1

f < 6f66203663346234643163383365373530623138656665383663336564623733376535393630643337323036353633376666616335393538346639383166323138643020313530300a676f6f640d0a676f6f640d0a
$ dnssec_check check --capture c --anchors a --answers f --moment 1500 --name host.example. --type 1
=> 7
! refused 805 line 2

# They are said of another capture, another moment, or a range, even of this moment alone.
c < HOST KEYS
f = of 6c4b4d1c83e750b18efe86c3edb737e5960d372065637ffac59584f981f218d0 1500;good;good;
$ dnssec_check check --capture c --anchors a --answers f --moment 1500 --name host.example. --type 1
=> 7
! refused 806 line 1

f = # another;of f0fefef72cf2b6d3f9463ebf48581c8de82978301bf2b1be34ab63aa13b966ab 1500;good;good;
$ dnssec_check check --capture c --anchors a --answers f --moment 1500 --name host.example. --type 1
=> 7
! refused 806 line 2

f = of 6c4b4d1c83e750b18efe86c3edb737e5960d372065637ffac59584f981f218d0 1501;good;good;
$ dnssec_check check --capture c --anchors a --answers f --moment 1500 --name host.example. --type 1
=> 7
! refused 806 line 1

f = of 6c4b4d1c83e750b18efe86c3edb737e5960d372065637ffac59584f981f218d0 1500 1500;good;good;
$ dnssec_check check --capture c --anchors a --answers f --moment 1500 --name host.example. --type 1
=> 7
! refused 806 line 1

# There are fewer, or more.
f = of 6c4b4d1c83e750b18efe86c3edb737e5960d372065637ffac59584f981f218d0 1500;good;
$ dnssec_check check --capture c --anchors a --answers f --moment 1500 --name host.example. --type 1
=> 7
! refused 807

f = of 6c4b4d1c83e750b18efe86c3edb737e5960d372065637ffac59584f981f218d0 1500;
$ dnssec_check check --capture c --anchors a --answers f --moment 1500 --name host.example. --type 1
=> 7
! refused 807

f = of 6c4b4d1c83e750b18efe86c3edb737e5960d372065637ffac59584f981f218d0 1500;good;good;# more;-;-;
$ dnssec_check check --capture c --anchors a --answers f --moment 1500 --name host.example. --type 1
=> 7
! refused 807 line 5

f = of 6c4b4d1c83e750b18efe86c3edb737e5960d372065637ffac59584f981f218d0 1500;good;good;-;
q = host.example. 1;
$ dnssec_check explain --capture c --anchors a --answers f --moment 1500 --questions q
=> 7
! refused 807 line 4

# The first fault counts: of the lines, of the list, and then of their number.
f = of f0fefef72cf2b6d3f9463ebf48581c8de82978301bf2b1be34ab63aa13b966ab 1500;what;
$ dnssec_check check --capture c --anchors a --answers f --moment 1500 --name host.example. --type 1
=> 7
! refused 805 line 2

f = of f0fefef72cf2b6d3f9463ebf48581c8de82978301bf2b1be34ab63aa13b966ab 1500;good;
$ dnssec_check check --capture c --anchors a --answers f --moment 1500 --name host.example. --type 1
=> 7
! refused 806 line 1

# Before that the anchors are read, and before these the capture; a question is refused before all.
a = nothing
f = nothing
$ dnssec_check check --capture c --anchors a --answers f --moment 1500 --name host.example. --type 1
=> 7
! refused 601 line 1

c < 00
a = nothing
f = nothing
$ dnssec_check check --capture c --anchors a --answers f --moment 1500 --name host.example. --type 1
=> 7
! refused 209

f = nothing
$ dnssec_check check --capture c --anchors a --answers f --moment 1500 --name . --type 43
=> 7
! refused 701

q = . A
f = nothing
$ dnssec_check check --capture c --anchors a --answers f --moment 1500 --questions q
=> 7
! refused 803 line 1

# Answers are opened behind the anchors and before the keys.
$ dnssec_check check --capture c --anchors a --answers f --moment 1500 --name host.example. --type 1
=> 1
! fault 811 answers

$ dnssec_check check --keys k --capture c --anchors a --answers f --moment 1500 --name host.example. --type 1
=> 1
! fault 811 answers

$ dnssec_check check --capture c --anchors b --answers f --moment 1500 --name host.example. --type 1
=> 1
! fault 811 anchors

f < 61 !
$ dnssec_check check --capture c --anchors a --answers f --moment 1500 --name host.example. --type 1
=> 1
! fault 210 answers

# A text that can't be written.
full
f = of 6c4b4d1c83e750b18efe86c3edb737e5960d372065637ffac59584f981f218d0 1500;good;good;
$ dnssec_check check --capture c --anchors a --answers f --moment 1500 --name host.example. --type 1
=> 1
! fault 812

# What was checked is said by one file.
f = of 6c4b4d1c83e750b18efe86c3edb737e5960d372065637ffac59584f981f218d0 1500;good;good;
$ dnssec_check check --capture c --anchors a --answers f --statements s --moment 1500 --name host.example. --type 1
=> 2
! error: what was checked is --statements or --answers

$ dnssec_check explain --statements s --json --capture c --anchors a --answers f --moment 1500 --questions q
=> 2
! error: what was checked is --statements or --answers

$ dnssec_check check --capture c --anchors a --answers f --statements s --moment 1500 --name host.example.
=> 2
! error: a question is --name and --type, and many are --questions

$ dnssec_check check --capture c --anchors a --answers f --answers f --moment 1500 --name host.example. --type 1
=> 2
! 
~ help

$ dnssec_check list --capture c --answers f --moment 1500
=> 2
! 
~ help";
