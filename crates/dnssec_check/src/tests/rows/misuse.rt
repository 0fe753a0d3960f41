//! Words that are no command.

pub const ROWS: &str = "\
# Words that are no command: status 2, nothing on the output, a text on the errors.
$ 
=> 2
! 
~ help

$ dnssec_check
=> 2
! 
~ help

$ dnssec_check list
=> 2
! 
~ help

$ dnssec_check show
=> 2
! 
~ help

$ dnssec_check show --capture
=> 2
! 
~ help

$ dnssec_check show --moment 1
=> 2
! 
~ help

$ dnssec_check show --capture a --moment 1
=> 2
! 
~ help

$ dnssec_check show --capture a --all
=> 2
! 
~ help

$ dnssec_check show --capture a --capture a
=> 2
! 
~ help

$ dnssec_check show --capture a b
=> 2
! 
~ help

$ dnssec_check help
=> 2
! 
~ help

$ dnssec_check list --moment 1 --all
=> 2
! 
~ help

$ dnssec_check list --capture --moment 1 --all
=> 2
! 
~ help

$ dnssec_check list --capture a --moment 281474976710656 --all
=> 2
! 
~ help

$ dnssec_check list --capture a --moment -1 --all
=> 2
! 
~ help

$ dnssec_check list --capture a --moment= --all
=> 2
! 
~ help

$ dnssec_check list --capture a --moment 1 --statements
=> 2
! 
~ help

$ dnssec_check list --capture a --moment 1 --statements b --statements b
=> 2
! 
~ help

$ dnssec_check list --capture a --moment 1 --all=true
=> 2
! 
~ help

$ dnssec_check show --capture a --json
=> 2
! 
~ help

$ dnssec_check list --capture a --moment 1 --all --all
=> 2
! 
~ help

$ dnssec_check show --capture a --statements b
=> 2
! 
~ help

$ dnssec_check list --capture a --capture a --moment 1 --all
=> 2
! 
~ help

$ dnssec_check list --capture a --moment 1 --all b
=> 2
! 
~ help

$ dnssec_check list --capture a --moment 1 --keys b
=> 2
! 
~ help

$ dnssec_check check --capture a --anchors b --moment 1 --name c. --type 1 --keys
=> 2
! 
~ help

$ dnssec_check check --capture a --anchors b --moment 1 --name c. --type 65536
=> 2
! 
~ help

# A list is of a moment or of a range, and one of all is of a moment.
$ dnssec_check list --capture a
=> 2
! error: a list is of --moment, or of --from and --to

$ dnssec_check list --capture a --all
=> 2
! error: a list is of --moment, or of --from and --to

$ dnssec_check list --capture a --from 1
=> 2
! error: a list is of --moment, or of --from and --to

$ dnssec_check list --capture a --to 1 --json
=> 2
! error: a list is of --moment, or of --from and --to

$ dnssec_check list --capture a --moment 1 --from 1 --to 1
=> 2
! error: a list is of --moment, or of --from and --to

$ dnssec_check list --capture a --moment 1 --to 2
=> 2
! error: a list is of --moment, or of --from and --to

$ dnssec_check list --capture a --from 1 --to 2 --all
=> 2
! error: a list with --all is of --moment

$ dnssec_check list --capture a --from 1 --to 2 --all --compact
=> 2
! error: a list with --all is of --moment

$ dnssec_check list --capture a --from 1 --to 281474976710656
=> 2
! 
~ help

# A timeline is of one question and of both moments, and takes no keys.
$ dnssec_check timeline --capture a --anchors b --from 1 --to 2 --name c. --type 1 --statements d --answers d
=> 2
! error: what was checked is --statements or --answers

$ dnssec_check timeline --capture a --anchors b --from 1 --name c. --type 1
=> 2
! 
~ help

$ dnssec_check timeline --capture a --anchors b --to 1 --name c. --type 1
=> 2
! 
~ help

$ dnssec_check timeline --capture a --anchors b --moment 1 --name c. --type 1
=> 2
! 
~ help

$ dnssec_check timeline --capture a --from 1 --to 2 --name c. --type 1
=> 2
! 
~ help

$ dnssec_check timeline --capture a --anchors b --from 1 --to 2 --type 1
=> 2
! 
~ help

$ dnssec_check timeline --capture a --anchors b --from 1 --to 2 --name c.
=> 2
! 
~ help

$ dnssec_check timeline --capture a --anchors b --from 1 --to 2 --name c. --type 65536
=> 2
! 
~ help

$ dnssec_check timeline --capture a --anchors b --from 1 --to 2 --name c. --type 1 --keys d
=> 2
! 
~ help

$ dnssec_check timeline --capture a --anchors b --from 1 --to 2 --questions d
=> 2
! 
~ help";
