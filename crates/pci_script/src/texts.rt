//! What stands in each script of a form.

pub const SETPCI_HEAD: &str = "\
#!/bin/sh
# Register writes that settle a machine, for setpci of pciutils. Usage: sh SCRIPT [DOMAIN], as root; domain 0000 if none
# is said. Command and the address registers of each function that is written are compared with the dump first. Where one
# differs, nothing is written, and the status is 1. Then each write is made in one access, and is read back. The first
# that fails or reads back otherwise is the last. Standard error says how many were made, and the status is 2.
set -u
domain=${1-0000}

# compare FUNCTION REGISTER VALUE: stops where the register shows another value.
compare() {
    shows=$(setpci -s \"$domain:$1\" \"$2\")
    [ \"$shows\" = \"$3\" ] && return
    echo \"changed $1 $2: the dump has $3, the machine ${shows:-nothing}; writes made: 0\" >&2
    exit 1
}

# put FUNCTION REGISTER VALUE NUMBER: makes a write, and stops where it reads back otherwise.
put() {
    if ! setpci -s \"$domain:$1\" \"$2=$3\"; then
        echo \"failed $1 $2: setpci didn't write $3; writes made: $(($4 - 1))\" >&2
        exit 2
    fi
    shows=$(setpci -s \"$domain:$1\" \"$2\")
    [ \"$shows\" = \"$3\" ] && return
    echo \"stuck $1 $2: $3 was written, and it reads back ${shows:-nothing}; writes made: $4\" >&2
    exit 2
}

";

pub const SETPCI_END: &str = "\
echo 'all writes were made'
";

pub const GRUB_HEAD: &str = "\
# Register writes that settle a machine, for GRUB's setpci: source it. Command and the address registers of each function
# that is written are compared with the dump first. Where one differs, nothing is written, and pciplan is changed. Then
# each write is made in one access, and is read back. The first that reads back otherwise is the last, and pciplan is
# stuck. Where all were made, pciplan is made.
insmod setpci
insmod test
set pciplan=same

# compare FUNCTION REGISTER VALUE: nothing more is done where the register shows another value.
function compare {
    if [ \"$pciplan\" = same ]; then
        set shows=nothing
        setpci -s $1 -v shows $2
        if [ \"$shows\" != \"$3\" ]; then
            set pciplan=changed
            echo \"changed $1 $2: the dump has $3, the machine $shows; writes made: 0\"
        fi
    fi
}

# put FUNCTION REGISTER VALUE NUMBER: makes a write, and nothing more is done where it reads back otherwise.
function put {
    if [ \"$pciplan\" = same ]; then
        setpci -s $1 $2=$3
        set shows=nothing
        setpci -s $1 -v shows $2
        if [ \"$shows\" != \"$3\" ]; then
            set pciplan=stuck
            echo \"stuck $1 $2: $3 was written, and it reads back $shows; writes made: $4\"
        fi
    fi
}

";

pub const GRUB_END: &str = "\
if [ \"$pciplan\" = same ]; then
    set pciplan=made
    echo \"all writes were made\"
fi
";
