//! What `--help` prints for each command: what it does, its usage, examples, and exit statuses.

/// The texts of one command. No line is longer than 80 columns.
#[derive(Clone, Copy)]
pub struct Help<'a> {
    pub about: &'a str,
    pub usage: &'a str,
    /// What comes below the options.
    pub after: &'a str,
}

pub const CHECK: Help<'static> = Help {
    about: "Checks a dump and counts what is in it",
    usage: "vcdkit check [OPTIONS] [FILE]",
    after: "Examples:
  vcdkit check sim.vcd
  gzip -dc sim.vcd.gz | vcdkit check

Exit status:
  0  a valid dump, as far as it goes: the counts were written
  1  not a valid dump: the message says where and why
  2  usage error
  3  I/O error or out of memory

Because a dump has no end mark, one that was truncated between two lines is
valid. The line 'last' shows how far the simulation went. In a script, this
fails unless the dump reaches tick 1220:
  vcdkit check sim.vcd | awk '$1 == \"last\" && $2 >= 1220' | grep -q .",
};

pub const LIST: Help<'static> = Help {
    about: "Lists the variables of a dump",
    usage: "vcdkit list [OPTIONS] [FILE]",
    after: "Examples:
  vcdkit list sim.vcd
  vcdkit list sim.vcd | grep clk

Each line has the path, type, size and identifier code of a variable. Only the
header is read.

Exit status:
  0  everything was written
  1  not a valid header: the message says where and why
  2  usage error
  3  I/O error or out of memory",
};

pub const PICK: Help<'static> = Help {
    about: "Writes a dump of some of the variables",
    usage: "vcdkit pick [OPTIONS] [-i FILE] NAME...",
    after: "Examples:
  vcdkit pick -i sim.vcd top.clk top.cpu > some.vcd
  vcdkit pick -i sim.vcd 'top.mem[0]' | vcdkit check

Names are the paths that vcdkit list writes. An argument without -i is a name,
not a file.

Exit status:
  0  everything was written
  1  not a valid dump (the output stops before the fault), or a name selects
     nothing
  2  usage error
  3  I/O error or out of memory",
};

pub const CUT: Help<'static> = Help {
    about: "Writes a dump of a time window",
    usage: "vcdkit cut [OPTIONS] [FILE]",
    after: "Examples:
  vcdkit cut --from 100us --to 200us sim.vcd > window.vcd
  vcdkit cut --from 5000 sim.vcd > end.vcd

A time is a number of ticks, or has a unit: s, ms, us, ns, ps or fs. If the dump
ends before --to, the cut ends at the last timestamp of the dump, or at --from
if that is later, with status 0.

Exit status:
  0  everything was written
  1  not a valid dump (the output stops before the fault), or a time with a unit
     but no time scale in the dump
  2  usage error
  3  I/O error or out of memory",
};

pub const SAMPLE: Help<'static> = Help {
    about: "Writes the values of variables at given times",
    usage: "vcdkit sample [OPTIONS] [-i FILE] --at TIME,... [NAME...]",
    after: "Examples:
  vcdkit sample -i sim.vcd --at 0,15ns,2us top.cpu.pc
  vcdkit sample -i sim.vcd --at 5000

A time is a number of ticks, or has a unit: s, ms, us, ns, ps or fs. After the
end of the dump, the last values are written, with status 0.
Names are the paths that vcdkit list writes; without one, all variables are
sampled. An argument without -i is a name, not a file.

Exit status:
  0  everything was written
  1  not a valid dump, a name selects nothing, or a time with a unit but no time
     scale in the dump
  2  usage error
  3  I/O error or out of memory",
};

pub const EDGES: Help<'static> = Help {
    about: "Counts changes, rises and falls of variables",
    usage: "vcdkit edges [OPTIONS] [-i FILE] [NAME...]",
    after: "Examples:
  vcdkit edges -i sim.vcd top.clk
  vcdkit edges -i sim.vcd | sort -k 2,2nr | head

The rises and falls of a vector are those of its least significant bit.
Names are the paths that vcdkit list writes; without one, all variables are
counted. An argument without -i is a name, not a file.

Exit status:
  0  everything was written
  1  not a valid dump, or a name selects nothing
  2  usage error
  3  I/O error or out of memory",
};

pub const MERGE: Help<'static> = Help {
    about: "Merges several dumps into one",
    usage: "vcdkit merge [OPTIONS] FILE...",
    after: "Examples:
  vcdkit merge cpu.vcd bus.vcd > both.vcd
  gzip -dc cpu.vcd.gz | vcdkit merge - bus.vcd > both.vcd

The variables of the first file are in the scope in1, those of the second in
in2, and so on. All changes are in time order.

Exit status:
  0  everything was written
  1  not a valid dump (the output stops before the fault)
  2  usage error
  3  I/O error or out of memory",
};

pub const PROGRAM: Help<'static> = Help {
    about: "Reads value change dumps (VCD) and answers questions about them",
    usage: "vcdkit COMMAND [ARGUMENT...]",
    after: "check, list and cut take the dump as an argument; pick, sample and edges take it
after -i, because their arguments are names; merge takes several dumps. Without
a file, a command reads standard input. Output goes to standard output.
Each command has its own help, with examples: vcdkit check --help

More: man vcdkit, and the manual in share/doc/vcdkit under the installation
prefix, or in docs/ of the sources.",
};
