//! What the program says of itself.

/// How the program is called, and what its status says.
pub const HELP: &str =
    "bpfcon: bpftool's console over a host of its own, in which every change can be taken back

  bpfcon                       answer each line of standard input when it is given
  bpfcon run FILE              run the script in a file; for - the same as bpfcon alone
  bpfcon -b FILE WORD..        one command on the host that FILE keeps
  bpfcon -b FILE run SCRIPT    a script on it; for - that of standard input
  bpfcon -b FILE shell         a dialogue on it
  bpfcon -b FILE host SCRIPT FRAMES
                               a script on it, and then the frames of another file
  bpfcon -b FILE live [OPTIONS] SETUP FRAMES
                               a script on it, and then lines while frames are served
  bpfcon host SCRIPT FRAMES    run the script in a file, then serve the frames of another
  bpfcon host SCRIPT FRAMES AFTER
                               and then run the script in a third
  bpfcon live [OPTIONS] SETUP FRAMES
                               run the script in a file, then serve the frames
                               of another while lines are answered as by shell
  bpfcon shell                 ask for each line by a prompt, up to quit or exit
  rlwrap bpfcon shell          and edit lines, and call up earlier ones
  bpfcon help                  print this text
  bpfcon version               print the version

-w SECONDS, before or after -b FILE, waits so long if another process has FILE.
If there is no -b, BPFCON_BOOK in the environment names FILE, but for bpfcon alone,
help and version.
One command may also be journal log [N], which tells what was done to the host in FILE. A command
or a line of shell may be journal without FIRST LAST, which takes out each change from serial
FIRST to LAST, or none.

The options of live, before its two files, each with its default:
  --workers N                  N threads serve frames, 1 to 64 (2)
  --rate N                     N frames a second at most, 0 for no limit (1000)
  --repeat N                   N passes over the frames (for ever)
  --journal N                  a journal of N moments, 1 to 1000000 (1000000)
  --dev NAME                   where the frames of a capture come in (eth0)
On FILE there are --rate, --repeat and --dev alone.

In shell and live, help lists the commands, and help COMMAND tells what one answers.
Standard error says what is wrong with each line that is refused.
The status is 0 if no line was refused, 1 if one was, and 2 if the script was not run to its end.
The commands of a script are described in bpfcon(8).
";

/// The program's name and version.
pub const VERSION: &str = "bpfcon 0.2.0\n";
