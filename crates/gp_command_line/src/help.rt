//! What stands at the end of the help of each command: examples, and its exit statuses.

/// What stands at the end of the help of the program.
pub const ABOUT_HELP: &str = "\
Examples:
  oltctl replay script.toml
  oltctl COMMAND --help

Exit status:
  0  done, or help that was asked for
  1  the input was not read, is too long, or is no script, turn, code, words,
     trace or log; or audit judged nothing, or with --strict not all
  2  the command line is wrong
  3  out of memory
  4  the output takes no more
  5  a storm's threads and journals do not agree
  6  a port of a storm has more entries than its journal keeps
  7  a trace is no run, or has too few lines; a log breaks a rule; or a script of a
     folder failed";

/// What stands at the end of the help of `replay`.
pub const REPLAY_HELP: &str = "\
Examples:
  oltctl replay script.toml
  oltctl replay --words --time script.toml
  oltctl replay --units script.toml
  oltctl replay --summary --format json script.toml
  oltctl replay --explain --progress script.toml

With --words, --time or --format json a line of its own, unit I light or unit I dark,
says where light comes or goes at a simulated unit; it is no line of the trace.

Exit status:
  0  the whole trace was written
  1  the script is wrong, too long, or was not read
  2  the command line is wrong
  3  out of memory
  4  the output takes no more";

/// What stands at the end of the help of `check`.
pub const CHECK_HELP: &str = "\
Examples:
  oltctl check script.toml
  oltctl check -q scripts/*.toml
  oltctl check --storm script.toml
  oltctl check --format json scripts/*.toml

What is right is told on standard output, what is wrong on standard error; with
--format json both on standard output, an object a file.

Exit status:
  0  all files are scripts
  1  one is wrong, too long, or was not read: the line says where
  2  the command line is wrong
  3  out of memory
  4  the output takes no more";

/// What stands at the end of the help of `test`.
pub const TEST_HELP: &str = "\
Examples:
  oltctl test scripts
  oltctl test --bless scripts
  oltctl test --jobs 4 --junit tests.xml scripts more-scripts

Of each NAME.toml in a folder:
  NAME.trace beside it    the script is played, and has to write this
  NAME.faults beside it   the script is wrong: what check tells behind the file's
                          name has to be this, and a line feed
  neither                 it fails; with --bless its NAME.trace is written
  both                    it fails
A script whose play writes no line fails: nothing can be compared.
What fails has a line on standard output: where it differs the first time, what was
expected there and what came. A folder without a script fails too, and so does a
NAME.trace or NAME.faults without NAME.toml, and what is no regular file. Other files
are passed over. A folder that is named twice counts once.

The FILE of --junit is written where there is none, or where it is empty or begins with
<?xml; over anything else it is not written. It is written beside it, as FILE.new1, and
gets the name when it is whole, so the old one stays where writing fails.

Exit status:
  0  all passed, or a trace was written
  2  the command line is wrong
  3  out of memory
  4  the output, or JUnit's file, takes no more
  7  one failed";

/// What stands at the end of the help of `storm`.
pub const STORM_HELP: &str = "\
Examples:
  oltctl storm script.toml
  oltctl storm --explain - < script.toml
  oltctl storm --format json script.toml

Exit status:
  0  the totals were written
  1  the script is wrong, too long, has simulated units, or was not read
  2  the command line is wrong
  3  out of memory
  4  the output takes no more
  5  a thread was not started, or receipts and journals do not agree
  6  a port has more entries than its journal keeps";

/// What stands at the end of the help of `generate`.
pub const GENERATE_HELP: &str = "\
The script is fixed by the options, which its first line repeats. Without units
it has scenes on each port: units that are found, ranged, polled, lost, disabled
and wrong in each way. With units it is a world of one port, with losses and
with light that comes and goes. What is wrong with an event is told by a comment
before it.

Examples:
  oltctl generate --seed 7 > lab.toml
  oltctl generate --seed 7 --units 8 --events 500 > world.toml
  oltctl generate --seed 7 --mistakes 1 | oltctl check -
  oltctl replay lab.toml | oltctl verify lab.toml

Exit status:
  0  the whole script was written
  2  the command line is wrong
  3  out of memory
  4  the output takes no more";

/// What stands at the end of the help of `verify`.
pub const VERIFY_HELP: &str = "\
Examples:
  oltctl verify script.toml my-own.trace
  oltctl replay script.toml | oltctl verify --at-least 10 script.toml
  oltctl verify --words script.toml my-own.trace
  oltctl verify --format json script.toml my-own.trace
  oltctl verify --units script.toml my-own.trace

Lines that drive writes beside the trace, error, done and unit, are none of it: leave
them out, as by grep '^[0-9]'.

With --words the line that can't be and the machine's own are told with their
codes in words; with --format json standard output is one object, whose field
run says whether the trace is a run. With --units an object, or a line, for each port,
each unit and the licences stands behind that. Where a line can't be one before them
says how far they go: the lines before it, and the machine's own in its place.

Exit status:
  0  the trace is a run
  1  the script is wrong, or the script or the trace was not read
  2  the command line is wrong
  3  out of memory
  4  the output takes no more
  7  the trace is no run: the first line that can't be is told; or it has
     too few lines";

/// What stands at the end of the help of `drive`.
pub const DRIVE_HELP: &str = "\
Lines, with one space between parts:
  PORT frame [COUNT]  a frame, or so many, 1 to 1000000
  PORT until GRANT    frames up to this grant: search, range ONU-ID, poll ONU-ID
  .. within N         at most so many frames, 1 to 1000000; else 1000000
  PORT burst D HEX    13 octets arrive, D bit times after their grant
  PORT search         a search for new units
  PORT COMMAND S      alloc, deactivate, disable, enable, popup or show
  PORT dealloc S A    the further Alloc-ID A is taken back
  PORT enable-all, PORT popup-all
  PORT say serial S [onu N] [at D]  a unit's burst: its serial number
  PORT say gasp onu N [at D]        a unit's burst: it is losing its power
  PORT say none onu N [at D]        a unit's burst: it has nothing to say
  PORT say ack onu N id K [at D]    a unit's burst: it has heard message K
  unit I light        the light of a simulated unit comes; dark: it goes
  unit I show         what a simulated unit is: its state, ONU-ID and delay
  # ..                a remark; empty lines too are passed over
S is a serial number, ABCD00000001; D a round-trip delay in bit times, 0 where it is
left out; K the identifier of a message, 0 to 255, as 10 of Assign_Alloc-ID. A unit is
admitted by admit in the script, and by no line.

A line that is no turn changes nothing and is answered by: error LINE KIND. KIND is
word, number, range, serial, hex, space or long, or port or unit where it isn't there.
Frames that end without their grant are answered behind them by: error LINE never
A unit is shown by: unit I STATE [onu N] [eqd EQD] [dark]
With --done the answer to each line, also to an empty one, ends with: done LINE
With --words, --time or --format json light that comes or goes is answered: unit I light

Examples:
  oltctl drive script.toml
  oltctl drive --units script.toml < turns 2> units.txt
  printf '0 search\\n0 frame 4\\n' | oltctl drive script.toml

Exit status:
  0  no line was answered by an error
  1  a line was answered by an error, or the script is wrong, or the input was not
     read
  2  the command line is wrong
  3  out of memory
  4  the output takes no more";

/// What stands at the end of the help of `explain`.
pub const EXPLAIN_HELP: &str = "\
Examples:
  oltctl explain trace.txt
  oltctl replay script.toml | oltctl explain -
  oltctl explain --log trace.txt | oltctl audit
  oltctl explain --summary --format json trace.txt

With --log each line of the trace that says something on the fibre is written as lines
of a log: PORT TIME down CODE, PORT TIME up CODE DELAY, PORT TIME grant GRANT, TIME in
frames. With --units or --summary standard error says how many codes have a wrong check
octet under the mask, if any have.

Exit status:
  0  all lines were told
  1  a line is none of a trace, or the trace was not read; with --units or --summary
     also where no line came, or no code is right under the mask
  2  the command line is wrong
  3  out of memory
  4  the output takes no more";

/// What stands at the end of the help of `audit`.
pub const AUDIT_HELP: &str = "\
Lines of LOG, which may be mixed with those of a trace:
  [PORT] TIME down CODE         a message of the line terminal
  [PORT] TIME up CODE [DELAY]   one of a unit; DELAY in bit times, without the
                                unit's equalization delay
  [PORT] TIME grant search      a window; or: grant range N, grant poll N
TIME is a number of frames, or has a unit: 12.125ms, s, us or ns; what is finer than a
nanosecond is cut off. For down also ds, d, downstream, for up us, u, upstream, in any
case. Codes may have colons, hyphens, dots, spaces, 0x and quotation marks; fields are
parted by spaces, tabs, commas and semicolons, so a comma is no decimal point: 12,125ms
down .. is port 12 at 125 ms. Empty lines and those that begin with # are passed over.

Any other line, as the heading of a table, is answered by: error N KIND, N its number,
KIND word, number, code, time or long; so is one whose time is before that of its port
(time). Nothing of it is heard, so findings behind it may come of that. error N full: more
than 4096 serial numbers on a port.

Rules of the terminal: garbled copies range barred unasked taken renumbered nobody
unranged delay early shared not-held grant; of units: garbled disabled anew number
acknowledge drift. RULES are some of these, with commas between. One has to be left to
tell: with --side, one that is judged on that side; with --midway, one other than unasked.
Rules that --only names, but of the other side, are named on standard error.

A rule is judged only where it is known what it asks for: delay and drift want delays,
grant a range or poll grant, early an Assign_Alloc-ID or POPUP, shared and not-held an
Assign_Alloc-ID that gives or takes back, acknowledge an Acknowledge of one. Standard
error names the rules that are told but were not judged of anything, and of several ports
those that were judged, but not on one of them; or it says that none was judged, or none
of a side. It counts garbled codes of which no finding tells: nothing else is known of
them, so findings behind one on its port may come of it.

Ports of which the same is said share a line. A rule counts as judged on a port once it
was judged there, whatever else was not; a port of which nothing was heard isn't named:
--units has a line of each that was. unasked and unranged go by what units said: leave
them out where that wasn't captured.

With --strict the status is 1 where standard error says any of this, or names a rule of
the other side. Few logs judge all rules: name those that matter with --only, and garbled
too; that is of both sides, so add --side where one was captured. With --midway unasked is
never judged. Leave idle ports out of LOG, as by: grep -v '^3 '

Examples:
  oltctl audit lab.log
  oltctl audit --words --units lab.log
  oltctl audit --midway --without drift < capture.log
  oltctl audit --teqd 1=250000 two-ports.trace
  oltctl audit --side terminal --format json lab.log
  oltctl audit --strict --only garbled,taken,unasked lab.log

Exit status:
  0  no rule that is told is broken
  1  a line is answered by an error, nothing was heard, no rule that is told was judged
     on any port, or the log was not read; with --strict also where something was not
     judged; this comes before 7
  2  the command line is wrong, or leaves no rule to tell
  3  out of memory
  4  the output takes no more
  7  a rule is broken";

/// What stands at the end of the help of `picture`.
pub const PICTURE_HELP: &str = "\
LOG is a log of messages or a trace, as for audit, but the first line that is neither
ends it, and nothing is drawn; put # before the heading of a table, and it is passed over.
A chart is drawn for each port, with a lane for each unit; findings are marked as audit
tells them. Of codes that are garbled under --mask nothing else is drawn; standard error
says how many of all codes they are.

Examples:
  oltctl picture lab.log > lab.svg
  oltctl replay script.toml | oltctl picture > run.svg
  oltctl picture --from 8000 --to 16000 lab.log > second.svg

Exit status:
  0  the picture was written
  1  a line is neither one of a log nor of a trace, nothing was heard, all of it is before
     --from, or all behind --to, all codes are garbled under --mask, or LOG was not read
  2  the command line is wrong
  3  out of memory
  4  the output takes no more";

/// What stands at the end of the help of `waves`.
pub const WAVES_HELP: &str = "\
LOG is a log of messages or a trace, as for audit, but the first line that is neither
ends the dump, behind what was before it; put # before the heading of a table, and it is
passed over. A dump is for gtkwave, surfer or a simulator: for each port the code sent,
the grant, the window, the burst and the alarm, for each unit its serial number, state,
ONU-ID and delay. Times are in nanoseconds. Of codes that are garbled under --mask only
the octets are told; standard error says how many of all codes they are.

Examples:
  oltctl waves lab.log > lab.vcd
  oltctl replay script.toml | oltctl waves > run.vcd
  oltctl waves --from 8000 --to 16000 lab.log > second.vcd

Exit status:
  0  the dump was written
  1  a line is neither one of a log nor of a trace, nothing was heard, all of it is before
     --from, or all behind --to, all codes are garbled under --mask, or LOG was not read
  2  the command line is wrong
  3  out of memory
  4  the output takes no more";

/// What stands at the end of the help of `decode`.
pub const DECODE_HELP: &str = "\
Examples:
  oltctl decode ff03004142434400000001001b
  oltctl decode --up - < codes.txt
  oltctl decode --up --names 000500010203040506070809e6
  echo up ff01414243440000000100002c | oltctl decode --both
  oltctl decode --both 'up ff01414243440000000100002c' 'down ff03004142434400000001001b'
  oltctl decode --format json - < codes.txt

Without --up and --both codes are the line terminal's. Of a wrong check octet a line
says which is right: echo HEX | oltctl decode.
Of lines, empty ones and those that begin with # are passed over; in lines, and where
more than one code is given, 0x, colons, hyphens and spaces in a code are, too. Other ID
OCTET1 HEX is a message that has no name here: the number of its kind, its first octet,
and the ten behind both. With --names the name that G.984.3 has for it stands in the place
of Other ID, if it has one; with --format json it always does.

Exit status, that of the first fault:
  0  all codes were told
  1  a code is wrong, or the input was not read
  2  the command line is wrong
  3  out of memory
  4  the output takes no more";

/// What stands at the end of the help of `encode`.
pub const ENCODE_HELP: &str = "\
Examples:
  oltctl encode Assign_ONU-ID 0 ABCD00000001
  oltctl encode --up --mask 85 Acknowledge 0 10
  oltctl encode Other 9 255 00000000000000000000
  oltctl decode < codes.txt | oltctl encode -
  oltctl encode --format json - < words.txt

Messages: Upstream_Overhead HEX, Assign_ONU-ID N SERIAL, Ranging_Time N EQD,
Deactivate_ONU-ID N, Disable_Serial_Number SERIAL, Enable_Serial_Number SERIAL,
Enable_All, Assign_Alloc-ID N ALLOC keep|back, POPUP N, No_message; with --up
Serial_Number_ONU N SERIAL RANDOM FLAGS, Dying_Gasp N, No_message N, Acknowledge N ID.
N is an ONU-ID, 0 to 255. Of an Acknowledge decode leaves out the copy of
what is acknowledged, and here nine zeros stand in its place.
Other ID OCTET1 HEX is a message that has no name here: ID is its identifier, octet 2 of
the code, OCTET1 its octet 1, both 0 to 255, and HEX its octets 3 to 12, as 20 digits.
Names that decode writes with --names are not read.

Exit status:
  0  all codes were written
  1  words have no code, or the input was not read
  2  the command line is wrong
  3  out of memory
  4  the output takes no more";
