//! The texts of `--help` and `--version`.

pub const VERSION: &str = "1.0.0";

pub const PURPOSE: &str =
    "A debugging bench for clusters of presence nodes: plays an incident, and takes its steps back";

pub const PLAY: &str = "Plays the script on standard input, and prints its report";

pub const RACE: &str =
    "Has the act lines of the script on standard input asked by a thread for each actor";

pub const LOAD: &str = "Plays the session on standard input again, and compares every reply";

pub const IMPORT: &str =
    "Makes a script of the events of logs on standard input, a JSON object a line";

pub const EXPLORE: &str = "Tells all that the network could have made of the run on standard input";

pub const STEP: &str =
    "Takes a script line by line from standard input, and answers each line at once";

pub const DRAW: &str = "Draws the run on standard input, time down: what was done, sent and undone";

pub const PAGE: &str =
    "Prints a page of HTML on which the run on standard input is looked at in a browser";

pub const EXPLAIN: &str =
    "Tells why presences of the run on standard input are online at a node, and why not";

pub const WHATIF: &str =
    "Tells which single changes of the run on standard input would have made a difference";

pub const NODE: &str = "The node that is asked about";

pub const TOPIC: &str = "The topic under which they are tracked";

pub const KEY: &str = "The key under which they are tracked";

pub const WHY: &str = "The number of a step, to paint it and all that follows from it";

pub const FROM: &str = "The number of the first step that is drawn";

pub const TO: &str = "The number of the last step that is drawn";

pub const LOST: &str = "How many deliveries may be missing, 0 as without it";

pub const AGAIN: &str = "How many deliveries may come a second time, 0 as without it";

pub const CHECK: &str =
    "Print where the bench and the real nodes part instead; status 6 where they do";

pub const LINES: &str = "Put a comment with the number of its event's line before each line";

pub const LENIENT: &str =
    "Leave out what takes a message that no line sends, for logs that lack a part";

pub const STATES: &str = "The most different states to keep, 100000 as without it";

pub const OUTCOME: &str = "The number of an outcome, to print its run alone, as a script";

pub const CHANGE: &str = "The number of a change, to print the run with it alone, as a script";

pub const STRICT: &str = "End with status 6 where an act was refused, and tell the first";

pub const FORMS: &str = "What to print: report (as without it), steps, script or session";

pub const RACE_FORMS: &str = "What to print: report (as without it) or session";

pub const IMPORT_FORMS: &str = "What to print: script (as without it), session or page";

pub const PLAY_USAGE: &str = "presence_bench play [OPTIONS] < SCRIPT";

pub const RACE_USAGE: &str = "presence_bench race [OPTIONS] < SCRIPT";

pub const LOAD_USAGE: &str = "presence_bench load [OPTIONS] < SESSION";

pub const IMPORT_USAGE: &str = "presence_bench import [OPTIONS] < EVENTS";

pub const EXPLORE_USAGE: &str =
    "presence_bench explore [OPTIONS] [NODE [TOPIC KEY]] < SCRIPT_OR_SESSION";

pub const STEP_USAGE: &str = "presence_bench step";

pub const DRAW_USAGE: &str =
    "presence_bench draw [OPTIONS] [NODE TOPIC KEY | - TOPIC KEY] < SCRIPT_OR_SESSION";

pub const PAGE_USAGE: &str = "presence_bench page < SCRIPT_OR_SESSION";

pub const EXPLAIN_USAGE: &str = "presence_bench explain NODE TOPIC KEY < SCRIPT_OR_SESSION";

pub const WHATIF_USAGE: &str = "presence_bench whatif [OPTIONS] NODE TOPIC KEY < SCRIPT_OR_SESSION";

pub const PLAY_EXAMPLE: &str = "\
Example:
  printf 'nodes a b\\na join 1 r alice phone\\nb up a\\na broadcast\\nb deliver a 1\\n' |
    presence_bench play --as steps";

pub const LOAD_EXAMPLE: &str = "\
Example:
  (presence_bench load --as script < run.json; cat) | presence_bench step";

/// What an event of a log is, and what the faults of events mean.
pub const EVENTS: &str = "\
Each event is a JSON object on a line, with `node`, a string, `event`, and by it:
  join, update        pid, topic, key, meta
  leave               pid, topic, key
  leave_all           pid
  broadcast, request  message
  extract             names, a list of nodes, and message
  deliver             from, a node, and message
  answer              from, message, which is the request, and sends, what it sent
  up, down, permdown  name, a node
  online              rows, what the node listed: node, pid, topic, key, meta of each
A message is any value by which it is known again among those of its sender, and
pid, topic, key and meta are any values. Each node's events stand in their order.
What a fault of events says (line L: KIND):
  NotJson       the line isn't one whole JSON object
  BadEvent      a key is missing or of another kind, or no event is called so
  TooManyNodes  the lines up to this one name more than 32 nodes
  NoNodes       no line has an event that can be taken
  Twice         the node sent a message of that value before
  NeverSent     no line sends that message; with --lenient the line is left out
  Circle        no order of the lines is possible; this one can't come
  TooLong       a line and a script have at most 1048576 bytes, a session more";

/// The whole script language, and what its faults mean.
pub const LANGUAGE: &str = "\
Script lines (words between spaces; a line that begins with # is a comment):
  nodes NAME ..                   the nodes, 1 to 32; this line comes first
  consoles NAME ..                the consoles, 1 to 16; they undo, back and unwind
  NODE join PID TOPIC KEY META    tracks a process under a topic and key
  NODE update PID TOPIC KEY META  changes the metadata of what is tracked
  NODE leave PID TOPIC KEY        tracks it no longer
  NODE leaveall PID               tracks nothing of the process any longer
  NODE broadcast                  sends what the node changed since it last did
  NODE extract NAME ..            sends all that the node holds of these nodes
  NODE deliver NAME NUMBER        takes in a message of NAME, by its number from 1
  NODE request                    asks for what others hold of the nodes it knows
  NODE answer NAME NUMBER         sends what a request of NAME asks for
  NODE up NAME                    takes NAME to be up
  NODE down NAME                  takes NAME to be down
  NODE permdown NAME              forgets NAME, which is down
  ACTOR undo NUMBER               takes a step back, if nothing follows from it
  ACTOR back NAME                 takes the last step of a node back
  ACTOR unwind NUMBER             takes a step back with all that follows from it
  show NAME                       prints who is online at a node
  dots NAME                       prints what a node has seen of each node
  why NUMBER                      prints a step and all that follows from it
  journal                         prints the steps that remain
A step prints NUMBER ok, an undo undone NUMBER, a refusal no and its name; then
come the rows that left (-) and joined (+) the online list of the step's node.
With the subcommand step, a line that can't be taken is told and changes nothing;
these are for it alone:
  :save                           prints the session so far
  :steps                          prints each act above what it printed
  :script                         prints the acts as a script
  :draw                           prints a picture, in SVG
  :sent NODE                      prints what a node has sent
  :explain NODE TOPIC KEY         tells why somebody is online at a node, or isn't
  :whatif NODE TOPIC KEY          tells what would have made a difference to that
  :help                           prints this text
  :quit                           ends it
What a fault of a line says (line L: KIND):
  NotText      a tab, a carriage return or UTF-8 stands there: ASCII and spaces alone
  BadName      a name is 1 to 16 of a-z 0-9 _ and no word above; or no node has it
  UnknownWord  no verb above is written so, or nobody has this name
  WrongCount   the line has more or fewer words than above
  BadNumber    a number has digits alone, and no zero in front
  Twice        a name stands twice, or a line of nodes or consoles does
  NotAllowed   a console undoes, goes back and unwinds; a race takes no reads or unwinds
  NoNodes      the first line is that of the nodes; a session is for load
  TooLong      a word has 200 bytes at most, a line 4096, a script 1048576";
