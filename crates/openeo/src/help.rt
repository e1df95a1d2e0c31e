// What `--help` and `--version` print.
ghost use Rattle.std.specs.Prelude.{◌≡◌, ◌↔◌, ◌⊎◌, IsSome, codes};
ghost use Rattle.openeo.specs.Ends.{AsksForText, IsTextWord, IsVerb};

use oe_dims::Text;

const HELP: &str = "\
openeo: an openEO back end whose answers are exact

Usage:
  openeo run CX CY CT W            read a process graph and write its result text
  openeo part CX CY CT W FIRST END evaluate the chunks FIRST to END - 1 of that run and write their part file
  openeo join                      read a process graph and write its result text from all parts of its run
  openeo check                     read a process graph and write 'valid', or say which fault stands in it
  openeo explain                   the same, and say of a fault which argument it is of and what to do
  openeo slab CX CY CT             the same as run, where slabs of CT dates are folded one after the other
  openeo plan CX CY CT W           read a process graph and write how many cells a run holds at most, and its chunks
  openeo slabplan CX CY CT         the same of a run by slab
  openeo demo SEED SIDE CX CY CT W evaluate a graph over a generated collection and write its first and last cell
  openeo pack ID                   read a result text and write it as a cube file
  openeo repack ID                 write the cube file of a collection, as short as it can be
  openeo describe [ID]             write which collections are mounted, or the dimensions and labels of one
  openeo serve PORT CX CY CT W TURNS
                                   answer the openEO API by HTTP at 127.0.0.1:PORT, and run its batch jobs
  openeo client HOST PORT TOKEN VERB [ARG]
                                   call an openEO back end and write what it answers
  openeo --help                    print this text; after a command, the text about that command
  openeo --version                 print the version

Graphs and texts are read from standard input, and what a command gives goes to standard output.

CX, CY, CT  the sides of a chunk along x, y and t, from 1 to 4096
W           the number of workers, from 1 to 64; neither these nor the sides have an effect on the result
FIRST, END  chunks of a run by their numbers from 0, END one past the last, up to the number that plan says
SEED, SIDE  what a generated collection is made from, from 0 to 1000000000, and its pixels a side, from 1 to 1024
ID          the id of a collection: 1 to 64 letters, digits, '_', '-' and '.'

Collections are the files collections/*.cube below the working directory, each by the id that stands in the file, and
behind them the mosaics collections/*.mosaic; there are 64 at most. The lines of a mosaic's file are an id and 1 to 16
names of cube files of that folder, of which together it makes one collection: it has all their labels, and where they
overlap the cells of the earlier file. Parts are the files parts/*.part, which join alone
opens; there are 1024 at most. A run keeps its cells in a file of its own, which is made beside that folder as
openeo.spool and has no name from then on.

Exit status, and the line on standard error:
  0   the whole text was written
  1   Usage: the words are no command
  2   CODE NODE: the least fault of a graph; CubeTextInvalid: the input of pack, also one over 1048576 bytes;
      CollectionNotFound: the id of repack or describe; NoTimeFold: slab or slabplan finds no reduction of t to cut at;
      ChunkRange: part names chunks that the run has not; PartGraphDiffers, PartShapeDiffers, PartSidesDiffer or
      PartOverlaps NAME: this part of join is of another graph, result or size of chunks, or has a chunk twice;
      ChunkMissing N: no part has this chunk;
      InputTooLong: what client sends is over 1048576 bytes
  3   PlanTooLarge CELLS: a run would hold more than 67108864 cells; try smaller chunks or extents
  4   NumberOverflow NUMBER: this cell of the result, counted row by row from 0, is out of range
  5   ReadFault: the input, a collection or a part could not be read
  6   SourceDamaged ID NUMBER: this cell of the collection, counted so too, is damaged;
      PartDamaged NAME NUMBER: this part has no record for this cell of the result
  7   SpoolFault: the file of the run's cells could not be read or written
  8   WriteFault: standard output could not be written
  9   OutOfMemory: an allocation was refused
  10  KeeperFault: the database of serve could not be read or written
  11  LinkFault: no connection came, or it broke, or the back end took too long; serve could not have its port
  12  PeerInvalid: what the back end answered is no response that client reads, or to all no page of the list
  13  Refused STATUS: the back end refused the call; its own words are on the next line
  14  Setup NAME: this file could not be opened, made or mounted; bytes that do not print are \\x and two digits
  15  SpoolDamaged NUMBER: the file of the run's cells gave back what was not written
";

const RUN: &str = "\
openeo run CX CY CT W < GRAPH

Reads a process graph from standard input, evaluates it over the files of collections and writes its result text.
CX, CY and CT are the sides of a chunk along x, y and t, from 1 to 4096, and W is the number of workers, from 1 to 64.
None of the four has an effect on the text. All four cost memory: a run holds 2 W chunks at once, with the pixels around
them that kernels need; 'openeo plan' with the same words says how many cells, of 24 bytes each. Small sides cost time,
since each chunk is read with what is around it.
While it works, and standard error is a terminal, a line 'chunk K of N' there tells how many of its chunks were begun.
Exit status: 0, 1 Usage, 2 CODE NODE, 3 PlanTooLarge, 4 NumberOverflow, 5 ReadFault, 6 SourceDamaged, 7 SpoolFault,
8 WriteFault, 9 OutOfMemory, 14 Setup, 15 SpoolDamaged.
";

const PART: &str = "\
openeo part CX CY CT W FIRST END < GRAPH > FILE

Evaluates the chunks FIRST to END - 1 of the run that 'openeo run CX CY CT W' makes of the graph, and writes their part
file. 'openeo plan' with the same words says how many chunks there are: parts that have each chunk once are joined by
'openeo join', wherever and in whatever order they were made. W has no effect on the file. FIRST is below END.
While it works, and standard error is a terminal, a line 'chunk K of N' there tells how many of its chunks were begun.
Exit status: 0, 1 Usage, 2 CODE NODE or ChunkRange, 3 PlanTooLarge, 5 ReadFault, 6 SourceDamaged, 7 SpoolFault,
8 WriteFault, 9 OutOfMemory, 14 Setup, 15 SpoolDamaged.
";

const JOIN: &str = "\
openeo join < GRAPH

Writes the result text of the graph from the files parts/*.part: the text that 'openeo run' writes. They are parts of the
run of this very text, byte for byte, in chunks of one size, and have each chunk once. The labels of the collections are
looked at and no cell of them is read.
Exit status: 0, 1 Usage, 2 CODE NODE, PartGraphDiffers, PartShapeDiffers, PartSidesDiffer, PartOverlaps or ChunkMissing,
4 NumberOverflow, 5 ReadFault, 6 PartDamaged, 7 SpoolFault, 8 WriteFault, 9 OutOfMemory, 14 Setup, 15 SpoolDamaged.
";

const SLAB: &str = "\
openeo slab CX CY CT < GRAPH

Reads a process graph from standard input and writes its result text, as run does, but holds only CT dates of a long
series at once: in each chunk it evaluates slabs of at most CT dates one after the other and folds them. It needs a
reduction of t that goes date by date, by one of sum, product, mean, min, max, first, last, any, all and count, which is
the only node that needs all dates and through which all goes that is loaded. CX, CY and CT are from 1 to 4096 and have
no effect on the text; 'openeo slabplan' with the same words says how many cells it holds, of 24 bytes each. It has one
worker. While it works, and standard error is a terminal, a line 'chunk K of N' there tells how many chunks were begun.
Exit status: 0, 1 Usage, 2 CODE NODE or NoTimeFold, 3 PlanTooLarge, 4 NumberOverflow, 5 ReadFault, 6 SourceDamaged,
7 SpoolFault, 8 WriteFault, 9 OutOfMemory, 14 Setup, 15 SpoolDamaged.
";

const CHECK: &str = "\
openeo check < GRAPH

Reads a process graph from standard input and writes 'valid', or says which fault stands in it. No collection is read.
Exit status: 0, 1 Usage, 2 CODE NODE, 5 ReadFault, 8 WriteFault, 9 OutOfMemory, 14 Setup.
";

const EXPLAIN: &str = "\
openeo explain < GRAPH

Reads a process graph from standard input and writes 'valid', or lines that explain the fault that check names: its code,
its node, the argument that it is of, what that argument must hold, and what to do; of a text that is no JSON also where
reading stopped. No collection is read. Status and standard error are those of check.
Exit status: 0, 1 Usage, 2 CODE NODE, 5 ReadFault, 8 WriteFault, 9 OutOfMemory, 14 Setup.
";

const PLAN: &str = "\
openeo plan CX CY CT W < GRAPH

Reads a process graph from standard input and writes 'bound B chunks N': a run with these words holds at most B cells
at once, and has N chunks. The words are those of run. No collection is read.
Exit status: 0, 1 Usage, 2 CODE NODE, 5 ReadFault, 8 WriteFault, 9 OutOfMemory, 14 Setup.
";

const SLABPLAN: &str = "\
openeo slabplan CX CY CT < GRAPH

Reads a process graph from standard input and writes 'bound B chunks N': a run by slab with these words holds at most B
cells at once, and has N chunks. No collection is read.
Exit status: 0, 1 Usage, 2 CODE NODE or NoTimeFold, 5 ReadFault, 8 WriteFault, 9 OutOfMemory, 14 Setup.
";

const DEMO: &str = "\
openeo demo SEED SIDE CX CY CT W

Evaluates a kernel of 3 x 3 ones and the greatest cell of the bands over a collection that is generated from SEED, 0 to
1000000000, with SIDE pixels a side, 1 to 1024. It writes 'cells N first A last B'. The other words are those of run,
and so is the line on a terminal.
Exit status: 0, 1 Usage, 3 PlanTooLarge, 4 NumberOverflow, 7 SpoolFault, 8 WriteFault, 9 OutOfMemory, 14 Setup,
15 SpoolDamaged.
";

const PACK: &str = "\
openeo pack ID < TEXT > ID.cube && sync ID.cube && mv ID.cube collections/

Reads a result text of at most 1048576 bytes from standard input and writes it as a cube file of the collection ID: 1 to
64 letters, digits, '_', '-' and '.'. The file may have any name that ends in .cube. It is written beside the folder and
moved in once it is whole and on the disk: each command opens all files of the folder before it begins.
A cube whose text is longer is written as a cube file by a program of one's own; docs/formats.md has the form, and
bench/year.py writes such files. repack then brings its cells to the least widths.
Exit status: 0, 1 Usage, 2 CubeTextInvalid, 5 ReadFault, 8 WriteFault, 9 OutOfMemory, 14 Setup.
";

const REPACK: &str = "\
openeo repack ID > ID.cube && sync ID.cube && mv ID.cube collections/

Writes the cube file of the mounted collection ID in the least widths that hold its cells. It is written beside the
folder and moved in: written onto the file that is mounted it would empty it first. It reads each date twice; while it
works, and standard error is a terminal, a line 'chunk K of N' there tells how many of these reads were begun.
Exit status: 0, 1 Usage, 2 CollectionNotFound, 5 ReadFault, 6 SourceDamaged, 8 WriteFault, 9 OutOfMemory, 14 Setup.
";

const DESCRIBE: &str = "\
openeo describe [ID]

Writes the mounted collections as one line of JSON, as openEO's GET /collections has it: their ids, by rising ids, and
their extents. With an id it writes that collection as GET /collections/ID has it, with its dimensions: the names of its
bands, the first and the last label of t, the least and the greatest of y and x, and the reference system. No
collection is read.
Exit status: 0, 1 Usage, 2 CollectionNotFound, 8 WriteFault, 9 OutOfMemory, 14 Setup.
";

const SERVE: &str = "\
openeo serve PORT CX CY CT W TURNS

Answers the openEO API by HTTP at http://127.0.0.1:PORT/, one request a connection, and runs the batch jobs of its users
between them. PORT is from 1 to 65535. CX, CY, CT and W are those of run; all results are made with them. TURNS is from
0 to 4294967295: a turn takes the next connection, where one has come or no job is to be run, answers it, and then does
one step of a job; after so many turns the server ends.

What it works on lies in the working directory:

  collections/*.cube, collections/*.mosaic
                      the collections
  tokens.txt          the users: lines of a name, one blank and a token, 8 at most. Without this file there are none. A
                      request of theirs has the field 'Authorization: Bearer basic//TOKEN'
  openeo.db           jobs, their results, and stored processes. It is made where it is missing; one server has it
  openeo.spool        the cells of the runs under way, without a name once it is open

Each change is in the database before it is answered. So a server may be ended at any moment, by a signal too: started
again, it has all jobs that were answered, and begins the one that ran once more. Nothing is encrypted: docs/operate.md
puts a web server in front. Each request is told on standard error where that is a terminal, always with OPENEO_LOG=1,
and never where OPENEO_LOG is set to anything else.
Exit status: 0, 1 Usage, 9 OutOfMemory, 10 KeeperFault, 11 LinkFault, 14 Setup.
";

const CLIENT: &str = "\
openeo client HOST PORT TOKEN VERB [ARG]

Makes one call of an openEO back end by HTTP, or by all one a page, and writes the body of its response. Where the back
end refuses the call, the line 'openeo: Refused STATUS' is written on standard error, and its own words on the next.
HOST is a name or an address, of IPv6 without brackets; PORT is from 1 to 65535; TOKEN is the user's token, and '-'
sends none. ID is the id of a job or of a stored process, and LIST is collections, processes, jobs or process_graphs,
which all asks for by pages of 100, one call a page, and of which it writes each page with a line feed. Verbs:

  all LIST           all pages of a list               openeo client localhost 8080 abc all jobs
  collections        all collections                   openeo client localhost 8080 - collections
  processes          all processes                     openeo client localhost 8080 - processes
  validate           faults of a graph, from stdin     openeo client localhost 8080 abc validate < GRAPH
  result             the result of a job, at once      openeo client localhost 8080 abc result < JOB > RESULT
  jobs               the user's jobs                   openeo client localhost 8080 abc jobs
  create             a new job, from stdin             openeo client localhost 8080 abc create < JOB
  status ID          what is known of a job            openeo client localhost 8080 abc status j-1
  start ID           queue a job                       openeo client localhost 8080 abc start j-1
  cancel ID          cancel a job                      openeo client localhost 8080 abc cancel j-1
  delete ID          delete a job                      openeo client localhost 8080 abc delete j-1
  logs ID            a job's log entries               openeo client localhost 8080 abc logs j-1
  logsafter ID/N     those after the entry N           openeo client localhost 8080 abc logsafter j-1/20
  results ID         a job's assets                    openeo client localhost 8080 abc results j-1
  asset ID/NAME      one asset of a job                openeo client localhost 8080 abc asset j-1/save.json > RESULT
  processgraphs      the user's stored processes       openeo client localhost 8080 abc processgraphs
  store ID           store a process, from stdin       openeo client localhost 8080 abc store ndvi < GRAPH
  forget ID          delete a stored process           openeo client localhost 8080 abc forget ndvi

GRAPH is an object with the member process_graph, as 'openeo run' takes it, and JOB one whose member process is a GRAPH.
What is sent has at most 1048576 bytes, and what comes back 16777216. A connection may take 10 seconds, and an answer an
hour. No redirection is followed, no proxy is asked, and nothing is encrypted.
Exit status: 0, 1 Usage, 2 InputTooLong, 5 ReadFault, 8 WriteFault, 9 OutOfMemory, 11 LinkFault, 12 PeerInvalid,
13 Refused STATUS, 14 Setup.
";

const VERSION: &str = "openeo 1.0.0 (openEO API 1.2)\n";

/// The text that the words ask for, if they ask for one: `--help` or `--version`, alone or after the word of a command.
pub fn text_of(words: &[Text]) -> Option<&'static str>
    ensures { IsSome result ↔ AsksForText words.now }
{
    match words {
        [word] => text_of_word(word.as_str(), HELP),
        [verb, word] => text_of_word(word.as_str(), help_of(verb.as_str())?),
        _ => None,
    }
}

/// The version, or this help.
fn text_of_word(word: &str, help: &'static str) -> Option<&'static str>
    ensures { IsSome result ↔ IsTextWord word.now }
{
    if word == "--help" {
        Some(help)
    } else if word == "--version" {
        Some(VERSION)
    } else {
        None
    }
}

/// The text about one command, by its word.
fn help_of(verb: &str) -> Option<&'static str>
    ensures { IsSome result ↔ IsVerb verb.now }
{
    match verb {
        "run" => Some(RUN),
        "part" => Some(PART),
        "join" => Some(JOIN),
        "check" => Some(CHECK),
        "explain" => Some(EXPLAIN),
        "plan" => Some(PLAN),
        "slab" => Some(SLAB),
        "slabplan" => Some(SLABPLAN),
        "demo" => Some(DEMO),
        "pack" => Some(PACK),
        "repack" => Some(REPACK),
        "describe" => Some(DESCRIBE),
        "serve" => Some(SERVE),
        "client" => Some(CLIENT),
        _ => None,
    }
}
