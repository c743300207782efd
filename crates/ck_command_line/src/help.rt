//! What `--help` says of the program and of its commands, beside their usage and their options.

pub(crate) const VERSION: &str = "0.1.0";

pub(crate) const PROGRAM: &str =
    "Says whether a stream of Cucumber Messages is a true report of its run, and compiles Gherkin.";

pub(crate) const PROGRAM_USAGE: &str = "cukecheck <COMMAND> [OPTIONS] < FILE";

pub(crate) const AFTER_PROGRAM: &str =
    "Every command reads standard input and prints on standard output. Give it a file by a redirect;
`gate` takes the names of files too:

  cukecheck gate < run.ndjson && deploy
  cukecheck audit < run.ndjson
  cukecheck compile --uri features/a.feature < features/a.feature

Exit status:
  0  done; by gate: the stream is a true report, and its run is to be released;
     by audit: the stream is a true report, whether its tests passed or failed
  1  gate, audit, cases, results: the stream is bad;
     parse, compile: the feature file is refused
  2  a mistake in the words
  3  trouble: a read or a write failed, the input is too long or no UTF-8, or there is no memory
  4  gate, audit, cases: the stream isn't judged
  5  gate: the report is true, and the run isn't to be released

`cukecheck COMMAND --help` says what a command reads and prints.";

pub(crate) const PARSE: &str =
    "Says what a feature file is: how many nodes it has, or where it is refused and why.";

pub(crate) const PARSE_USAGE: &str = "cukecheck parse < FILE";

pub(crate) const AFTER_PARSE: &str =
    "Reads a feature file (Gherkin, in English) from standard input:

  cukecheck parse < features/a.feature

Prints one line, with the exit status after it:
  ok nodes=N comments=C               0  the file is Gherkin
  refused LINE:COLUMN 1 Unexpected    1  a line of this kind can't come here
  refused LINE:COLUMN 2 TagSpace      1  a tag holds white space
  refused LINE:COLUMN 3 CellCount     1  a row has another count of cells than the table's first
  refused LINE:COLUMN 4 UnsupportedLanguage
                                      1  the language line names another language than English
  refused LINE:COLUMN 5 UnexpectedEnd 1  the file ends too early
  refused 0:0 6 TooLong               1  there are more than 16,777,216 bytes or 1,000,000 lines
  trouble NotUtf8, ReadFailed, Memory 3  the bytes are no UTF-8; a read failed; there is no memory
Lines and columns count from 1, columns in characters.";

pub(crate) const COMPILE: &str =
    "Writes the messages of a feature file: its source, its document and its pickles.";

pub(crate) const COMPILE_USAGE: &str = "cukecheck compile --uri <URI> < FILE";

pub(crate) const AFTER_COMPILE: &str =
    "Reads a feature file (Gherkin, in English) from standard input:

  cukecheck compile --uri features/a.feature < features/a.feature

Prints one JSON object a line, as Cucumber Messages have them: `source`, `gherkinDocument` and, in
order, each `pickle`, with exit status 0. Where the file is refused it prints what `parse` prints,
and no message, with exit status 1; or `trouble NotUtf8`, `trouble ReadFailed` or `trouble Memory`
with 3.";

pub(crate) const URI: &str =
    "The uri of the feature file, as its messages name it; it isn't opened";

pub(crate) const AUDIT: &str =
    "Says whether a stream of Cucumber Messages is a true report of its run, passed or failed.";

pub(crate) const AUDIT_USAGE: &str = "cukecheck audit [OPTIONS] < FILE";

pub(crate) const AFTER_AUDIT: &str =
    "Reads a stream of Cucumber Messages (one JSON object a line) from standard input:

  cukecheck audit < run.ndjson

Prints one line, with the exit status after it:
  good sources=S pickles=P cases=C attempts=A   0  the stream is a true report, of a failed run too
  good .. unrun=U                               0  the same, and U pickles have no test case
  bad line L: N Name                            1  no good stream begins with the lines up to L;
                                                   or L is past the last, and the stream ends early
  unsupported line L: N Name                    4  line L shows why the stream isn't judged
  trouble Name                                  3  the stream can't be read to its end,
                                                   or there is no memory
Lines count from 1, blank ones too; a fault at the end has the number of lines plus 1.

bad:
   1 NotJson                  The line is no JSON value in UTF-8, or nests more than 127 deep.
   2 Shape                    The line is no object, or has two judged kinds, or a judged kind that
                              is no object.
   3 Field kind.member        A member is missing or has another type.
   4 DuplicateId              An id was declared before for the same kind, or is twice in the line;
                              --allow-redeclared lets hooks and step definitions come again.
   5 DuplicateUri             The uri has a source already, or a document.
   6 UnknownReference         It refers to something that no line before declares.
   7 DocumentOfRefusedSource  The document's source doesn't parse.
   8 TreeDiffers              The document isn't that of its source.
   9 PickleDiffers            The pickle isn't the source's next one, or there is no next one.
  10 ParseErrorOfGoodSource   The source of the parse error parses.
  11 CaseStepsDiffer          The test case's steps, hooks aside, aren't its pickle's in order.
  12 AttemptNumber            The number isn't N plus the count of attempts of the case that started
                              before, where N is 0 or what `--attempts-from` says.
  13 AttemptOverlap           An attempt of the case is unfinished, or its last won't be retried.
  14 StepOrder                The step isn't the next to start, or not the one that runs; or the
                              attempt is finished.
  15 FinishedEarly            The attempt finishes before each step of its case.
  16 SecondRunStarted         The run has started before.
  17 OutsideRun               The run hasn't started.
  18 AfterRunFinished         The run has finished before.
  19 AttemptOpen              The run finishes while an attempt isn't finished.
  20 SourceIncomplete         The run finishes, and a source lacks its document or some pickles.
  21 SuccessDiffers           The success that is reported isn't what the lines before show.
  22 NoRunFinished            The stream ends, and the run hasn't finished.
  23 RunHookOpen              The run finishes while a run hook isn't finished.
  24 RunHookTwice             The run hook is finished already.

unsupported:
   1 Language                 The source is in another language than English.
   2 MediaType                The source is no plain Gherkin.
   3 UnknownStatus            The status of a step or a run hook is UNKNOWN.
   5 SourceTooLong            The source has more than 16,777,216 bytes or 1,000,000 lines.

trouble:
  ReadFailed     A read failed.
  LineTooLong    A line has more than 67,108,864 bytes.
  StreamTooLong  The stream has more than 1,073,741,824 bytes.
  WriteFailed    A write failed.
  Memory         There is no memory.";

pub(crate) const GATE: &str =
    "Says whether to release a run: its report is true and says success, and each scenario ran.";

pub(crate) const GATE_USAGE: &str = "cukecheck gate [OPTIONS] [--features <PATH>].. [RUN]..";

pub(crate) const AFTER_GATE: &str =
    "Reads a stream of Cucumber Messages (one JSON object a line) from standard input or each RUN:

  cukecheck gate < run.ndjson && deploy
  cukecheck gate --features features first.ndjson second.ndjson && deploy

Prints the line that `audit` prints, and a second one where the report is true:
  good ..               0  the run is to be released, and the second line counts what it lets pass
  bad line L: N Name    1  no good stream begins with the lines up to L; or L is past the last
                           line, and the stream ends early
  trouble Name          3  the stream can't be read to its end, or there is no memory
  unsupported line ..   4  the stream isn't judged
  good ..               5  the report is true, and the run isn't to be released; the second line
                           says why:
  stop NotSuccessful         The run says no success.
  stop Empty                 There is no test case.
  stop Unrun                 A pickle has no test case (not with --allow-unrun; nor with
                             --allow-unrun-tagged, where it has one of the tags).
  stop Retried               A pickle has more than one attempt (with --no-retries).
  stop Skipped               A step of a case's last attempt was skipped (with --no-skips).
  stop Stepless              A test case is of a pickle without steps (with --no-stepless).
  stop Undefined             A step passed that no step definition matches (with --no-undefined).
Where more than one of these holds, the second line has the first of them. Below the answer stand
its reasons, a line each: the id, the file, or the scenario with its attempt that a line is about;
the step or hook that was due there, and the one that came; what the feature file has, and what the
stream has; each scenario that is open, missing, unrun, retried, skipped or stepless, and each step
that passed undefined; and each cause of a run without success, by its step, hook or file.
Scenarios stand there as `cukecheck cases` shows them, and steps in the same way.
Of a run that is to be released the second line is `release retried=R skipped=S unrun=U`: how many
pickles have more than one attempt, how many cases have a skipped step in their last attempt, and
how many pickles have no test case.
With RUN each line begins with its name and `: `.
With --features each scenario of the feature files has to run in one of the runs, and no run has to
have them all. Of the files it prints:
  release files=F scenarios=S retried=R skipped=K unrun=U
                        0  each of the S scenarios of the F files ran, U aside whose tag lets them;
                           R and K are counted as above
  stop Missing          5  below it stand a line for each file that is refused, as `parse` refuses
                           it, and one for each scenario that ran in none of the runs:
  REFUSED PATH:LINE:COLUMN N Name
  MISSING PATH:LINE NAME
  trouble Name PATH     3  the feature files can't be read, and Name says why:
  trouble ReadFailed PATH    Nothing is there, or a read failed.
  trouble NotUtf8 PATH       It isn't UTF-8, or a name in the folder isn't.
  trouble NoFeatures PATH    The folder has no feature file.
  trouble LinkedFolder PATH  It is a link to a folder.
Status 2 is for a mistake in the words. `cukecheck audit --help` explains the numbers and names.
Without these options a scenario without steps counts as passed, and a run whose every step was
skipped is released.";

pub(crate) const RUN: &str =
    "The file of a stream; `-` is standard input, which is read where no RUN is given";

pub(crate) const FEATURES: &str =
    "A feature file, or a folder with some below it; each scenario must run in one of the runs";

pub(crate) const ALLOW_UNRUN: &str =
    "A run may be released that has pickles without a test case, as where a filter was used";

pub(crate) const ALLOW_UNRUN_TAGGED: &str =
    "The same of pickles with this tag alone, as @wip; it may be given several times";

pub(crate) const NO_RETRIES: &str = "No pickle may have more than one attempt";

pub(crate) const NO_SKIPS: &str = "No step of a case's last attempt may be skipped";

pub(crate) const NO_STEPLESS: &str = "No test case may be of a pickle without steps";

pub(crate) const NO_UNDEFINED: &str = "No step may pass that no step definition matches";

pub(crate) const STRICT: &str = "All four: --no-retries, --no-skips, --no-stepless, --no-undefined";

pub(crate) const PENDING_PASSES: &str = "PENDING is a good status too, beside PASSED and SKIPPED";

pub(crate) const ATTEMPTS_FROM: &str =
    "Number of a case's first attempt: 0 by the schema, 1 as cucumber-ruby counts [default: 0]";

pub(crate) const ALLOW_REDECLARED: &str =
    "A hook or step definition may be declared again, as cucumber-jvm does; it is passed over";

pub(crate) const NO_COMMAND: &str = "error: the words name no command

Usage: cukecheck <COMMAND> [OPTIONS] < FILE

For more information, try '--help'.
";

pub(crate) const WRONG_TAG: &str = "error: the value of '--allow-unrun-tagged <TAG>' begins with '@'

Usage: cukecheck gate --allow-unrun-tagged <TAG> [RUN]..

For more information, try '--help'.
";

pub(crate) const BOTH_UNRUN: &str =
    "error: '--allow-unrun' can't be used with '--allow-unrun-tagged <TAG>'

Usage: cukecheck gate [--allow-unrun | --allow-unrun-tagged <TAG>] [RUN]..

For more information, try '--help'.
";

pub(crate) const UNRUN_WITH_FEATURES: &str =
    "error: '--allow-unrun' can't be used with '--features <PATH>'

Usage: cukecheck gate [--allow-unrun | --features <PATH>] [RUN]..

For more information, try '--help'.
";

pub(crate) const TWO_INPUTS: &str = "error: '-' is standard input, which can be read once

Usage: cukecheck gate [OPTIONS] [RUN]..

For more information, try '--help'.
";

pub(crate) const WRONG_ATTEMPTS: &str = "error: the value of '--attempts-from <N>' is 0 or 1

Usage: cukecheck <COMMAND> --attempts-from <N> < FILE

For more information, try '--help'.
";

pub(crate) const RESULTS: &str =
    "Prints the id of each test case of a stream, with the worst status of its final attempt.";

pub(crate) const RESULTS_USAGE: &str = "cukecheck results [OPTIONS] < FILE";

pub(crate) const AFTER_RESULTS: &str =
    "Reads a stream of Cucumber Messages (one JSON object a line) from standard input:

  cukecheck results < run.ndjson

Prints, with the exit status after it:
  ID STATUS            0  for each test case, in order of declaration;
                          NONE where it has no final attempt
  bad line L: N Name   1  the first line that is no message, or at which cases and attempts come
                          in no possible order
  trouble Name         3  the stream can't be read to its end, or there is no memory
The numbers and names are those of `audit`, which says whether the report is true: ask it first.";

pub(crate) const CASES: &str =
    "Lists the test cases of a good stream by status, place and name, and pickles without one.";

pub(crate) const CASES_USAGE: &str = "cukecheck cases [OPTIONS] < FILE";

pub(crate) const AFTER_CASES: &str =
    "Reads a stream of Cucumber Messages (one JSON object a line) from standard input:

  cukecheck cases < run.ndjson

Audits it, and of a good stream prints these lines and no other, with exit status 0 whatever the
statuses are:
  STATUS URI:LINE NAME  for each test case, in order of declaration; STATUS as `results` has it
  UNRUN URI:LINE NAME   then for each pickle that no test case names, in order of the stream
LINE is that of the scenario, or of the row of examples, and NAME is the pickle's. In URI and NAME
a backslash is `\\\\`; \\b, \\t, \\n, \\f and \\r are written so, and each other character that could
break, turn or hide the line as \\u and four hexadecimal digits.
With --json each line is an object in its place:
  {\"attempts\":N,\"line\":LINE,\"name\":NAME,\"status\":STATUS,\"tags\":[TAG,..],\"uri\":URI}
N is how many attempts at the test case started, and each TAG the name of a tag, with its `@`. Each
character that could break, turn or hide the line, white space other than the space, and what has
no width is written as \\u and four hexadecimal digits.
Of any other stream it prints the line of `audit`, with its exit status:
  bad line L: N Name       1
  trouble Name             3
  unsupported line L: ..   4
`cukecheck audit --help` explains the numbers and names.";

pub(crate) const JSON: &str =
    "Each line is a JSON object, which has the tags and the number of attempts too";
