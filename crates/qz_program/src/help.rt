//! What the program tells of itself.

pub const VERSION: &str = "qz_sched 0.4.0\n";

pub const HELP: &str = "usage: qz_sched < LINES           a script on new stores in memory
       qz_sched init              new stores in the current folder
       qz_sched script < LINES    a script on the stores of the current folder
       qz_sched load < DOCUMENT   jobs and triggers into the stores of the current folder
       qz_sched list              what the stores of the current folder hold
       qz_sched history FROM      what was done behind transaction FROM, as lines of scripts
       qz_sched migrate           takes a trigger store of format version 1 to version 2
       qz_sched follow < STREAM   new stores from the bytes of a trigger store
       qz_sched compact < STREAM  the same, with a snapshot in place of the entries
       qz_sched run NODES FROM UNTIL [BUDGET]
                                  nodes work on the stores of the current folder, on a
                                  clock that begins at FROM, up to UNTIL
       qz_sched serve NODES UNTIL [LOOKS]
                                  nodes work on the stores of the current folder, each in
                                  threads of its own, until the system's clock shows UNTIL;
                                  LOOKS lines of a status board, and a last one, show how
                                  that went on
       qz_sched gen SEED JOBS DAYS
                                  jobs and triggers from a number, run on new stores
       qz_sched times AFTER COUNT < LINES
                                  the first COUNT fire times after AFTER of each trigger

Each line of standard input is one JSON object, and each step is answered by one line
on standard output.

  {\"do\":\"add_job\",\"at\":1704067200000,\"job\":{\"name\":\"report\",\"class\":\"ok\"}}
  {\"do\":\"add_trigger\",\"at\":1704067200000,\"trigger\":{\"name\":\"t1\",\"job\":\"report\",\"kind\":\"simple\",\"start\":1704067200000}}
  {\"do\":\"join\",\"at\":1704067200000,\"node\":\"A\"}
  {\"do\":\"acquire\",\"at\":1704067200000,\"node\":\"A\",\"no_later\":1704067200000}
  {\"do\":\"fire\",\"at\":1704067200000,\"node\":\"A\",\"entry\":1}
  {\"do\":\"complete\",\"at\":1704067200000,\"node\":\"A\",\"entry\":1}

Times are in milliseconds since 1970-01-01T00:00:00Z: 1704067200000 is midnight on
1 January 2024. A line may have its own clock reading as \"at\", as these have. A line of
times is one of

  {\"do\":\"add_zone\",\"name\":\"CET\",\"stretches\":[[0,3600],[1711846800000,7200],[1729990800000,3600]]}
  {\"do\":\"add_trigger\",\"trigger\":{\"name\":\"c\",\"job\":\"j\",\"start\":0,\"kind\":\"cron\",\"cron\":\"0 0 2 * * ?\",\"zone\":\"CET\"}}

A zone is a table: from when on, and how many seconds ahead of UTC. Its last line stays
for ever, so list the changes of all years that you need. This one has those of 2024.

The stores are the files qz-triggers.store and qz-states.store. One program at a time may
work on them. Standard error says what ended a call early:

  status 1  bad words                  status 7   the journal is full
  status 2  a bad line                 status 8   the budget of a run is spent
  status 3  read fault                 status 9   no memory
  status 4  write fault                status 10  the stores exist already
  status 5  disk fault                 status 11  too many rows
  status 6  no store, or a damaged one status 12  an old store: see migrate
  status 14 a node of serve was fenced status 13  a bad stream

--help and --version, as the only word, print this text and the version.
";
