// What the program says on standard error where its words are no command.

/// The name and the version of the program, its commands, and where the manual is. The version stands here alone: releases and tools read it
/// from here.
pub const HELP: &str =
    "fmeda 1.0.0: hardware metrics of ISO 26262-5 for a gate-level netlist, by fault injection
usage: fmeda COMMAND FILES [OPTIONS]

  classes NETLIST WORKLOAD             the class of each stuck-at fault, without alarms
  check INPUTS                         checks the input files; the size of the campaign
  run INPUTS RESULT                    runs a campaign, prints its report; what was in RESULT is lost
  resume INPUTS RESULT                 finishes a campaign that was stopped
  audit INPUTS RESULT                  simulates the rows of a result file anew
  report INPUTS                        the report, without a result file
  shard INPUTS RESULT                  a part of a campaign, for many machines
  merge INPUTS RESULT FIRST SECOND     one result file of two
  reweigh INPUTS RESULT NEW NEWRESULT  a result file by the rates of NEW, without a simulation
  parts NETLIST RATES                  which nets each row of the rates takes
  faults INPUTS RESULT                 all faults, as CSV
  breakdown INPUTS                     metrics by goal, without each alarm, by interval
  latencies INPUTS                     when each fault shows and is noticed
  coverage INPUTS                      what the metrics rest on, and their bounds
  trace NETLIST WORKLOAD               waves of a run, and of a fault
  always NETLIST RATES POINTS HELD     what the alarms cover for every workload
  progress INPUTS RESULT               bounds of each metric, while a campaign runs
  pairs INPUTS RESULT                  faults that harm beside a latent one
  gen STAGES RESULT                    a generated campaign

INPUTS are NETLIST WORKLOAD RATES POINTS. Options and files: man fmeda, or man docs/fmeda.1 in the sources.
Refusals are one line on standard output, and an exit status of their own.";
