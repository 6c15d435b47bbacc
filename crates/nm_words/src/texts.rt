//! What `--help` and `--version` print.

/// The text of `--help`.
pub const HELP: &str = "\
Compiles a nesC application for an MSP430 mote, and runs its image on a model of that mote.

Usage: nescmote MODE APP [SCHEDULE] [--budget N]

Modes:
  check APP            report the data races of the application APP
  build APP            compile it, and print the report and the image
  run APP SCHEDULE     the same, and run the image
  mote IMAGE SCHEDULE  run the image in the file IMAGE
  gen N                build an application of N modules, and count what its run does

APP is read from the file APP.nc. SCHEDULE is a file of what happens to the mote: lines
`SLOT arrive DEVICE VALUE`, in the order of their slots. The N of gen is from 1 to 60.

Options:
  --budget N     slots to run, from 0 to 1000000 [default: 10000]
  -h, --help     print this help
  -V, --version  print the version
";

/// The text of `--version`.
pub const VERSION: &str = "nescmote 0.1.0\n";
