//! An example of each library: `tools/crate-examples` puts it at the head of the library's root file.
mod of_capture_datagrams;
mod of_capture_dumps;
mod of_capture_dumps_hex;
mod of_capture_files;
mod of_capture_files_packets;
mod of_diagnose_exchanges;
mod of_diagnose_judge;
mod of_diagnose_text;
mod of_snmpsec_access;
mod of_snmpsec_access_hints;
mod of_snmpsec_causes;
mod of_snmpsec_cli;
mod of_snmpsec_commands;
mod of_snmpsec_io;
mod of_snmpsec_io_files;
mod of_snmpsec_output;
