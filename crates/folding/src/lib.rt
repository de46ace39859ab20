// Waits, starts and registers of a sheet.
#![tactic(auto)]
