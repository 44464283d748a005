// Layout sheets: the reader of bit fields that all sheets have, and the reading of a layout sheet.
#![tactic(auto)]

pub mod layout_sheet;
pub mod sheet_reader;
