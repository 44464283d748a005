// `nakvisk plan`: the listing of the plan that the sheets give.
use super::failure::{Failure, unsaid};
use super::sheets_file::{open_sheets, plan_in, warn_of_unmapped};
use listing::lister::{LISTING_SIZE, list_plan};
use plans::plan::Plan;
use std::io::Print;

// Writes the listing of a plan to standard output.
fn print_plan(rt: &HostRuntime, plan: &Plan) -> Result<(), Failure> {
    let mut text = [0u8; LISTING_SIZE];
    // the plan of sheets is sound, and so never refused
    let length = list_plan(*plan, &mut text).unwrap_or(0);
    rt.write_all(&text[..length]).map_err(|e| unsaid(rt, "", e))
}

pub(crate) fn list(rt: &HostRuntime, sheets: &str) -> Result<(), Failure> {
    let opened = open_sheets(rt, sheets)?;
    let plan = plan_in(rt, &opened, sheets)?;
    drop(opened);
    print_plan(rt, &plan)?;
    warn_of_unmapped(rt, &plan);
    Ok(())
}
