// The planner's call for C and Rust, with 01's number as its answer and 01's length beside it.
ghost use Rattle.planner.specs.Planning.{Planning};

use records::answers::number;

// The plan of a sheet, or why there is none; `written` is 01's length at every number.
#[unsafe(no_mangle)]
pub extern "C" fn gongperch_plan(sheet: &[u8], plan: &mut [u8], written: &mut u64) -> u32
    ensures { Planning sheet.now plan.old result written.new plan.new }
{
    let answer = planner::plan(sheet, plan);
    *written = planner::length(&answer);
    number(&answer)
}
