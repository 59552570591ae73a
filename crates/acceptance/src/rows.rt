// What a row calls.
use crate::calls::Given;
use crate::{calls, loop_answers, maps, outside, texts};
use std::alloc::{AllocError, Global};

/// What a row's call answers to its values.
pub(crate) fn answer(
    rt: &HostRuntime,
    given: &Given,
    call: &str,
    values: &[&str],
) -> Result<String, AllocError> {
    let alloc = rt.alloc();
    match call {
        "call" => calls::answer(alloc, given, values),
        "basis" | "member" => loop_answers::answer(alloc, call, values),
        "units" => loop_answers::answer_with_units(alloc, values),
        "memory" => outside::memory_reads(alloc, values),
        "system" | "sizes" => outside::system_reads(alloc, rt, call, values),
        "sink" => outside::writes(alloc, values),
        "loop" => maps::answer(alloc, &given.lp, values),
        "formed" => texts::form_sum(alloc, values),
        _ => texts::answer(alloc, call, values),
    }
}

pub(crate) fn no_such_row(alloc: Global) -> Result<String, AllocError> {
    String::from_str(alloc, "no such row")
}
