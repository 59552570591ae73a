//! The loops that `gen` analyses, numbered from 1, as texts; and the text of what is counted over their bases.

ghost use Rattle.std.specs.Prelude.{◌≡◌, ◌<◌, string_bytes, IfOk};
ghost use Rattle.loop_text.specs.Family as family;

use crate::family_counts::Counts;
use std::alloc::{AllocError, Global};

/// The text of the loop with this number, which counts from 1: two variables that grow by powers of one number, a sum, and a counter.
pub fn loop_text(alloc: Global, number: u32) -> Result<String, AllocError>
    requires { 0 < number }
    ensures { IfOk result (λ text. string_bytes text ≡ family.loop_text number) }
{
    let place = number - 1;
    let base = 2 + place / 64;
    let first = 1 + place % 8;
    let second = 1 + place / 8 % 8;
    format!(in alloc;
        "vars x, y, z, w; init x=1, y=1, z=0, w=0; \
         branch {{ x={base}^{first}*x; y={base}^{second}*y; w=w+z; z=z+1; }}"
    )
}
