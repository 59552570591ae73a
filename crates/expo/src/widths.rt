//! How many variables polynomials have that are exponential in n.
ghost use Rattle.std.specs.Prelude.{◌≡◌, ◌≤◌};
ghost use Rattle.solvable_maps.specs.Iterations.{width};
ghost use Rattle.monos.specs.Variables.{most_variables};

/// How many variables a polynomial over a base of so many numbers has, with `vars` of its own: n, s, a u and a v for each number, and these.
pub fn width(numbers: usize, vars: usize) -> usize
    requires { width numbers vars ≤ most_variables }
    ensures { result ≡ width numbers vars }
{
    2 + 2 * numbers + vars
}
