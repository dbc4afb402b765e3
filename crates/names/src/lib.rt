#![tactic(auto)]

ghost use Rattle.std.specs.Prelude.{◌≡◌, ◌≤◌};
ghost use Rattle.store.specs.Store.{jobs_max, levels_max};
ghost use Rattle.body.specs.Body.{job_lines, lines_before};
ghost use Rattle.names.specs.Name.{name_at, name_of};

use store::Store;

// The name on the J line that follows the first n lines.
pub fn name_at(s: &[u8], n: usize) -> &[u8]
    ensures { result.now ≡ name_at n s.now }
{
    name_places::name_on(name_places::skip_lines(s, n))
}

// The lines of a job on a sheet of l levels: of the number alone, as a `Counts` would be made for this.
pub fn job_lines(l: usize) -> usize
    requires { l ≤ levels_max }
    ensures { result ≡ job_lines l }
{
    l + 1
}

// How many lines come before the J line of job i.
pub fn lines_before(l: usize, i: usize) -> usize
    requires { record { levels : l ≤ levels_max; jobs : i ≤ jobs_max } }
    ensures { result ≡ lines_before l i }
{
    body::HEAD_LINES + l + l * l + i * job_lines(l)
}

// The name of job i, as that part of the sheet itself; for a refused sheet or a job that it does not have, no Option: document 01 wants
// "gives an empty part".
pub fn job_name(s: &[u8], i: usize) -> &[u8]
    ensures { result.now ≡ name_of s.now i }
{
    let mut store = Store::clear();
    let Ok(head) = sheet::read(s, &mut store) else {
        return &s[..0];
    };
    let m = head.jobs as usize;
    if m <= i {
        return &s[..0];
    }
    name_at(s, lines_before(head.levels as usize, i))
}
