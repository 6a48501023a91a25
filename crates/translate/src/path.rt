// A path's text: how many names, then each name, its length before it.
ghost use Rattle.std.specs.Prelude.{◌≡◌, ◌++◌, ◌≤◌, ◌+◌, ◌-◌, length, take, drop};
ghost use Rattle.paper.specs.Layout.{path_text, name_text};
ghost use Rattle.translate.specs.Settled.{path_at};
ghost use Rattle.translate.specs.Puts.{PathFits, NameFits, Put};

use crate::token::{colon_at, name_at};

fn put_name(name: &[u8], out: &mut [u8], to: usize) -> usize
    requires { NameFits name.now out.old to }
    ensures { Put out.old out.new to (name_text name.now) result }
{
    let n = name.len();
    out[to] = n as u8;
    memory::copy(out, to + 1, name);
    to + 1 + n
}

// The names are read again one by one; how many they are is known, and written, last.
pub(crate) fn put_path(src: &[u8], at: usize, out: &mut [u8], to: usize) -> usize
    requires { PathFits src.now at out.old to }
    ensures { Put out.old out.new to (path_text (path_at src.now at)) result }
{
    let mut from = at;
    let mut count = 0;
    let mut end = to + 1;
    // How many names there are shows at the last: there is no range to go over.
    loop {
        let name = name_at(src, from);
        end = put_name(&src[name.at..name.end], out, end);
        count += 1;
        let Some(next) = colon_at(src, name.end) else {
            out[to] = count;
            return end;
        };
        from = next;
    }
}
